//! Reads values of the types whose values have no parts, but for ENUMERATED.
ghost use Rattle.asn_coding.specs.Answer.{Answer};
ghost use Rattle.asn_dynamic_reading.specs.fitting.HeldValue.{IsHeldValue};
ghost use Rattle.asn_dynamic_values.specs.DynView.{dyn_value};
ghost use Rattle.asn_model.specs.Shape.{Shape as AbstractShape};
ghost use Rattle.asn_parts.specs.Parts.{leaf_shape};
ghost use Rattle.std.specs.Prelude.{IfOk};

use crate::numbers::read_int;
use crate::texts::{read_decimal, read_string};
use crate::values::{arcs_value, day_value, gen_value, octets_value, utc_value};
use asn_core::{Constraints, Tag};
use asn_decode::Decoder;
use asn_dynamic_values::DynValue;
use asn_fault::DecodeError;
use asn_model::{LeafKind, OwnedLeaf};
use asn_parts::LeafPart;

/// Reads the first pending slot by a type whose values have no parts.
///
/// # Errors
///
/// Where and why the slot decodes to no value of the type; `OutOfMemory`.
pub fn read_leaf<D: Decoder>(decoder: &mut D, leaf: LeafPart) -> Result<DynValue, DecodeError>
    ensures answer { Answer D.notation (leaf_shape leaf) dyn_value (D.pending decoder.old) result
        (D.pending decoder.new) }
    ensures held { IfOk result (λ v. IsHeldValue (dyn_value v)) }
{
    match leaf {
        LeafPart::Null => read_null(decoder),
        LeafPart::Bool => read_bool(decoder),
        LeafPart::Int {
            least,
            greatest,
            width,
        } => read_int(decoder, least, greatest, width),
        LeafPart::Bits { fixed } => read_bits(decoder, fixed),
        LeafPart::Octets => read_octets(decoder),
        LeafPart::Any => read_any(decoder),
        LeafPart::Oid => read_oid(decoder),
        LeafPart::Str { alphabet } => read_string(decoder, alphabet),
        LeafPart::Bmp => read_bmp(decoder),
        LeafPart::Utc => read_utc(decoder),
        LeafPart::Gen => read_gen(decoder),
        LeafPart::Day => read_day(decoder),
        LeafPart::Decimal => read_decimal(decoder),
    }
}

/// Reads a NULL.
fn read_null<D: Decoder>(decoder: &mut D) -> Result<DynValue, DecodeError>
    ensures answer { Answer D.notation AbstractShape.null dyn_value (D.pending decoder.old) result
        (D.pending decoder.new) }
    ensures held { IfOk result (λ v. IsHeldValue (dyn_value v)) }
{
    match decoder.decode_null(Tag::NULL) {
        Ok(()) => Ok(DynValue::Null),
        Err(error) => Err(error),
    }
}

/// Reads a BOOLEAN.
fn read_bool<D: Decoder>(decoder: &mut D) -> Result<DynValue, DecodeError>
    ensures answer { Answer D.notation AbstractShape.boolean dyn_value (D.pending decoder.old)
        result (D.pending decoder.new) }
    ensures held { IfOk result (λ v. IsHeldValue (dyn_value v)) }
{
    match decoder.decode_bool(Tag::BOOL) {
        Ok(flag) => Ok(DynValue::Bool(flag)),
        Err(error) => Err(error),
    }
}

/// Reads a BIT STRING, of this size where the type fixes one.
fn read_bits<D: Decoder>(decoder: &mut D, fixed: Option<usize>) -> Result<DynValue, DecodeError>
    ensures answer { Answer D.notation (AbstractShape.bits fixed) dyn_value
        (D.pending decoder.old) result (D.pending decoder.new) }
    ensures held { IfOk result (λ v. IsHeldValue (dyn_value v)) }
{
    match decoder.take_leaf(LeafKind::Bits(fixed))? {
        // By the contract of `take_leaf` a leaf is of the kind that was asked for.
        OwnedLeaf::Bits(bits, _) => Ok(DynValue::Bits { bits, fixed }),
        _ => unreachable!(),
    }
}

/// Reads an OCTET STRING.
fn read_octets<D: Decoder>(decoder: &mut D) -> Result<DynValue, DecodeError>
    ensures answer { Answer D.notation AbstractShape.octets dyn_value (D.pending decoder.old) result
        (D.pending decoder.new) }
    ensures held { IfOk result (λ v. IsHeldValue (dyn_value v)) }
{
    match decoder.decode_octet_string(Tag::OCTET_STRING, &Constraints::NONE) {
        Ok(octets) => Ok(octets_value(octets)),
        Err(error) => Err(error),
    }
}

/// Reads a value of any type, as the octets of its encoding.
fn read_any<D: Decoder>(decoder: &mut D) -> Result<DynValue, DecodeError>
    ensures answer { Answer D.notation AbstractShape.any dyn_value (D.pending decoder.old) result
        (D.pending decoder.new) }
    ensures held { IfOk result (λ v. IsHeldValue (dyn_value v)) }
{
    match decoder.decode_any(Tag::OCTET_STRING) {
        Ok(octets) => Ok(octets_value(octets.into_vec())),
        Err(error) => Err(error),
    }
}

/// Reads an OBJECT IDENTIFIER.
fn read_oid<D: Decoder>(decoder: &mut D) -> Result<DynValue, DecodeError>
    ensures answer { Answer D.notation AbstractShape.oid dyn_value (D.pending decoder.old) result
        (D.pending decoder.new) }
    ensures held { IfOk result (λ v. IsHeldValue (dyn_value v)) }
{
    match decoder.decode_object_identifier(Tag::OBJECT_IDENTIFIER) {
        Ok(identifier) => match identifier.arcs().to_vec(decoder.allocator()) {
            Ok(arcs) => Ok(arcs_value(arcs)),
            Err(_) => Err(DecodeError::out_of_memory(decoder.codec())),
        },
        Err(error) => Err(error),
    }
}

/// Reads a BMPString.
fn read_bmp<D: Decoder>(decoder: &mut D) -> Result<DynValue, DecodeError>
    ensures answer { Answer D.notation AbstractShape.bmp dyn_value (D.pending decoder.old) result
        (D.pending decoder.new) }
    ensures held { IfOk result (λ v. IsHeldValue (dyn_value v)) }
{
    match decoder.decode_bmp_string(Tag::BMP_STRING, &Constraints::NONE) {
        Ok(string) => match string.units().to_vec(decoder.allocator()) {
            Ok(units) => Ok(DynValue::Units(units)),
            Err(_) => Err(DecodeError::out_of_memory(decoder.codec())),
        },
        Err(error) => Err(error),
    }
}

/// Reads a UTCTime.
fn read_utc<D: Decoder>(decoder: &mut D) -> Result<DynValue, DecodeError>
    ensures answer { Answer D.notation AbstractShape.utc dyn_value (D.pending decoder.old) result
        (D.pending decoder.new) }
    ensures held { IfOk result (λ v. IsHeldValue (dyn_value v)) }
{
    match decoder.decode_utc_time(Tag::UTC_TIME) {
        Ok(time) => Ok(utc_value(time)),
        Err(error) => Err(error),
    }
}

/// Reads a GeneralizedTime.
fn read_gen<D: Decoder>(decoder: &mut D) -> Result<DynValue, DecodeError>
    ensures answer { Answer D.notation AbstractShape.gen dyn_value (D.pending decoder.old) result
        (D.pending decoder.new) }
    ensures held { IfOk result (λ v. IsHeldValue (dyn_value v)) }
{
    match decoder.decode_generalized_time(Tag::GENERALIZED_TIME) {
        Ok(time) => Ok(gen_value(time)),
        Err(error) => Err(error),
    }
}

/// Reads a DATE.
fn read_day<D: Decoder>(decoder: &mut D) -> Result<DynValue, DecodeError>
    ensures answer { Answer D.notation AbstractShape.day dyn_value (D.pending decoder.old) result
        (D.pending decoder.new) }
    ensures held { IfOk result (λ v. IsHeldValue (dyn_value v)) }
{
    match decoder.decode_date(Tag::DATE) {
        Ok(day) => Ok(day_value(day)),
        Err(error) => Err(error),
    }
}
