//! Encodes a value of a type as JSON text, and decodes one from it. `enc` and `de` have the two
//! halves of the codec: each is a few primitive calls on JSON values, over which the traits of
//! `asn_traits` encode and decode every type.
ghost use Rattle.asn_fault.specs.Failure.{failure_of};
ghost use Rattle.asn_traits.specs.Canonical.{canonical_text};
ghost use Rattle.asn_traits.specs.Notation.{Notation};
ghost use Rattle.asn_coding.specs.Root.{Reads};
ghost use Rattle.asn_traits.specs.DecodesTo.{DecodesTo};
ghost use Rattle.asn_traits.specs.Tree.{Tree};
ghost use Rattle.asn_traits.specs.Value.{Value, Fits};
ghost use Rattle.asn_traits.specs.Writable.{Writable};
ghost use Rattle.asn_coding.specs.Writing.{FailsToEncode, IsOutOfMemory};
ghost use Rattle.jer_rules.specs.Text.{IsJer, ReadsBack, RefusesText};
ghost use Rattle.serde_json.specs.Data.{Data};
ghost use Rattle.std.specs.Prelude.{◌≡◌, Some, IfOk, IfErr, OnOk, string_bytes};

mod bits;
mod build;
pub mod de;
pub mod enc;
mod faults;
mod identifiers;
mod leaves;
mod take_apart;

use asn_fault::{DecodeError, EncodeError};
use asn_traits::{Decode, Encode};
use std::alloc::Global;

/// Encodes a value as compact JSON text, with the members of an object in byte order of their
/// names.
///
/// # Errors
///
/// `OutOfMemory`; else the kind of the first part that JER cannot encode.
pub fn encode<T: Encode>(alloc: Global, value: &T) -> Result<String, EncodeError>
    // The text is the canonical one of the value, of the type's shape. It is read as the JSON
    // value that is written for the value, unless that nests deeper than JSON is read.
    ensures text { IfOk result (λ s. string_bytes s ≡ canonical_text Notation.jer
        (T.value_of value.now)) }
    ensures reads_back { IfOk result (λ s. ReadsBack (T.value_of value.now) (string_bytes s)) }
    ensures fits { OnOk result (Fits T.shape_of (T.value_of value.now)) }
    ensures writable { OnOk result (Writable Notation.jer (T.value_of value.now)) }
    // An error is that of the first part that can't be encoded, or that memory ran out.
    ensures refused { IfErr result (FailsToEncode Notation.jer (T.value_of value.now)) }
    // What can be encoded is encoded, unless memory runs out.
    ensures complete { Writable Notation.jer (T.value_of value.now) → IfErr result
        (IsOutOfMemory Notation.jer) }
{
    let mut encoder = enc::Encoder::new(alloc);
    value.encode(&mut encoder)?;
    encoder.to_string()
}

/// Returns the value that a JSON text decodes to.
///
/// # Errors
///
/// `OutOfMemory`; `Parser` where the text is no JSON; `RealNotSupported` where a number in it is
/// neither an `i64` nor a `u64`; else why the JSON value is no value of the type, within a
/// `FieldError` for each field on the way.
pub fn decode<T: Decode>(alloc: Global, input: &str) -> Result<T, DecodeError>
    // The text is a JSON value that decodes to the value of the result.
    ensures value { IfOk result (λ x. (d : Data) × IsJer input.now d × DecodesTo Notation.jer
        T.shape_of
        (Some (Tree.json d)) (T.value_of x)) }
    // An error is why the text isn't read as JSON without floats, or where and why its value
    // decodes to none of the type, or that memory ran out.
    ensures refused { IfErr result (λ e. RefusesText T.shape_of input.now (failure_of e)) }
    // A text that decodes to a value is read as that value, unless memory runs out.
    ensures complete { (d : Data) (v : Value) → IsJer input.now d → DecodesTo Notation.jer
        T.shape_of
        (Some (Tree.json d)) v → Reads T.value_of v result }
{
    let mut decoder = de::Decoder::new(alloc, input)?;
    T::decode(&mut decoder)
}
