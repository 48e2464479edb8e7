//! Writes values without parts whose text is no text of theirs as it stands: strings of octets and
//! of units.
ghost use Rattle.asn_coding.specs.Writing.{FailsToEncode};
ghost use Rattle.asn_dynamic.specs.encoding.Sent.{Sent};
ghost use Rattle.asn_model.specs.Value.{Value};
ghost use Rattle.std.specs.Prelude.{IfErr, OnOk};

use asn_encode::{EncodeText, Encoder};
use asn_fault::EncodeError;
use asn_model::Leaf;
use asn_strings::BmpString;

/// Writes the octets of a character string as their text.
///
/// # Errors
///
/// The refusal of octets that aren't UTF-8; those of `Encoder::put_leaf`.
pub fn write_text<E: Encoder>(encoder: &mut E, octets: &[u8]) -> Result<(), EncodeError>
    ensures written { OnOk result
        (Sent E.holds E.notation (Value.text octets.now) encoder.old encoder.new) }
    ensures refused { IfErr result (FailsToEncode E.notation (Value.text octets.now)) }
{
    match str::from_utf8(octets) {
        Ok(text) => encoder.put_leaf(Leaf::Text(text)),
        Err(error) => Err(encoder.no_unicode(error.valid_up_to())),
    }
}

/// Writes the units of a BMPString as their text.
///
/// # Errors
///
/// The refusal of units with a surrogate; those of `Encoder::put_leaf`.
pub fn write_units<E: Encoder>(encoder: &mut E, units: &[u16]) -> Result<(), EncodeError>
    ensures written { OnOk result
        (Sent E.holds E.notation (Value.units units.now) encoder.old encoder.new) }
    ensures refused { IfErr result (FailsToEncode E.notation (Value.units units.now)) }
{
    match units.to_vec(encoder.allocator()) {
        Ok(units) => BmpString::from_units(units).put_text(encoder),
        Err(_) => Err(EncodeError::out_of_memory(encoder.codec())),
    }
}
