//! Writes and reads bit strings as JSON values: of a fixed size the digits of their octets, and
//! else an object of their length and these digits.
ghost use Rattle.asn_core.specs.BitStrings.{padded};
ghost use Rattle.asn_model.specs.declared.leaves.LeafKind.TheVariants.{Bits as BitsKind};
ghost use Rattle.asn_traits.specs.BitLeaves.{LengthStands, another_length, sized_bits};
ghost use Rattle.asn_traits.specs.Canonical.{bits_data};
ghost use Rattle.asn_traits.specs.Notation.{Notation};
ghost use Rattle.asn_coding.specs.Opening.{IsTaken};
ghost use Rattle.asn_traits.specs.Value.{Value as AbstractValue};
ghost use Rattle.asn_coding.specs.Writing.{FailsToEncode, IsOutOfMemory};
ghost use Rattle.hex.specs.Hex.{decode_of, encode_upper};
ghost use Rattle.jer_rules.specs.BitTexts.{IsDeclared, ReadsBits, bit_members};
ghost use Rattle.jer_rules.specs.NoLeaves.{IsNoLeaf};
ghost use Rattle.jer_rules.specs.Pending.{tree_of};
ghost use Rattle.serde_json.specs.Data.{Data};
ghost use Rattle.jer_values.specs.Views.{data_of, members_view};
ghost use Rattle.serde_json.specs.View.{view};
ghost use Rattle.std.specs.Prelude.{◌≡◌, ◌^◌, ◌<◌, Some, None, OnOk, IfOk, IfErr, MatchResult};
ghost use Rattle.std.specs.Prelude.{length};

use super::faults::in_jer;
use super::leaves::NoLeaf;
use asn_core::{Bits, Bounded, Codec, OutOfMemory, Size};
use asn_fault::EncodeError;
use asn_traits::OwnedLeaf;
use jer_values::{JerName, JerValue, JsonInteger};
use serde_json::Value;
use std::alloc::Global;

/// Returns the JSON value that is written for bits, of a fixed size or of any.
///
/// # Errors
///
/// `SizeConstraintNotSatisfied` where the fixed size is another one; `OutOfMemory`.
pub fn value_of_bits(
    alloc: Global,
    bits: &Bits,
    size: Option<usize>,
) -> Result<JerValue, EncodeError>
    ensures json { IfOk result (λ v. data_of v ≡ bits_data size bits.now) }
    ensures writable { OnOk result (LengthStands Notation.jer size (length bits.now)) }
    ensures refused { IfErr result
        (FailsToEncode Notation.jer (AbstractValue.bits bits.now size)) }
{
    match size {
        Some(size) => text_of_bits(alloc, bits, size),
        None => object_of_bits(alloc, bits),
    }
}

/// Returns the digits of bits of a fixed size.
///
/// # Errors
///
/// `SizeConstraintNotSatisfied` where the bits are not as many; `OutOfMemory`.
fn text_of_bits(alloc: Global, bits: &Bits, size: usize) -> Result<JerValue, EncodeError>
    ensures json { IfOk result (λ v. data_of v ≡ Data.string (encode_upper (padded bits.now))) }
    ensures writable { OnOk result (length bits.now ≡ size) }
    ensures refused { IfErr result
        (FailsToEncode Notation.jer (AbstractValue.bits bits.now (Some size))) }
{
    if bits.len() != size {
        let fixed = Size {
            bounds: Bounded::Single(size),
        };
        return Err(EncodeError::size_constraint_not_satisfied(bits.len(), &fixed, Codec::Jer));
    }
    Ok(JerValue::Text(in_jer(hex::encode_upper(alloc, bits.octets()))?))
}

/// Returns the object of bits of any number.
///
/// # Errors
///
/// `OutOfMemory` alone.
fn object_of_bits(alloc: Global, bits: &Bits) -> Result<JerValue, EncodeError>
    ensures json { IfOk result (λ v. data_of v ≡ bits_data None bits.now) }
    ensures writable { length bits.now < 2 ^ 64 }
    ensures refused { IfErr result (IsOutOfMemory Notation.jer) }
{
    let size = bits.len();
    let members = in_jer(members_of_bits(alloc, bits.octets(), size))?;
    Ok(JerValue::Members(members))
}

/// Returns the members of the object of bits, by their octets and how many they are.
///
/// # Errors
///
/// `OutOfMemory` alone.
fn members_of_bits(
    alloc: Global,
    octets: &[u8],
    size: usize,
) -> Result<Vec<(JerName, JerValue)>, OutOfMemory>
    ensures { IfOk result (λ ms. members_view ms.items ≡ bit_members octets.now size) }
{
    let digits = hex::encode_upper(alloc, octets)?;
    let length = JerValue::Integer(JsonInteger::from_usize(size));
    let mut members = Vec::with_capacity(alloc, 2)?;
    members.push((JerName::Constant("length"), length))?;
    members.push((JerName::Constant("value"), JerValue::Text(digits)))?;
    Ok(members)
}

/// Why digits are not the bits of a length.
#[derive(Drop)]
pub enum NoBits {
    /// They are no hexadecimal of whole octets.
    Digits,
    /// They are so many octets, and the length takes another number.
    Count(usize),
    /// Memory ran out.
    OutOfMemory,
}

/// Returns so many bits, the first ones of the octets that the digits say.
///
/// # Errors
///
/// `Digits` where the digits are no hexadecimal of whole octets; `Count` where there are not as
/// many octets as so many bits take; `OutOfMemory`.
fn bits_of_digits(alloc: Global, digits: &str, size: usize) -> Result<Bits, NoBits>
    ensures { ReadsBits digits.now size result }
{
    let octets = match hex::decode(alloc, digits.as_bytes()) {
        Ok(octets) => octets,
        Err(hex::FromHexError::OutOfMemory) => return Err(NoBits::OutOfMemory),
        Err(_error) => return Err(NoBits::Digits),
    };
    let count = octets.len();
    match Bits::from_octets(octets, size) {
        Some(bits) => Ok(bits),
        None => Err(NoBits::Count(count)),
    }
}

/// Returns the bits of a fixed size that a JSON value is.
///
/// # Errors
///
/// `Kind` where the value is no string; `Octets` where its text is no hexadecimal of whole octets;
/// `Count` where these are not as many as the size takes; `OutOfMemory`.
pub fn fixed_bits(alloc: Global, value: Value, size: usize) -> Result<OwnedLeaf, NoLeaf>
    ensures { MatchResult result
        (IsTaken Notation.jer (BitsKind (Some size)) (tree_of value))
        (IsNoLeaf (BitsKind (Some size)) value) }
{
    let digits = match value {
        Value::String(text) => text,
        other => return Err(NoLeaf::Kind(other)),
    };
    match bits_of_digits(alloc, digits.as_str(), size) {
        Ok(bits) => Ok(OwnedLeaf::Bits(bits, Some(size))),
        Err(NoBits::Digits) => Err(NoLeaf::Octets),
        Err(NoBits::Count(octets)) => Err(NoLeaf::Count { octets, size }),
        Err(NoBits::OutOfMemory) => Err(NoLeaf::OutOfMemory),
    }
}

/// Returns the bits of any number that a JSON value is.
///
/// # Errors
///
/// `Object` where the value is no object; `Kind` where it lacks a text `value` or a `u64`
/// `length`; `Digits` where that text is no hexadecimal of whole octets; `Count` where these are
/// not as many as the length takes; `OutOfMemory`.
pub fn counted_bits(alloc: Global, value: Value) -> Result<OwnedLeaf, NoLeaf>
    ensures { MatchResult result (IsTaken Notation.jer (BitsKind None) (tree_of value))
        (IsNoLeaf (BitsKind None) value) }
{
    if !value.is_object() {
        return Err(NoLeaf::Object);
    }
    match declared_bits(alloc, &value) {
        Some((_, Ok(bits))) => Ok(OwnedLeaf::Bits(bits, None)),
        Some((_, Err(NoBits::Digits))) => Err(NoLeaf::Digits),
        Some((size, Err(NoBits::Count(octets)))) => Err(NoLeaf::Count { octets, size }),
        Some((_, Err(NoBits::OutOfMemory))) => Err(NoLeaf::OutOfMemory),
        None => Err(NoLeaf::Kind(value)),
    }
}

/// Returns the length that the member `length` tells, and the bits of the digits in the member
/// `value`, or why there are none. None exactly where the value lacks a text `value` or a `u64`
/// `length`.
fn declared_bits(alloc: Global, value: &Value) -> Option<(usize, Result<Bits, NoBits>)>
    ensures { IsDeclared (view value.now) result }
{
    let digits = value.get("value").and_then(Value::as_str)?;
    let size = value.get("length").and_then(Value::as_u64)? as usize;
    Some((size, bits_of_digits(alloc, digits, size)))
}
