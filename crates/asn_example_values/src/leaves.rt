//! Makes values of types whose values have no parts.
ghost use Rattle.asn_dynamic_values.specs.DynView.{dyn_value};
ghost use Rattle.asn_example_values.specs.Examples.{fixed_zeros, item_at, leaf_example, nearest};
ghost use Rattle.asn_example_values.specs.Examples.{number_example, place_of, zeros};
ghost use Rattle.asn_model.specs.ShapeView.{shape_view};
ghost use Rattle.std.specs.Prelude.{◌≡◌, ◌<◌, ◌^◌, ◌∷◌, [], IfOk, if◌then◌else◌, map};
ghost use Rattle.std.specs.Prelude.{option_map, pos, string_bytes};

use asn_core::{Bits, OutOfMemory, WholeNumber};
use asn_dynamic_values::DynValue;
use asn_integers::IntegerType;
use asn_model::Shape;
use asn_times::{Date, GeneralizedTime, UtcTime};
use std::alloc::Global;

/// Is the least number that is kept as its digits.
const LEAST_DECIMAL: &str = "9223372036854775808";

/// Returns 0, or the least number where that is above it.
fn nearest(least: i128) -> u128
    ensures is { result ≡ nearest least }
    ensures below { result < 2 ^ 127 }
{
    let (is_negative, magnitude) = least.parts();
    if is_negative { 0 } else { magnitude }
}

/// Returns the place of the first item, or of the other one.
fn place_of(other: bool) -> usize
    ensures { result ≡ place_of other }
{
    if other { 1 } else { 0 }
}

/// Returns the number 0 or the least one above it, or the next one, or `None` where that is above
/// the greatest one.
fn number(least: i128, greatest: u128, other: bool) -> Option<DynValue>
    ensures { option_map dyn_value result ≡ number_example other least (pos greatest) }
{
    let magnitude = nearest(least) + place_of(other) as u128;
    if magnitude > greatest {
        return None;
    }
    Some(DynValue::Int(WholeNumber {
        negative: false,
        magnitude,
    }))
}

/// Returns so many bits that are 0.
///
/// # Errors
///
/// Where memory runs out.
#[tactic(auto, using(crate::proofs::Zeros::length_of_zeros))]
fn zeros(alloc: Global, count: usize) -> Result<Bits, OutOfMemory>
    ensures { IfOk result (λ bits. bits ≡ zeros count) }
{
    let mut bits = Bits::new(alloc);
    for place in 0..count {
        prove!(place < count);
        bits.push(false)?;
    }
    Ok(bits)
}

/// Returns the item of this place, extension additions last.
///
/// # Errors
///
/// Where memory runs out.
fn item_at(
    items: &[String],
    added: &Option<Vec<String>>,
    place: usize,
) -> Result<Option<String>, OutOfMemory>
    ensures { IfOk result (λ item. option_map string_bytes item
        ≡ item_at (map string_bytes items.now)
        (option_map (λ v. map string_bytes v.items) added.now) place) }
{
    if let Some(item) = items.get(place) {
        return Ok(Some(item.clone()?));
    }
    let Some(added) = added else {
        return Ok(None);
    };
    match added.get(place - items.len()) {
        Some(item) => Ok(Some(item.clone()?)),
        None => Ok(None),
    }
}

/// Returns a value of a character string type: an empty one, or the other one.
///
/// # Errors
///
/// Where memory runs out.
fn text(alloc: Global, other: bool) -> Result<Vec<u8>, OutOfMemory>
    ensures { IfOk result (λ t. t.items ≡ if other then 48 ∷ [] else []) }
{
    let mut text = Vec::new(alloc);
    if other {
        text.push(b'0')?;
    }
    Ok(text)
}

/// Returns the bits of a type that fixes their number, or not.
///
/// # Errors
///
/// Where memory runs out.
fn bits(alloc: Global, fixed: Option<usize>) -> Result<Bits, OutOfMemory>
    ensures { IfOk result (λ bits. bits ≡ fixed_zeros fixed) }
{
    match fixed {
        Some(size) => zeros(alloc, size),
        None => Ok(Bits::new(alloc)),
    }
}

/// Returns a value of a type whose values have no parts, or the other one, or `None` where it has
/// none or is of another kind.
///
/// # Errors
///
/// Where memory runs out.
pub fn leaf_value(alloc: Global, other: bool, leaf: &Shape) -> Result<Option<DynValue>, OutOfMemory>
    ensures { IfOk result (λ v.
        option_map dyn_value v ≡ leaf_example other (shape_view leaf.now)) }
{
    let value = match leaf {
        Shape::Null => DynValue::Null,
        Shape::Bool => DynValue::Bool(other),
        Shape::Int {
            least,
            greatest,
            ..
        } => match number(*least, *greatest, other) {
            Some(number) => number,
            None => return Ok(None),
        },
        Shape::Bits { fixed } => DynValue::Bits {
            bits: bits(alloc, *fixed)?,
            fixed: *fixed,
        },
        Shape::Octets | Shape::Any => DynValue::Octets(Vec::new(alloc)),
        Shape::Oid => DynValue::Arcs(Vec::from_array(alloc, [0, 0])?),
        Shape::Str { .. } => DynValue::Text(text(alloc, other)?),
        Shape::Bmp => DynValue::Units(Vec::new(alloc)),
        // The moment from which times are counted.
        Shape::Utc => DynValue::Utc(UtcTime::from_seconds(0).unwrap()),
        Shape::Gen => DynValue::Gen(GeneralizedTime::from_nanoseconds(0).unwrap()),
        Shape::Day => DynValue::Day(Date::from_days(0).unwrap()),
        Shape::Decimal => DynValue::Text(LEAST_DECIMAL.as_bytes().to_vec(alloc)?),
        Shape::Enum { items, added } => match item_at(items, added, place_of(other))? {
            Some(item) => DynValue::Item(item),
            None => return Ok(None),
        },
        _ => return Ok(None),
    };
    Ok(Some(value))
}
