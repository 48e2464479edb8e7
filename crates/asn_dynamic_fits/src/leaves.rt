//! Tells the values of the types whose values have no parts, but for ENUMERATED.
ghost use Rattle.asn_core.specs.ObjectIdentifiers.{is_object_identifier};
ghost use Rattle.asn_dynamic_values.specs.DynView.{dyn_value};
ghost use Rattle.asn_model.specs.Value.{is_leaf_of, is_same_size};
ghost use Rattle.asn_parts.specs.Parts.{leaf_shape};
ghost use Rattle.asn_strings.specs.Alphabets.{all_within, is_bmp};
ghost use Rattle.asn_times.specs.Held.{is_held_day, is_held_nanosecond, is_held_second};
ghost use Rattle.avn_grammar.specs.Chars.{all};
ghost use Rattle.avn_grammar.specs.WellFormed.{is_arc};
ghost use Rattle.std.specs.Prelude.{◌≡◌, ◌&&◌};

use crate::texts::{is_decimal, is_octets, is_string_of};
use asn_core::{Oid, WholeNumber};
use asn_dynamic_reading::is_between;
use asn_dynamic_values::DynValue;
use asn_model::are_arcs;
use asn_parts::LeafPart;
use asn_strings::laws::units_are_within;
use asn_times::laws::{day_is_held, generalized_is_held, utc_is_held};
use asn_times::{Date, GeneralizedTime, UtcTime};

/// Returns whether a value is one of a type whose values have no parts.
pub fn is_leaf(leaf: LeafPart, value: &DynValue) -> bool
    ensures { result ≡ is_leaf_of (leaf_shape leaf) (dyn_value value.now) }
{
    match (leaf, value) {
        (LeafPart::Null, DynValue::Null) => true,
        (LeafPart::Bool, DynValue::Bool(_)) => true,
        (
            LeafPart::Int {
                least,
                greatest,
                ..
            },
            DynValue::Int(number),
        ) => is_between(least, greatest, *number),
        (LeafPart::Bits { fixed }, DynValue::Bits { fixed: other, .. }) => {
            is_same_size(fixed, *other)
        }
        (LeafPart::Octets, DynValue::Octets(octets)) => is_octets(octets.as_slice()),
        (LeafPart::Any, DynValue::Octets(octets)) => is_octets(octets.as_slice()),
        (LeafPart::Oid, DynValue::Arcs(arcs)) => is_object_identifier(arcs.as_slice()),
        (LeafPart::Str { alphabet }, DynValue::Text(text)) => {
            is_string_of(alphabet, text.as_slice())
        }
        (LeafPart::Bmp, DynValue::Units(units)) => is_units(units.as_slice()),
        (LeafPart::Utc, DynValue::Utc(time)) => is_utc(time),
        (LeafPart::Gen, DynValue::Gen(time)) => is_generalized(time),
        (LeafPart::Day, DynValue::Day(day)) => is_day(day),
        (LeafPart::Decimal, DynValue::Text(text)) => is_decimal(text.as_slice()),
        _ => false,
    }
}

/// Returns whether the sizes are the same, or there is none in either place.
fn is_same_size(size: Option<usize>, other: Option<usize>) -> bool
    ensures { result ≡ is_same_size size other }
{
    match (size, other) {
        (None, None) => true,
        (Some(size), Some(other)) => size == other,
        (None, Some(_)) => false,
        (Some(_), None) => false,
    }
}

/// Returns whether the arcs are those of an object identifier.
fn is_object_identifier(arcs: &[u32]) -> bool
    ensures { result ≡ (all is_arc arcs.now && is_object_identifier arcs.now) }
{
    are_arcs(arcs);
    match Oid::new(arcs) {
        Some(_) => true,
        None => false,
    }
}

/// Returns that units are within 16 bits, as their type says.
fn is_units(units: &[u16]) -> bool
    ensures { result ≡ all_within is_bmp units.now }
{
    units_are_within(units);
    true
}

/// Returns that a UTCTime is of the years that are held.
fn is_utc(time: &UtcTime) -> bool
    ensures { result ≡ is_held_second time.now }
{
    utc_is_held(time);
    true
}

/// Returns that a GeneralizedTime is of the years that are held.
fn is_generalized(time: &GeneralizedTime) -> bool
    ensures { result ≡ is_held_nanosecond time.now }
{
    generalized_is_held(time);
    true
}

/// Returns that a DATE is of the years that are held.
fn is_day(day: &Date) -> bool
    ensures { result ≡ is_held_day day.now }
{
    day_is_held(day);
    true
}
