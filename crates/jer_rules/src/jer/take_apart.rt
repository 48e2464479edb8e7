//! Takes parts out of a JSON value by moves: nothing is copied, and no memory is taken. A value
//! of another kind comes back as it was, so that an error can name it.
ghost use Rattle.asn_names.specs.Rows.{row_names};
ghost use Rattle.jer_rules.specs.Numbers.{IsWhole};
ghost use Rattle.jer_rules.specs.Payload.{PayloadOf};
ghost use Rattle.serde_json.specs.Data.{Data};
ghost use Rattle.serde_json.specs.Find.{as_array, as_object};
ghost use Rattle.serde_json.specs.View.{view, number_view, items_view, members_view};
ghost use Rattle.std.specs.Prelude.{◌≡◌, ◌≤◌, None, MatchResult, length, nat_lt};

use asn_core::WholeNumber;
use asn_traits::{NameList, place_of};
use serde_json::{Map, Number, Value};

/// Returns the elements of an array.
///
/// # Errors
///
/// The value itself where it is no array.
pub fn into_items(value: Value) -> Result<Vec<Value>, Value>
    ensures { MatchResult result (λ items. view value ≡ Data.array (items_view items.items))
        (λ v. (v ≡ value) × (as_array (view value) ≡ None)) }
{
    match value {
        Value::Array(items) => Ok(items),
        other => Err(other),
    }
}

/// Returns the members of an object.
///
/// # Errors
///
/// The value itself where it is no object.
pub fn into_members(value: Value) -> Result<Map<String, Value>, Value>
    ensures { MatchResult result (λ members. view value ≡ Data.object
        (members_view members.entries)) (λ v. (v ≡ value) × (as_object (view value) ≡ None)) }
{
    match value {
        Value::Object(members) => Ok(members),
        other => Err(other),
    }
}

/// Returns whether an object has two members or more.
pub fn has_several(members: &Map<String, Value>) -> bool
    ensures { result ≡ nat_lt 1 (length members.now.entries) }
{
    members.len() > 1
}

/// Returns the place of the only member's name among the identifiers, and the member's value, or
/// `None` exactly where there is no member, or no such identifier. The case of ASCII letters makes
/// no difference.
pub fn into_payload<N: NameList>(
    members: Map<String, Value>,
    identifiers: &N,
) -> Option<(usize, Value)>
    requires { length members.entries ≤ 1 }
    ensures { PayloadOf (members_view members.entries) (row_names (N.rows identifiers.now)) result }
{
    let mut members = members;
    let (name, payload) = members.pop_first()?;
    let place = place_of(identifiers, name.as_str())?;
    Some((place, payload))
}

/// Returns the whole number that a number is, or `None` exactly where it is none: a float.
pub fn whole_number(number: &Number) -> Option<WholeNumber>
    ensures { IsWhole (Data.number (number_view number.now)) result }
{
    if let Some(magnitude) = number.as_u64() {
        return Some(WholeNumber {
            negative: false,
            magnitude: magnitude as u128,
        });
    }
    // What is no `u64` may be a number below 0.
    let number = number.as_i64()?;
    Some(WholeNumber {
        negative: number < 0,
        magnitude: number.unsigned_abs() as u128,
    })
}
