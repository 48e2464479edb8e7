//! Tests whether a JSON value holds a float: a number that is neither an `i64` nor a `u64`.
//! `serde_json` reads every number of JSON, and ASN.1 text has whole numbers alone.
#![tactic(auto)]

ghost use Rattle.serde_json.specs.View.{view, items_view, members_view};
ghost use Rattle.serde_json.specs.Written.{has_float, items_have_float, members_have_float};
ghost use Rattle.std.specs.Prelude.{◌≡◌};

use serde_json::{Map, Value};

/// Returns whether a number in the value is neither an `i64` nor a `u64`. Each part is looked at
/// once, and no memory is taken.
#[cycle(floats)]
pub fn holds_float(value: &Value) -> bool
    ensures { result ≡ has_float (view value.now) }
{
    match value {
        Value::Number(number) => number.is_f64(),
        Value::Array(items) => items_hold_float(items),
        Value::Object(members) => members_hold_float(members),
        _ => false,
    }
}

/// Returns whether an element of an array holds such a number.
#[cycle(floats)]
fn items_hold_float(items: &Vec<Value>) -> bool
    ensures { result ≡ items_have_float (items_view items.now.items) }
{
    for item in items {
        // A number is looked at without a call.
        let holds = match item {
            Value::Number(number) => number.is_f64(),
            _ => holds_float(item),
        };
        if holds {
            return true;
        }
    }
    false
}

/// Returns whether a member of an object holds such a number.
#[cycle(floats)]
fn members_hold_float(members: &Map<String, Value>) -> bool
    ensures { result ≡ members_have_float (members_view members.now.entries) }
{
    for (_name, member) in members.iter() {
        if holds_float(member) {
            return true;
        }
    }
    false
}
