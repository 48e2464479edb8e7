//! Makes values of `serde_json`.
ghost use Rattle.jer_values.specs.Order.{AreOrdered, HasOrdered, IsOrdered};
ghost use Rattle.jer_values.specs.Views.{data_of, items_view, members_view};
ghost use Rattle.serde_json.specs.View.{view, items_view as items_seen};
ghost use Rattle.serde_json.specs.View.{members_view as members_seen};
ghost use Rattle.std.specs.Prelude.{◌≡◌, IfOk};

use crate::{JerName, JerValue};
use serde_json::{Map, Value};
use std::alloc::{AllocError, Global};

/// Makes a value of `serde_json`.
impl JerValue {
    /// Returns the value as `serde_json` has it, with its own copy of each text.
    ///
    /// # Errors
    ///
    /// `AllocError` where memory is refused.
    pub fn to_json(&self, alloc: Global) -> Result<Value, AllocError>
        // The map of an object is in order whatever its members were.
        ensures { IfOk result (λ v. IsOrdered (data_of self.now) → view v ≡ data_of self.now) }
    {
        json_of(alloc, self)
    }
}

/// Returns a value as `serde_json` has it.
#[cycle(json_of)]
fn json_of(alloc: Global, value: &JerValue) -> Result<Value, AllocError>
    ensures { IfOk result (λ v. IsOrdered (data_of value.now) → view v ≡ data_of value.now) }
{
    match value {
        JerValue::Null => Ok(Value::Null),
        JerValue::Boolean(flag) => Ok(Value::Bool(*flag)),
        JerValue::Integer(number) => Ok(Value::Number(number.number())),
        JerValue::Text(text) => Ok(Value::String(String::from_str(alloc, text.as_str())?)),
        JerValue::List(items) => Ok(Value::Array(array_of(alloc, items)?)),
        JerValue::Members(members) => Ok(Value::Object(object_of(alloc, members)?)),
    }
}

/// Returns the elements of an array as `serde_json` has them.
#[cycle(json_of)]
fn array_of(alloc: Global, items: &Vec<JerValue>) -> Result<Vec<Value>, AllocError>
    ensures { IfOk result (λ vs. AreOrdered (items_view items.now.items)
        → items_seen vs.items ≡ items_view items.now.items) }
{
    let mut values = Vec::with_capacity(alloc, items.len())?;
    for item in items {
        values.push(json_of(alloc, item)?)?;
    }
    Ok(values)
}

/// Returns the members of an object as `serde_json` has them.
#[cycle(json_of)]
fn object_of(
    alloc: Global,
    members: &Vec<(JerName, JerValue)>,
) -> Result<Map<String, Value>, AllocError>
    ensures { IfOk result (λ m. HasOrdered (members_view members.now.items)
        → members_seen m.entries ≡ members_view members.now.items) }
{
    let mut map = Map::new(alloc);
    for (name, value) in members {
        let value = json_of(alloc, value)?;
        map.insert(String::from_str(alloc, name.as_str())?, value)?;
    }
    Ok(map)
}
