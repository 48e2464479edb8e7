//! Defines the values.
ghost use Rattle.jer_values.specs.Views.{data_of, items_view, members_view};
ghost use Rattle.serde_json.specs.Data.{Data};
ghost use Rattle.serde_json.specs.Events.{SendsValue};
ghost use Rattle.std.specs.Prelude.{OnOk};

use crate::{JerName, JsonInteger};
use serde::{Described, Serialize, Serializer};

/// Holds a JSON value.
#[derive(Drop)]
pub enum JerValue {
    /// Is `null`.
    Null,
    /// Is `true` or `false`.
    Boolean(bool),
    /// Is a whole number.
    Integer(JsonInteger),
    /// Is a string.
    Text(String),
    /// Is an array of values.
    List(Vec<JerValue>),
    /// Is an object of members, each a name and a value, in byte order of the names.
    Members(Vec<(JerName, JerValue)>),
}

impl Described for JerValue {
    ghost writes = { λ v. SendsValue (data_of v) };
}

impl Serialize for JerValue {
    fn serialize<S: Serializer>(&self, out: &mut S) -> Result<(), S::Error> {
        send(self, out)
    }
}

/// Sends a value.
#[cycle(send)]
fn send<S: Serializer>(value: &JerValue, out: &mut S) -> Result<(), S::Error>
    ensures { OnOk result (SendsValue (data_of value.now) (S.written out.old) (S.written out.new)) }
{
    match value {
        JerValue::Null => out.unit(),
        JerValue::Boolean(flag) => out.bool(*flag),
        JerValue::Integer(number) => number.serialize(out),
        JerValue::Text(text) => out.str(text.as_str()),
        JerValue::List(items) => send_items(items, out),
        JerValue::Members(members) => send_members(members, out),
    }
}

/// Sends an array.
#[cycle(send)]
fn send_items<S: Serializer>(items: &Vec<JerValue>, out: &mut S) -> Result<(), S::Error>
    ensures { OnOk result (SendsValue (Data.array (items_view items.now.items))
        (S.written out.old) (S.written out.new)) }
{
    out.begin_seq(Some(items.len()))?;
    for item in items {
        // A number or a flag saves the call of `send`, which makes room for all that it may send.
        match item {
            JerValue::Integer(number) => number.serialize(out)?,
            JerValue::Boolean(flag) => out.bool(*flag)?,
            _ => send(item, out)?,
        }
    }
    out.end_seq()
}

/// Sends an object.
#[cycle(send)]
fn send_members<S: Serializer>(
    members: &Vec<(JerName, JerValue)>,
    out: &mut S,
) -> Result<(), S::Error>
    ensures { OnOk result (SendsValue (Data.object (members_view members.now.items))
        (S.written out.old) (S.written out.new)) }
{
    out.begin_map(Some(members.len()))?;
    for (name, value) in members {
        out.key(name.as_str())?;
        send(value, out)?;
    }
    out.end_map()
}
