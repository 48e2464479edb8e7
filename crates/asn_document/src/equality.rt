//! Compares documents, and JSON values, as trees: members of an object have no order.
ghost use Rattle.asn_document.specs.Equality.{same_number, same_tree, same_items, same_members};
ghost use Rattle.asn_document.specs.SameTrees.{documents-alike, documents-equal};
ghost use Rattle.serde_json.specs.View.{view, number_view, items_view, members_view};
ghost use Rattle.std.specs.Prelude.{◌≡◌, ◌↔◌, IsTrue};

use crate::Document;
use serde_json::{Map, Number, Value};

/// Two documents are equal where their JSON trees are.
impl PartialEq for Document {
    ghost eq = { λ a b. same_tree (view a.value) (view b.value) };

    ghost laws = { documents-alike };

    fn eq(&self, other: &Document) -> bool
        ensures is { result ≡ same_tree (view self.now.value) (view other.now.value) }
        ensures same { IsTrue result ↔ (view self.now.value ≡ view other.now.value) }
    {
        is_same_tree(self.value(), other.value())
    }
}

/// Each document equals itself, since it holds no float.
impl Eq for Document {
    ghost laws = { documents-equal };
}

/// Returns whether the values are the same tree. A float is the same as none. No memory is taken.
#[cycle(same)]
fn is_same_tree(left: &Value, right: &Value) -> bool
    ensures { result ≡ same_tree (view left.now) (view right.now) }
{
    match (left, right) {
        (Value::Null, Value::Null) => true,
        (Value::Bool(left), Value::Bool(right)) => *left == *right,
        (Value::Number(left), Value::Number(right)) => is_same_number(left, right),
        (Value::String(left), Value::String(right)) => left.as_str() == right.as_str(),
        (Value::Array(left), Value::Array(right)) => are_same_items(left, right),
        (Value::Object(left), Value::Object(right)) => are_same_members(left, right),
        _ => false,
    }
}

/// Returns whether the numbers are the same whole number.
fn is_same_number(left: &Number, right: &Number) -> bool
    ensures { result ≡ same_number (number_view left.now) (number_view right.now) }
{
    match (left.as_u64(), right.as_u64()) {
        (Some(left), Some(right)) => left == right,
        (None, None) => match (left.as_i64(), right.as_i64()) {
            (Some(left), Some(right)) => left == right,
            _ => false,
        },
        _ => false,
    }
}

/// Returns whether the elements are the same, one by one.
#[cycle(same)]
fn are_same_items(left: &Vec<Value>, right: &Vec<Value>) -> bool
    ensures { result ≡ same_items (items_view left.now.items) (items_view right.now.items) }
{
    let mut others = right.iter();
    for item in left {
        let Some(other) = others.next() else {
            return false;
        };
        if !is_same_tree(item, other) {
            return false;
        }
    }
    others.next().is_none()
}

/// Returns whether the members are the same: both maps have them in the order of their keys.
#[cycle(same)]
fn are_same_members(left: &Map<String, Value>, right: &Map<String, Value>) -> bool
    ensures { result ≡ same_members (members_view left.now.entries)
        (members_view right.now.entries) }
{
    let mut others = right.iter();
    for (key, member) in left.iter() {
        let Some((other_key, other)) = others.next() else {
            return false;
        };
        if key.as_str() != other_key.as_str() || !is_same_tree(member, other) {
            return false;
        }
    }
    others.next().is_none()
}
