//! Values that are put into nodes.
ghost use Rattle.std.specs.Prelude.{◌≡◌, [], OnOk};
ghost use Rattle.avn_value.specs.View.{tree_of, list_trees, fields_trees};
ghost use Rattle.avn_nodes.specs.Preorder.{preorder, fields_preorder, list_preorder};
ghost use Rattle.avn_nodes.specs.NodeLists.{NodeList, extended};

use crate::value::AvnValue;
use avn_nodes::{NodeKind, Nodes};
use std::alloc::AllocError;

/// Puts the nodes of a value, of the pending name, after the others.
///
/// # Errors
///
/// `AllocError` where memory is refused, or the nodes are more than a table holds.
#[cycle(put)]
pub fn put_value(nodes: &mut Nodes, value: &AvnValue) -> Result<(), AllocError>
    requires { nodes.old.word ≡ [] }
    ensures { OnOk result (nodes.new
        ≡ extended nodes.old (preorder nodes.old.name (tree_of value.now))) }
{
    match value {
        AvnValue::Boolean(truth) => nodes.leaf(NodeKind::Boolean(*truth)),
        AvnValue::Null => nodes.leaf(NodeKind::Null),
        AvnValue::Integer(text) => {
            nodes.push_text(text.as_str())?;
            nodes.leaf(NodeKind::Integer)
        }
        AvnValue::Real(text) => {
            nodes.push_text(text.as_str())?;
            nodes.leaf(NodeKind::Real)
        }
        AvnValue::Enumerated(identifier) => {
            nodes.push_text(identifier.as_str())?;
            nodes.leaf(NodeKind::Enumerated)
        }
        AvnValue::CharString(text) => {
            nodes.push_text(text.as_str())?;
            nodes.leaf(NodeKind::CharString)
        }
        AvnValue::OctetString(octets) => nodes.octets_leaf(NodeKind::OctetString, octets, 0),
        AvnValue::BitString { bytes, bit_length } => {
            nodes.octets_leaf(NodeKind::BitString, bytes, *bit_length)
        }
        AvnValue::Oid(arcs) => nodes.arcs_leaf(arcs),
        AvnValue::Sequence(fields) => {
            let place = nodes.len();
            nodes.open(NodeKind::Sequence)?;
            put_fields(nodes, fields)?;
            nodes.close(place, NodeKind::Sequence);
            Ok(())
        }
        AvnValue::SequenceOf(list) => {
            let place = nodes.len();
            nodes.open(NodeKind::SequenceOf)?;
            put_list(nodes, list)?;
            nodes.close(place, NodeKind::SequenceOf);
            Ok(())
        }
        AvnValue::Choice { identifier, value } => {
            nodes.push_text(identifier.as_str())?;
            let place = nodes.len();
            nodes.open(NodeKind::Choice)?;
            put_value(nodes, value)?;
            nodes.close(place, NodeKind::Choice);
            Ok(())
        }
    }
}

/// Puts the nodes of the values of a list after the others.
///
/// # Errors
///
/// As `put_value` has them.
#[cycle(put)]
fn put_list(nodes: &mut Nodes, list: &Vec<AvnValue>) -> Result<(), AllocError>
    requires nameless { nodes.old.name ≡ [] }
    requires clear { nodes.old.word ≡ [] }
    ensures { OnOk result (nodes.new
        ≡ extended nodes.old (list_preorder (list_trees list.now.items))) }
{
    for item in list.iter() {
        put_value(nodes, item)?;
    }
    Ok(())
}

/// Puts the nodes of the fields of a SEQUENCE after the others.
///
/// # Errors
///
/// As `put_value` has them.
#[cycle(put)]
fn put_fields(nodes: &mut Nodes, fields: &Vec<(String, Option<AvnValue>)>) -> Result<(), AllocError>
    requires nameless { nodes.old.name ≡ [] }
    requires clear { nodes.old.word ≡ [] }
    ensures { OnOk result (nodes.new
        ≡ extended nodes.old (fields_preorder (fields_trees fields.now.items))) }
{
    for (name, slot) in fields.iter() {
        nodes.push_text(name.as_str())?;
        nodes.name_next();
        match slot {
            Some(value) => put_value(nodes, value)?,
            None => nodes.leaf(NodeKind::Absent)?,
        }
    }
    Ok(())
}
