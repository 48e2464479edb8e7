//! Reads object identifiers from nodes.
ghost use Rattle.asn_fault.specs.Failure.{failure_of};
ghost use Rattle.asn_model.specs.declared.leaves.LeafKind.TheVariants.{Oid};
ghost use Rattle.asn_traits.specs.Arcs.{braced_arc, braced_arcs, checked_identifier};
ghost use Rattle.asn_traits.specs.Leaf.{as_leaf, or_blame};
ghost use Rattle.asn_traits.specs.Notation.{Notation};
ghost use Rattle.asn_traits.specs.Tree.{Tree};
ghost use Rattle.avn_rules.specs.LeafAnswer.{IsWrong, LeafAnswer};
ghost use Rattle.avn_rules.specs.Parts.{elements_of};
ghost use Rattle.avn_rules.specs.Pending.{IsPresent, avn_or_null, value_at};
ghost use Rattle.avn_nodes.specs.NodeViews.{kind_of};
ghost use Rattle.avn_nodes.specs.Preorder.{tree_at};
ghost use Rattle.std.specs.Prelude.{◌≡◌, Ok, MatchResult};

use super::faults::{no_arc, no_oid, other_arcs};
use super::leaf_nodes::other_kind;
use asn_core::{Codec, ObjectIdentifier};
use asn_fault::DecodeError;
use asn_model::arc_of;
use asn_traits::{LeafKind, OwnedLeaf};
use avn_value::{NodeKind, NodeTable};
use std::alloc::Global;

/// Returns the object identifier that stands at a node: that of its arcs, or of a list of integers
/// that are arcs.
///
/// # Errors
///
/// `AvnTypeMismatch` where neither stands there, or an element is no integer; `InvalidOid` where
/// an integer is no arc, or the arcs are those of no object identifier; `OutOfMemory`.
pub fn identifier_of_node(
    alloc: Global,
    table: &NodeTable,
    node: usize,
) -> Result<OwnedLeaf, DecodeError>
    requires { IsPresent table.now node }
    ensures { LeafAnswer Oid (value_at table.now node) result }
{
    match table.kind(node) {
        NodeKind::Oid => identifier_of(alloc, table.arcs(node)),
        NodeKind::SequenceOf => match arcs_of(alloc, table, node) {
            Ok(arcs) => identifier_of(alloc, arcs.as_slice()),
            Err(error) => Err(error),
        },
        _ => Err(other_kind(alloc, table, node, LeafKind::Oid)),
    }
}

/// Returns the object identifier of the arcs.
///
/// # Errors
///
/// `InvalidOid` where there is none; `OutOfMemory`.
fn identifier_of(alloc: Global, arcs: &[u32]) -> Result<OwnedLeaf, DecodeError>
    // Whatever tree has these arcs.
    ensures { (t : Tree)
        → as_leaf Notation.avn Oid t ≡ or_blame (checked_identifier (Ok arcs.now))
        → LeafAnswer Oid t result }
{
    match ObjectIdentifier::new(alloc, arcs) {
        Ok(Some(identifier)) => Ok(OwnedLeaf::Oid(identifier)),
        Ok(None) => Err(other_arcs(alloc, arcs)),
        Err(_) => Err(DecodeError::out_of_memory(Codec::Avn)),
    }
}

/// Returns the arcs that the elements of a SEQUENCE OF are.
///
/// # Errors
///
/// What is wrong with the first element that is no arc; `OutOfMemory`.
fn arcs_of(alloc: Global, table: &NodeTable, node: usize) -> Result<Vec<u32>, DecodeError>
    requires present { IsPresent table.now node }
    requires list { kind_of (tree_at table.now node) ≡ NodeKind.SequenceOf }
    ensures { MatchResult result
        (λ arcs. braced_arcs (elements_of (tree_at table.now node)) ≡ Ok arcs.items)
        (λ e. IsWrong (braced_arcs (elements_of (tree_at table.now node))) (failure_of e)) }
{
    let end = table.end(node);
    let mut arcs = Vec::new(alloc);
    let mut item = node + 1;
    'items: while item < end {
        let arc = arc_at(alloc, table, item)?;
        let Ok(()) = arcs.push(arc) else {
            return Err(DecodeError::out_of_memory(Codec::Avn));
        };
        item = table.end(item);
    }
    Ok(arcs)
}

/// Returns the arc that stands at a node.
///
/// # Errors
///
/// `AvnTypeMismatch` where no integer stands there; `InvalidOid` where it is no arc;
/// `OutOfMemory`.
fn arc_at(alloc: Global, table: &NodeTable, node: usize) -> Result<u32, DecodeError>
    requires { IsPresent table.now node }
    ensures { MatchResult result
        (λ arc. braced_arc (avn_or_null (tree_at table.now node)) ≡ Ok arc)
        (λ e. IsWrong (braced_arc (avn_or_null (tree_at table.now node))) (failure_of e)) }
{
    let NodeKind::Integer = table.kind(node) else {
        return Err(no_arc(alloc, table, node));
    };
    let text = table.text(node);
    match arc_of(text) {
        Some(arc) => Ok(arc),
        None => Err(no_oid(alloc, text)),
    }
}
