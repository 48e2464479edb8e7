//! Reads values without parts from nodes.
ghost use Rattle.asn_core.specs.declared.codec.Codec.TheVariants.{Avn};
ghost use Rattle.asn_fault.specs.Failure.{Cause, at_root, failure_of};
ghost use Rattle.asn_model.specs.declared.leaves.LeafKind.TheVariants.{Any, Boolean, Item, Number};
ghost use Rattle.asn_model.specs.declared.leaves.LeafKind.TheVariants.{Octets, Text};
ghost use Rattle.asn_model.specs.declared.leaves.OwnedLeaf.{OwnedLeaf};
ghost use Rattle.asn_coding.specs.Opening.{IsTaken};
ghost use Rattle.asn_traits.specs.Leaf.{LeafFailure, answer_kind, as_leaf, needed};
ghost use Rattle.asn_traits.specs.Notation.{Notation};
ghost use Rattle.avn_rules.specs.LeafAnswer.{LeafAnswer, RefusesKind};
ghost use Rattle.avn_rules.specs.Pending.{IsPresent, value_at};
ghost use Rattle.avn_nodes.specs.NodeViews.{octets_of};
ghost use Rattle.avn_nodes.specs.Preorder.{node_count, tree_at};
ghost use Rattle.std.specs.Prelude.{◌≡◌, ◌<◌, Err, IfErr, IfOk, IfSome, Some, string_bytes};

use super::bits::bits_of_node;
use super::faults::{mismatch, no_number, no_utf8};
use super::identifiers::identifier_of_node;
use super::numbers::whole_number;
use asn_core::{Codec, WholeNumber};
use asn_fault::DecodeError;
use asn_traits::{LeafKind, OwnedLeaf};
use avn_value::{NodeKind, NodeTable};
use std::alloc::Global;

/// Returns the value of this kind that stands at a node.
///
/// # Errors
///
/// Why none stands there; `OutOfMemory`.
#[inline(always)]
pub fn leaf_of_node(
    alloc: Global,
    table: &NodeTable,
    node: usize,
    kind: LeafKind,
) -> Result<OwnedLeaf, DecodeError>
    requires { IsPresent table.now node }
    ensures { LeafAnswer kind (value_at table.now node) result }
{
    match kind {
        LeafKind::Null => match table.kind(node) {
            NodeKind::Null => Ok(OwnedLeaf::Null),
            _ => Err(other_kind(alloc, table, node, kind)),
        },
        LeafKind::Boolean => match table.kind(node) {
            NodeKind::Boolean(flag) => Ok(OwnedLeaf::Boolean(flag)),
            _ => Err(other_kind(alloc, table, node, kind)),
        },
        LeafKind::Number => number_of_node(alloc, table, node),
        LeafKind::Text | LeafKind::Time | LeafKind::Date => text_of_node(alloc, table, node, kind),
        LeafKind::Item => item_of_node(alloc, table, node),
        LeafKind::Octets => octets_of_node(alloc, table, node),
        LeafKind::Any => any_of_node(alloc, table, node),
        LeafKind::Oid => identifier_of_node(alloc, table, node),
        LeafKind::Bits(size) => bits_of_node(alloc, table, node, size),
    }
}

/// Returns the error that a value of another kind stands at a node. Memory may run out.
pub fn other_kind(alloc: Global, table: &NodeTable, node: usize, kind: LeafKind) -> DecodeError
    requires present { IsPresent table.now node }
    requires other { as_leaf Notation.avn kind (value_at table.now node)
        ≡ Err (LeafFailure.mismatch (needed Notation.avn kind)) }
    ensures { RefusesKind kind (value_at table.now node) (failure_of result) }
{
    mismatch(alloc, table, node, kind.needed(Codec::Avn))
}

/// Returns the whole number that stands at a node.
///
/// # Errors
///
/// `AvnTypeMismatch` where no integer stands there; `IntegerParseError` where its text is no
/// number; `OutOfMemory`.
fn number_of_node(alloc: Global, table: &NodeTable, node: usize) -> Result<OwnedLeaf, DecodeError>
    requires { IsPresent table.now node }
    ensures { LeafAnswer Number (value_at table.now node) result }
{
    let NodeKind::Integer = table.kind(node) else {
        return Err(other_kind(alloc, table, node, LeafKind::Number));
    };
    let text = table.text(node);
    match whole_number(text) {
        Some(number) => Ok(OwnedLeaf::Number(number)),
        None => Err(no_number(alloc, text)),
    }
}

/// Returns the whole number that stands at a node, if one of at most 128 bits does.
#[inline(always)]
pub fn number_at(table: &NodeTable, node: usize) -> Option<WholeNumber>
    requires { IsPresent table.now node }
    ensures { IfSome result (λ number. IsTaken Notation.avn Number (value_at table.now node)
        (OwnedLeaf.Number (Some number))) }
{
    match table.kind(node) {
        NodeKind::Integer => match whole_number(table.text(node)) {
            Some(number) => number,
            None => None,
        },
        _ => None,
    }
}

/// Returns the flag that stands at a node, if one does.
#[inline(always)]
pub fn flag_at(table: &NodeTable, node: usize) -> Option<bool>
    requires { IsPresent table.now node }
    ensures { IfSome result (λ flag. IsTaken Notation.avn Boolean (value_at table.now node)
        (OwnedLeaf.Boolean flag)) }
{
    match table.kind(node) {
        NodeKind::Boolean(flag) => Some(flag),
        _ => None,
    }
}

/// Returns the text that stands at a node: a character string, or octets of UTF-8.
///
/// # Errors
///
/// `AvnTypeMismatch` where neither stands there; `Custom` where the octets are no UTF-8;
/// `OutOfMemory`.
fn text_of_node(
    alloc: Global,
    table: &NodeTable,
    node: usize,
    kind: LeafKind,
) -> Result<OwnedLeaf, DecodeError>
    requires present { IsPresent table.now node }
    requires text { answer_kind kind ≡ Text }
    ensures { LeafAnswer kind (value_at table.now node) result }
{
    match table.kind(node) {
        NodeKind::CharString => Ok(OwnedLeaf::Text(owned_text(alloc, table.text(node))?)),
        NodeKind::OctetString => match str::from_utf8(table.octets(node)) {
            Ok(text) => Ok(OwnedLeaf::Text(owned_text(alloc, text)?)),
            Err(_) => Err(no_utf8(alloc)),
        },
        _ => Err(other_kind(alloc, table, node, kind)),
    }
}

/// Returns a copy of a text.
///
/// # Errors
///
/// `OutOfMemory` alone.
#[inline(always)]
fn owned_text(alloc: Global, text: &str) -> Result<String, DecodeError>
    ensures same { IfOk result (λ s. string_bytes s ≡ text.now) }
    ensures refused { IfErr result (λ e. failure_of e ≡ at_root Cause.out_of_memory Avn) }
{
    match String::from_str(alloc, text) {
        Ok(text) => Ok(text),
        Err(_) => Err(DecodeError::out_of_memory(Codec::Avn)),
    }
}

/// Returns the item that stands at a node.
///
/// # Errors
///
/// `AvnTypeMismatch` where no item stands there; `OutOfMemory`.
fn item_of_node(alloc: Global, table: &NodeTable, node: usize) -> Result<OwnedLeaf, DecodeError>
    requires { IsPresent table.now node }
    ensures { LeafAnswer Item (value_at table.now node) result }
{
    let NodeKind::Enumerated = table.kind(node) else {
        return Err(other_kind(alloc, table, node, LeafKind::Item));
    };
    Ok(OwnedLeaf::Item(owned_text(alloc, table.text(node))?))
}

/// Returns the octets that stand at a node.
///
/// # Errors
///
/// `AvnTypeMismatch` where no octet string stands there; `OutOfMemory`.
fn octets_of_node(alloc: Global, table: &NodeTable, node: usize) -> Result<OwnedLeaf, DecodeError>
    requires { IsPresent table.now node }
    ensures { LeafAnswer Octets (value_at table.now node) result }
{
    let NodeKind::OctetString = table.kind(node) else {
        return Err(other_kind(alloc, table, node, LeafKind::Octets));
    };
    Ok(OwnedLeaf::Octets(octets_at(alloc, table, node)?))
}

/// Returns a copy of the octets of the octet string or the bit string at a node.
///
/// # Errors
///
/// `OutOfMemory` alone.
#[inline(always)]
pub fn octets_at(alloc: Global, table: &NodeTable, node: usize) -> Result<Vec<u8>, DecodeError>
    requires { node < node_count table.now }
    ensures same { IfOk result (λ octets. octets.items ≡ octets_of (tree_at table.now node)) }
    ensures refused { IfErr result (λ e. failure_of e ≡ at_root Cause.out_of_memory Avn) }
{
    match Vec::from_slice(alloc, table.octets(node)) {
        Ok(octets) => Ok(octets),
        Err(_) => Err(DecodeError::out_of_memory(Codec::Avn)),
    }
}

/// Returns the octets of a value of any type: those of an octet string, and of any other value
/// those of its printed text.
///
/// # Errors
///
/// `OutOfMemory` alone.
fn any_of_node(alloc: Global, table: &NodeTable, node: usize) -> Result<OwnedLeaf, DecodeError>
    requires { IsPresent table.now node }
    ensures { LeafAnswer Any (value_at table.now node) result }
{
    match table.kind(node) {
        NodeKind::OctetString => Ok(OwnedLeaf::Any(octets_at(alloc, table, node)?)),
        _ => match table.print(alloc, node) {
            Ok(text) => Ok(OwnedLeaf::Any(text.into_bytes())),
            Err(_) => Err(DecodeError::out_of_memory(Codec::Avn)),
        },
    }
}
