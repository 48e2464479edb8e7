//! Takes the parts out of a value, as nodes of its table.
ghost use Rattle.asn_slots.specs.Trees.{trees_of};
ghost use Rattle.asn_traits.specs.Notation.{Notation};
ghost use Rattle.asn_traits.specs.Shape.{are_distinct};
ghost use Rattle.asn_names.specs.Rows.{row_names};
ghost use Rattle.asn_traits.specs.Tree.{as_list, as_members};
ghost use Rattle.avn_rules.specs.Parts.{AreFound, IsEarlier, place_of_slot};
ghost use Rattle.avn_rules.specs.Pending.{IsPresent, value_at};
ghost use Rattle.avn_nodes.specs.Preorder.{node_at, tree_at, node_count, slot_descendants};
ghost use Rattle.std.specs.List.{All};
ghost use Rattle.std.specs.Prelude.{true, ◌≡◌, ◌<◌, Some, None, IfOk, IfSome};
ghost use Rattle.std.specs.Prelude.{is_some, length, map, nat_eq, replicate};

use asn_core::OutOfMemory;
use asn_traits::{NameList, place_of_field};
use avn_value::{NodeKind, NodeTable};
use std::alloc::Global;

/// Tells whether a node is a list. A SEQUENCE without fields is an empty list, since the text `{}`
/// stands for both.
pub fn is_list(table: &NodeTable, node: usize) -> bool
    requires { IsPresent table.now node }
    ensures { result ≡ is_some (as_list Notation.avn (value_at table.now node)) }
{
    match table.kind(node) {
        NodeKind::SequenceOf => true,
        NodeKind::Sequence => has_no_parts(table, node),
        _ => false,
    }
}

/// Tells whether a node is a SEQUENCE. A SEQUENCE OF without elements is one without fields, since
/// the text `{}` stands for both.
pub fn has_members(table: &NodeTable, node: usize) -> bool
    requires { IsPresent table.now node }
    ensures { result ≡ is_some (as_members Notation.avn (value_at table.now node)) }
{
    match table.kind(node) {
        NodeKind::Sequence => true,
        NodeKind::SequenceOf => has_no_parts(table, node),
        _ => false,
    }
}

/// Tells whether no node lies within a node.
fn has_no_parts(table: &NodeTable, node: usize) -> bool
    requires { node < node_count table.now }
    ensures { result ≡ nat_eq (length (slot_descendants (tree_at table.now node))) 0 }
{
    table.end(node) - node == 1
}

/// Returns the nodes of the elements of a list, in their order.
///
/// # Errors
///
/// `OutOfMemory` alone.
pub fn items_of(alloc: Global, table: &NodeTable, node: usize) -> Result<Vec<usize>, OutOfMemory>
    requires present { IsPresent table.now node }
    requires list { is_some (as_list Notation.avn (value_at table.now node)) ≡ true }
    ensures items { IfOk result (λ items. as_list Notation.avn (value_at table.now node)
        ≡ Some (trees_of (value_at table.now) (map Some items.items))) }
    ensures present { IfOk result (λ items. All (IsPresent table.now) items.items) }
{
    let end = table.end(node);
    let mut items = Vec::new(alloc);
    let mut item = node + 1;
    'items: while item < end {
        items.push(item)?;
        item = table.end(item);
    }
    Ok(items)
}

/// Has what is found of fields in a SEQUENCE.
#[derive(Drop)]
pub enum FieldSlots {
    /// Are the slots of the fields: the node of the one present entry of its name.
    Found(Vec<Option<usize>>),
    /// Is the place of a field whose name stands at two present entries, the first such field as
    /// the type lists them.
    Repeated(usize),
}

/// Returns the slot of each field, or the place of one that stands twice. Absent entries and those
/// of other names are passed over.
///
/// # Errors
///
/// `OutOfMemory` alone.
pub fn slots_of<N: NameList>(
    alloc: Global,
    table: &NodeTable,
    node: usize,
    names: &N,
) -> Result<FieldSlots, OutOfMemory>
    requires present { IsPresent table.now node }
    requires members { is_some (as_members Notation.avn (value_at table.now node)) ≡ true }
    requires distinct { are_distinct (row_names (N.rows names.now)) ≡ true }
    ensures { IfOk result (AreFound table.now node (N.rows names.now)) }
{
    let mut slots = absent_slots(alloc, names.count())?;
    let mut repeated = None;
    let end = table.end(node);
    let mut entry = node + 1;
    // Each entry is looked at once, so the time is linear in their number.
    'entries: while entry < end {
        if let Some(place) = place_of_entry(table, entry, names) {
            // The place is one of a field, and there is a slot for each.
            if slots[place].is_some() {
                repeated = Some(earlier(names, repeated, place));
            }
            slots[place] = Some(entry);
        }
        entry = table.end(entry);
    }
    match repeated {
        Some(place) => Ok(FieldSlots::Repeated(place)),
        None => Ok(FieldSlots::Found(slots)),
    }
}

/// Returns the place whose field the type lists earlier: this one, or the earliest of those before,
/// if there are any.
fn earlier<N: NameList>(names: &N, before: Option<usize>, place: usize) -> usize
    requires below { place < length (N.rows names.now) }
    requires below_before { IfSome before (λ k. k < length (N.rows names.now)) }
    ensures { IsEarlier (N.rows names.now) before place result }
{
    match before {
        Some(first) => {
            if names.index(first) <= names.index(place) {
                first
            } else {
                place
            }
        }
        None => place,
    }
}

/// Returns a number of absent slots.
///
/// # Errors
///
/// `OutOfMemory` alone.
fn absent_slots(alloc: Global, count: usize) -> Result<Vec<Option<usize>>, OutOfMemory>
    ensures { IfOk result (λ slots. slots.items ≡ replicate count None) }
{
    let mut slots = Vec::with_capacity(alloc, count)?;
    for _place in 0..count {
        slots.push(None)?;
    }
    Ok(slots)
}

/// Returns the place of the field of an entry's name, or `None` where the entry is absent or no
/// field has the name.
fn place_of_entry<N: NameList>(table: &NodeTable, entry: usize, names: &N) -> Option<usize>
    requires { entry < node_count table.now }
    ensures is { result ≡ place_of_slot (row_names (N.rows names.now)) (node_at table.now entry) }
    ensures below { IfSome result (λ k. k < length (N.rows names.now)) }
{
    match table.kind(entry) {
        NodeKind::Absent => None,
        _ => place_of_field(names, table.name(entry)),
    }
}
