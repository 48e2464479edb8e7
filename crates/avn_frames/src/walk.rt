//! Walks over the slots that nodes list from a place on.
ghost use Rattle.asn_slots.specs.Slots.{present_of};
ghost use Rattle.avn_frames.specs.Listing.{AreSlots, has_absent, is_kept, slot_places, slots_from};
ghost use Rattle.avn_frames.specs.Places.{IsLastPlace, StandAt, in_text_order};
ghost use Rattle.std.specs.Prelude.{◌≡◌, Some, IfOk, map};

use asn_core::OutOfMemory;
use asn_sorting::ByText;
use avn_nodes::{NodeKind, Nodes};
use std::alloc::{AllocError, Global};

/// Tells whether one of the slots from a place on is absent.
pub fn has_absent(nodes: &Nodes, from: usize) -> bool
    requires { AreSlots nodes.now.nodes from }
    ensures { result ≡ has_absent (slots_from nodes.now.nodes from) }
{
    let mut slot = from;
    'slots: while slot < nodes.len() {
        if let NodeKind::Absent = nodes.kind(slot) {
            return true;
        }
        slot = nodes.end(slot);
    }
    false
}

/// Tells whether a slot is kept whose node is of the kind: all are, or those that are present.
fn is_kept(all: bool, kind: NodeKind) -> bool
    ensures { result ≡ is_kept all kind }
{
    match kind {
        NodeKind::Absent => all,
        _ => true,
    }
}

/// Returns where the slots from a place on stand, those that are absent left out unless all are
/// asked for.
///
/// # Errors
///
/// `AllocError` where memory is refused.
pub fn places_of(
    alloc: Global,
    nodes: &Nodes,
    from: usize,
    all: bool,
) -> Result<Vec<usize>, AllocError>
    requires { AreSlots nodes.now.nodes from }
    ensures { IfOk result (λ places. places.items
        ≡ slot_places all from (slots_from nodes.now.nodes from)) }
{
    let mut places = Vec::new(alloc);
    let mut slot = from;
    'slots: while slot < nodes.len() {
        if is_kept(all, nodes.kind(slot)) {
            places.push(slot)?;
        }
        slot = nodes.end(slot);
    }
    Ok(places)
}

/// Returns where the slots from a place on that are present stand, in byte order of their printed
/// texts.
///
/// # Errors
///
/// `OutOfMemory` alone.
pub fn sorted_places(alloc: Global, nodes: &Nodes, from: usize) -> Result<Vec<usize>, OutOfMemory>
    requires { AreSlots nodes.now.nodes from }
    ensures { IfOk result (λ places. StandAt nodes.now.nodes places.items
        (map Some (in_text_order (present_of (slots_from nodes.now.nodes from))))) }
{
    let mut entries = ByText::new(alloc);
    let mut slot = from;
    'slots: while slot < nodes.len() {
        if is_kept(false, nodes.kind(slot)) {
            let text = nodes.print(alloc, slot)?;
            entries.add(text, slot)?;
        }
        slot = nodes.end(slot);
    }
    entries.into_sorted()
}

/// Returns where the last slot from a place on that is present stands, or `None` where none is.
pub fn last_place(nodes: &Nodes, from: usize) -> Option<usize>
    requires { AreSlots nodes.now.nodes from }
    ensures { IsLastPlace nodes.now.nodes from result }
{
    let mut last = None;
    let mut slot = from;
    'slots: while slot < nodes.len() {
        if is_kept(false, nodes.kind(slot)) {
            last = Some(slot);
        }
        slot = nodes.end(slot);
    }
    last
}
