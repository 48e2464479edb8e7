//! Changes the slots that nodes list from a place on.
ghost use Rattle.asn_slots.specs.Slots.{first_of, present_of};
ghost use Rattle.avn_frames.specs.Arranged.{AreSlotsAfter, KeepsFirst};
ghost use Rattle.avn_frames.specs.Listing.{AreSlots, frame_nodes, slots_from};
ghost use Rattle.avn_frames.specs.Places.{in_text_order};
ghost use Rattle.avn_grammar.specs.Tree.{Tree};
ghost use Rattle.avn_nodes.specs.NodeLists.{extended, no_nodes};
ghost use Rattle.avn_nodes.specs.NodeViews.{NodeView, node_views};
ghost use Rattle.avn_nodes.specs.Subtrees.{Lists, tree_from};
ghost use Rattle.avn_nodes.specs.Preorder.{preorder};
ghost use Rattle.std.specs.Prelude.{◌≡◌, ◌≤◌, ◌<◌, ◌++◌, ◌∷◌, [], Some, None, List, length, map};
ghost use Rattle.std.specs.Prelude.{OnOk};

use crate::walk::{has_absent, places_of, sorted_places};
use asn_core::OutOfMemory;
use avn_nodes::{NodeKind, Nodes};
use std::alloc::{AllocError, Global};

/// Removes the absent slots from a place on.
///
/// # Errors
///
/// `AllocError` where memory is refused.
pub fn keep_present(alloc: Global, nodes: &mut Nodes, from: usize) -> Result<(), AllocError>
    requires within { from ≤ length nodes.old.nodes }
    requires slots { AreSlots nodes.old.nodes from }
    ensures { OnOk result (AreSlotsAfter nodes.old nodes.new from
        (map Some (present_of (slots_from nodes.old.nodes from)))) }
{
    if !has_absent(nodes, from) {
        return Ok(());
    }
    let places = places_of(alloc, nodes, from, false)?;
    nodes.arrange(alloc, from, &places)
}

/// Removes the absent slots from a place on, and puts the others in byte order of their texts.
///
/// # Errors
///
/// `OutOfMemory` alone.
pub fn sort_present(alloc: Global, nodes: &mut Nodes, from: usize) -> Result<(), OutOfMemory>
    requires within { from ≤ length nodes.old.nodes }
    requires slots { AreSlots nodes.old.nodes from }
    ensures { OnOk result (AreSlotsAfter nodes.old nodes.new from
        (map Some (in_text_order (present_of (slots_from nodes.old.nodes from))))) }
{
    let places = sorted_places(alloc, nodes, from)?;
    nodes.arrange(alloc, from, &places)?;
    Ok(())
}

/// Puts an absent slot before all slots.
///
/// # Errors
///
/// `AllocError` where memory is refused, or the nodes are more than a table holds.
pub fn put_absent_first(alloc: Global, nodes: &mut Nodes) -> Result<(), AllocError>
    requires slots { AreSlots nodes.old.nodes 0 }
    requires nameless { nodes.old.name ≡ [] }
    requires clear { nodes.old.word ≡ [] }
    ensures { OnOk result (nodes.new
        ≡ extended no_nodes (frame_nodes (None ∷ slots_from nodes.old.nodes 0))) }
{
    let mut order = Vec::new(alloc);
    order.push(nodes.len())?;
    let mut places = places_of(alloc, nodes, 0, true)?;
    order.append(&mut places)?;
    nodes.leaf(NodeKind::Absent)?;
    nodes.arrange(alloc, 0, &order)
}

/// Removes the slots from a place on but for the first, if that is present, and all of them else.
/// Tells whether one is left.
pub fn keep_first(nodes: &mut Nodes, from: usize) -> bool
    requires within { from ≤ length nodes.old.nodes }
    requires slots { AreSlots nodes.old.nodes from }
    ensures { KeepsFirst nodes.old nodes.new from
        (first_of (slots_from nodes.old.nodes from)) result }
{
    if from == nodes.len() {
        return false;
    }
    if let NodeKind::Absent = nodes.kind(from) {
        nodes.truncate(from);
        return false;
    }
    let end = nodes.end(from);
    nodes.truncate(end);
    true
}

/// Gives the node at a place a name.
///
/// # Errors
///
/// `AllocError` where memory is refused, or the nodes have more text than 32 bits count.
pub fn name_last(nodes: &mut Nodes, place: usize, name: &str) -> Result<(), AllocError>
    requires within { place < length nodes.old.nodes }
    requires nameless { nodes.old.name ≡ [] }
    requires clear { nodes.old.word ≡ [] }
    ensures { (before : List NodeView) (tree : Tree)
        → nodes.old.nodes ≡ before ++ node_views place (preorder [] tree) → length before ≡ place
        → OnOk result (nodes.new ≡ record nodes.old {
          nodes = before ++ node_views place (preorder name.now tree);
        }) }
{
    nodes.push_text(name)?;
    nodes.name_node(place)
}

/// Keeps the subtree at a node alone.
///
/// # Errors
///
/// `AllocError` where memory is refused.
pub fn keep_alone(alloc: Global, nodes: &mut Nodes, node: usize) -> Result<(), AllocError>
    requires nameless { nodes.old.name ≡ [] }
    requires clear { nodes.old.word ≡ [] }
    requires tree { Lists nodes.old.nodes node (preorder [] (tree_from nodes.old.nodes node)) }
    ensures { OnOk result (nodes.new
        ≡ extended no_nodes (preorder [] (tree_from nodes.old.nodes node))) }
{
    if node == 0 {
        let end = nodes.end(0);
        nodes.truncate(end);
        return Ok(());
    }
    nodes.arrange(alloc, 0, &[node])
}
