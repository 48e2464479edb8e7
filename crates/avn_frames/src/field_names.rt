//! Names for slots that become the fields of a SEQUENCE.
ghost use Rattle.asn_names.specs.Rows.{name_at};
ghost use Rattle.avn_frames.specs.Closing.{named_from};
ghost use Rattle.avn_frames.specs.Listing.{AreSlots, slots_from};
ghost use Rattle.avn_nodes.specs.NodeViews.{node_views};
ghost use Rattle.avn_nodes.specs.Preorder.{fields_preorder};
ghost use Rattle.std.specs.Prelude.{◌≡◌, ◌≤◌, ◌++◌, [], length, take, OnOk};

use asn_names::NameList;
use avn_nodes::Nodes;
use std::alloc::AllocError;

/// Gives the slots from a place on the names of the fields, in their order.
///
/// # Errors
///
/// `AllocError` where memory is refused, or the nodes have more text than 32 bits count.
pub fn name_slots<N: NameList>(nodes: &mut Nodes, from: usize, names: &N) -> Result<(), AllocError>
    requires within { from ≤ length nodes.old.nodes }
    requires slots { AreSlots nodes.old.nodes from }
    requires nameless { nodes.old.name ≡ [] }
    requires clear { nodes.old.word ≡ [] }
    ensures { OnOk result (nodes.new ≡ record nodes.old {
      nodes = take from nodes.old.nodes ++ node_views from
          (fields_preorder (named_from (name_at (N.rows names.now)) 0
          (slots_from nodes.old.nodes from)));
    }) }
{
    let mut slot = from;
    let mut place: usize = 0;
    'slots: while slot < nodes.len() {
        // A slot past the names gets an empty one.
        nodes.push_text(names.encoded_name(place).as_str())?;
        nodes.name_node(slot)?;
        slot = nodes.end(slot);
        place += 1;
    }
    Ok(())
}
