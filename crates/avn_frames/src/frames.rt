//! The open frames of an encoder. A frame is the list of slots that were written since it was
//! opened; closing it makes one slot of them in the frame before it.
ghost use Rattle.asn_names.specs.Rows.{name_at};
ghost use Rattle.asn_slots.specs.Frames.{push, close, last_start};
ghost use Rattle.asn_slots.specs.Slots.{last_present};
ghost use Rattle.avn_frames.specs.Closing.{as_choice, as_list, as_members, as_set};
ghost use Rattle.avn_frames.specs.Listing.{IsListOf, IsSlotOf, above_root, last_frame, slots_begin};
ghost use Rattle.avn_grammar.specs.Print.{print};
ghost use Rattle.avn_grammar.specs.Tree.{Tree, boolean, null, integer, enumerated, char_string};
ghost use Rattle.avn_grammar.specs.Tree.{octet_string, bit_string, oid};
ghost use Rattle.avn_nodes.specs.NodeKinds.{has_octets, has_arcs};
ghost use Rattle.avn_nodes.specs.NodeLists.{no_nodes, with_leaf};
ghost use Rattle.std.specs.Prelude.{◌≡◌, ◌<◌, ◌^◌, ◌+◌, ◌++◌, ◌∷◌, [], false, Some, None, Option};
ghost use Rattle.std.specs.Prelude.{List, ℕ};
ghost use Rattle.std.specs.Prelude.{IfOk, OnOk, MatchOption, reverse, option_map, string_bytes};

use crate::arranging::{
    keep_alone, keep_first, keep_present, name_last, put_absent_first, sort_present,
};
use crate::field_names::name_slots;
use crate::walk::last_place;
use asn_core::OutOfMemory;
use asn_names::NameList;
use avn_nodes::{NodeKind, Nodes};
use std::alloc::{AllocError, Global};
use std::marker::Model;

/// Holds the open frames of slots that an encoder has written, as the nodes of one flat list.
/// Contracts see a list, the last frame first. One frame at least is open, the root's. Where a call
/// refuses, the frames are gone, and an empty root is left.
#[derive(Drop)]
pub struct NodeFrames {
    /// Gives the memory of new frames.
    alloc: Global,
    /// The nodes of all slots, and one for each frame above the root's, which stands before those
    /// of its slots and becomes the slot that the frame is once it is closed.
    nodes: Nodes,
    /// Where the nodes stand that open the frames above the root's.
    places: Vec<usize>,
}

impl Model for NodeFrames {
    ghost use Rattle.std.specs.Prelude.{List, Option, reverse};
    ghost use Rattle.avn_grammar.specs.Tree.{Tree};
    ghost use Rattle.avn_frames.specs.Listing.{AreFrames, frames_listed};
    ghost use Rattle.std.specs.Coded.{coded_list, coded_option};
    ghost use Rattle.avn_nodes.specs.TreeCode.{tree_code};

    ghost Value = { List (List (Option Tree)) };

    ghost coded = { coded_list (coded_list (coded_option tree_code)) };

    ghost view = { λ f. frames_listed f.nodes.nodes (reverse f.places.items) };

    ghost invariant = { λ f. AreFrames f.nodes (reverse f.places.items)
        (frames_listed f.nodes.nodes (reverse f.places.items)) };
}

/// Removes all nodes and places, and returns the refusal.
fn start_over(nodes: &mut Nodes, places: &mut Vec<usize>) -> OutOfMemory
    ensures nodes { nodes.new ≡ no_nodes }
    ensures places { places.new.items ≡ [] }
{
    nodes.clear();
    places.clear();
    OutOfMemory
}

/// Adds a node of the kind, whose text, if it has one, is the text.
///
/// # Errors
///
/// `AllocError` where memory is refused, or the nodes are more than a table holds.
#[inline(always)]
fn put_leaf(nodes: &mut Nodes, kind: NodeKind, text: &str) -> Result<(), AllocError>
    requires octets { has_octets kind ≡ false }
    requires arcs { has_arcs kind ≡ false }
    ensures { OnOk result (nodes.new
        ≡ with_leaf kind (record nodes.old { word = nodes.old.word ++ text.now })) }
{
    nodes.push_text(text)?;
    nodes.leaf(kind)
}

/// Adds a character string that is handed over.
///
/// # Errors
///
/// `AllocError` where memory is refused, or the nodes are more than a table holds.
fn put_string(nodes: &mut Nodes, text: String) -> Result<(), AllocError>
    ensures { OnOk result (nodes.new ≡ with_leaf NodeKind.CharString (record nodes.old {
      word = nodes.old.word ++ string_bytes text;
    })) }
{
    nodes.push_string(text)?;
    nodes.leaf(NodeKind::CharString)
}

/// Takes out the last place.
fn take_place(places: &mut Vec<usize>) -> usize
    requires { (p : ℕ) × (ps : List ℕ) × (reverse places.old.items ≡ p ∷ ps) }
    ensures { reverse places.old.items ≡ result ∷ reverse places.new.items }
{
    match places.pop() {
        Some(place) => place,
        None => unreachable!(),
    }
}

/// Returns where the slots begin of the frame that opens at the last place, or of the root's.
fn first_slot(places: &[usize]) -> usize
    requires { last_start (reverse places.now) + 1 < 2 ^ 64 }
    ensures { result ≡ slots_begin (reverse places.now) }
{
    match places.last() {
        Some(&place) => place + 1,
        None => 0,
    }
}

/// Opens and closes frames, and adds slots to the last one.
impl NodeFrames {
    /// Returns one open frame, the root's, which is empty. It takes no memory.
    pub fn new(alloc: Global) -> NodeFrames
        ensures { result ≡ [] ∷ [] }
    {
        NodeFrames {
            alloc,
            nodes: Nodes::new(alloc),
            places: Vec::new(alloc),
        }
    }

    /// Opens an empty frame after the others.
    ///
    /// # Errors
    ///
    /// `OutOfMemory` alone.
    pub fn open(&mut self) -> Result<(), OutOfMemory>
        ensures { OnOk result (self.new ≡ [] ∷ self.old) }
    {
        self.places.push(self.nodes.len())?;
        match self.nodes.leaf(NodeKind::Absent) {
            Ok(()) => Ok(()),
            Err(_) => Err(start_over(&mut self.nodes, &mut self.places)),
        }
    }

    /// Adds a slot whose node is of the kind and has the text, if it is of a kind with one.
    ///
    /// # Errors
    ///
    /// `OutOfMemory` alone.
    #[inline(always)]
    fn put(&mut self, kind: NodeKind, text: &str) -> Result<(), OutOfMemory>
        requires octets { has_octets kind ≡ false }
        requires arcs { has_arcs kind ≡ false }
        requires slot { (slot : List ℕ → Option Tree) × IsSlotOf kind slot }
        ensures { (slot : List ℕ → Option Tree) → IsSlotOf kind slot
            → OnOk result (self.new ≡ push (slot text.now) self.old) }
    {
        match put_leaf(&mut self.nodes, kind, text) {
            Ok(()) => Ok(()),
            Err(_) => Err(start_over(&mut self.nodes, &mut self.places)),
        }
    }

    /// Adds an absent slot.
    ///
    /// # Errors
    ///
    /// `OutOfMemory` alone, as for every slot.
    pub fn add_absent(&mut self) -> Result<(), OutOfMemory>
        ensures { OnOk result (self.new ≡ push None self.old) }
    {
        self.put(NodeKind::Absent, "")
    }

    /// Adds a NULL.
    pub fn add_null(&mut self) -> Result<(), OutOfMemory>
        ensures { OnOk result (self.new ≡ push (Some null) self.old) }
    {
        self.put(NodeKind::Null, "")
    }

    /// Adds a BOOLEAN.
    pub fn add_boolean(&mut self, flag: bool) -> Result<(), OutOfMemory>
        ensures { OnOk result (self.new ≡ push (Some (boolean flag)) self.old) }
    {
        self.put(NodeKind::Boolean(flag), "")
    }

    /// Adds an integer of the digits.
    #[inline(always)]
    pub fn add_integer(&mut self, digits: &str) -> Result<(), OutOfMemory>
        ensures { OnOk result (self.new ≡ push (Some (integer digits.now)) self.old) }
    {
        self.put(NodeKind::Integer, digits)
    }

    /// Adds an item of an ENUMERATED.
    pub fn add_item(&mut self, identifier: &str) -> Result<(), OutOfMemory>
        ensures { OnOk result (self.new ≡ push (Some (enumerated identifier.now)) self.old) }
    {
        self.put(NodeKind::Enumerated, identifier)
    }

    /// Adds a character string.
    pub fn add_text(&mut self, text: &str) -> Result<(), OutOfMemory>
        ensures { OnOk result (self.new ≡ push (Some (char_string text.now)) self.old) }
    {
        self.put(NodeKind::CharString, text)
    }

    /// Adds a character string that is handed over. It is moved where it is the first text.
    pub fn add_string(&mut self, text: String) -> Result<(), OutOfMemory>
        ensures { OnOk result (self.new
            ≡ push (Some (char_string (string_bytes text))) self.old) }
    {
        match put_string(&mut self.nodes, text) {
            Ok(()) => Ok(()),
            Err(_) => Err(start_over(&mut self.nodes, &mut self.places)),
        }
    }

    /// Adds an OCTET STRING.
    pub fn add_octets(&mut self, octets: &[u8]) -> Result<(), OutOfMemory>
        ensures { OnOk result (self.new ≡ push (Some (octet_string octets.now)) self.old) }
    {
        match self.nodes.octets_leaf(NodeKind::OctetString, octets, 0) {
            Ok(()) => Ok(()),
            Err(_) => Err(start_over(&mut self.nodes, &mut self.places)),
        }
    }

    /// Adds a BIT STRING of so many bits.
    pub fn add_bits(&mut self, octets: &[u8], bit_length: usize) -> Result<(), OutOfMemory>
        ensures { OnOk result (self.new ≡ push (Some (bit_string octets.now bit_length)) self.old) }
    {
        match self
            .nodes
            .octets_leaf(NodeKind::BitString, octets, bit_length)
        {
            Ok(()) => Ok(()),
            Err(_) => Err(start_over(&mut self.nodes, &mut self.places)),
        }
    }

    /// Adds an OBJECT IDENTIFIER.
    pub fn add_arcs(&mut self, arcs: &[u32]) -> Result<(), OutOfMemory>
        ensures { OnOk result (self.new ≡ push (Some (oid arcs.now)) self.old) }
    {
        match self.nodes.arcs_leaf(arcs) {
            Ok(()) => Ok(()),
            Err(_) => Err(start_over(&mut self.nodes, &mut self.places)),
        }
    }

    /// Puts the slots of the root's frame into one above an empty root, where no other is open.
    ///
    /// # Errors
    ///
    /// `OutOfMemory` alone.
    fn put_above_root(&mut self) -> Result<(), OutOfMemory>
        ensures { OnOk result (self.new ≡ above_root self.old) }
    {
        if !self.places.is_empty() {
            return Ok(());
        }
        self.places.push(0)?;
        match put_absent_first(self.alloc, &mut self.nodes) {
            Ok(()) => Ok(()),
            Err(_) => Err(start_over(&mut self.nodes, &mut self.places)),
        }
    }

    /// Closes the last frame as the list of its slots that are present.
    ///
    /// # Errors
    ///
    /// `OutOfMemory` alone, as for every frame that is closed.
    pub fn close_list(&mut self) -> Result<(), OutOfMemory>
        ensures { OnOk result (self.new ≡ close as_list self.old) }
    {
        self.put_above_root()?;
        // No place overflows, as the number of nodes is a `usize`.
        let _count = self.nodes.len();
        let place = take_place(&mut self.places);
        match keep_present(self.alloc, &mut self.nodes, place + 1) {
            Ok(()) => {
                self.nodes.close(place, NodeKind::SequenceOf);
                Ok(())
            }
            Err(_) => Err(start_over(&mut self.nodes, &mut self.places)),
        }
    }

    /// Closes the last frame as the list of its slots that are present, in byte order of their
    /// texts.
    pub fn close_set(&mut self) -> Result<(), OutOfMemory>
        ensures { OnOk result (self.new ≡ close as_set self.old) }
    {
        self.put_above_root()?;
        // No place overflows, as the number of nodes is a `usize`.
        let _count = self.nodes.len();
        let place = take_place(&mut self.places);
        match sort_present(self.alloc, &mut self.nodes, place + 1) {
            Ok(()) => {
                self.nodes.close(place, NodeKind::SequenceOf);
                Ok(())
            }
            Err(_) => Err(start_over(&mut self.nodes, &mut self.places)),
        }
    }

    /// Closes the last frame as the sequence of its slots, which get the names in their order.
    pub fn close_members<N: NameList>(&mut self, names: &N) -> Result<(), OutOfMemory>
        ensures { OnOk result (self.new
            ≡ close (as_members (name_at (N.rows names.now))) self.old) }
    {
        self.put_above_root()?;
        // No place overflows, as the number of nodes is a `usize`.
        let _count = self.nodes.len();
        let place = take_place(&mut self.places);
        match name_slots(&mut self.nodes, place + 1, names) {
            Ok(()) => {
                self.nodes.close(place, NodeKind::Sequence);
                Ok(())
            }
            Err(_) => Err(start_over(&mut self.nodes, &mut self.places)),
        }
    }

    /// Closes the last frame as the choice of its first slot, or as an absent slot where that is
    /// absent or there is none.
    pub fn close_choice(&mut self, identifier: &str) -> Result<(), OutOfMemory>
        ensures { OnOk result (self.new ≡ close (as_choice identifier.now) self.old) }
    {
        self.put_above_root()?;
        // No place overflows, as the number of nodes is a `usize`.
        let _count = self.nodes.len();
        let place = take_place(&mut self.places);
        if !keep_first(&mut self.nodes, place + 1) {
            return Ok(());
        }
        match name_last(&mut self.nodes, place + 1, identifier) {
            Ok(()) => {
                self.nodes.close(place, NodeKind::Choice);
                Ok(())
            }
            Err(_) => Err(start_over(&mut self.nodes, &mut self.places)),
        }
    }

    /// Returns the printed text of the last slot of the last frame that is present, or `None`
    /// where none is.
    ///
    /// # Errors
    ///
    /// `OutOfMemory` alone.
    pub fn print_last(&self) -> Result<Option<String>, OutOfMemory>
        ensures { IfOk result (λ text. option_map string_bytes text
            ≡ option_map (print 0) (last_present (last_frame self.now))) }
    {
        // No place overflows, as the number of nodes is a `usize`.
        let _count = self.nodes.len();
        match last_place(&self.nodes, first_slot(&self.places)) {
            Some(node) => Ok(Some(self.nodes.print_with_room(self.alloc, node)?)),
            None => Ok(None),
        }
    }

    /// Returns the nodes of the last slot of the last frame that is present, or `None` where none
    /// is.
    ///
    /// # Errors
    ///
    /// `OutOfMemory` alone.
    pub fn into_last(self) -> Result<Option<Nodes>, OutOfMemory>
        ensures { IfOk result (λ nodes. MatchOption nodes
            (last_present (last_frame self) ≡ None)
            (λ list. IsListOf list (last_present (last_frame self)))) }
    {
        // No place overflows, as the number of nodes is a `usize`.
        let _count = self.nodes.len();
        let from = first_slot(&self.places);
        let alloc = self.alloc;
        let mut nodes = self.nodes;
        match last_place(&nodes, from) {
            Some(node) => {
                keep_alone(alloc, &mut nodes, node)?;
                Ok(Some(nodes))
            }
            None => Ok(None),
        }
    }
}
