//! Decodes a value of the notation as a value of a type. The decoder holds the value as a table of
//! nodes, and the pending slots as indices into it; each call takes the first of them.
ghost use Rattle.asn_core.specs.declared.codec.Codec.TheVariants.{Avn};
ghost use Rattle.asn_fault.specs.Failure.{Cause, failure_of, at_root};
ghost use Rattle.asn_coding.specs.Answer.{Refuses};
ghost use Rattle.asn_traits.specs.Notation.{Notation};
ghost use Rattle.asn_traits.specs.Shape.{Shape};
ghost use Rattle.asn_traits.specs.FailsWith.{FailsWith};
ghost use Rattle.asn_traits.specs.Tree.{Tree, head_slot};
ghost use Rattle.avn_grammar.specs.Tree.{Tree as AvnTree};
ghost use Rattle.avn_rules.specs.Pending.{IsPresent, IsSlot, TakesNode, pending_of};
ghost use Rattle.std.specs.List.{All};
ghost use Rattle.std.specs.Prelude.{◌≡◌, ◌≤◌, ◌∷◌, ◌++◌, [], Some, IfOk, IfErr, MatchResult, map};

use super::faults::{end_of_input, mismatch, needed_list, needed_members, no_item};
use super::leaf_nodes::{flag_at, leaf_of_node, number_at};
use super::take_apart::{FieldSlots, has_members, is_list, items_of, slots_of};
use asn_core::{Codec, Scan, WholeNumber};
use asn_fault::DecodeError;
use asn_model::words;
use asn_slots::Pending;
use asn_traits::{LeafKind, NameList, Opened, OwnedLeaf, SeqKind, place_of};
use avn_value::{AvnValue, GREATEST_LEVEL_LIMIT, LEVEL_LIMIT, NodeKind, NodeTable};
use std::alloc::Global;
use std::marker::Model;

/// Decodes one value of the notation. Contracts see the tree of its table and the list of its
/// pending slots, each of which is absent or a node of the table that is no absent field.
#[derive(Drop)]
pub struct Decoder {
    /// Allocates texts and the room for slots.
    alloc: Global,
    /// Holds the value that is decoded.
    table: NodeTable,
    /// Holds the nodes of the values that are still to be decoded.
    pending: Pending<usize>,
}

impl Model for Decoder {
    ghost use Rattle.avn_rules.specs.Pending.{DecoderView, decoder_code, IsSlot};
    ghost use Rattle.std.specs.List.{All};

    ghost Value = { DecoderView };

    ghost coded = { decoder_code };

    ghost view = { λ d. record { root = d.table; nodes = d.pending } };

    ghost invariant = { λ d. All (IsSlot d.table) d.pending };
}

/// Makes decoders of a text, of a table or of an AVN value.
impl Decoder {
    ghost use Rattle.avn_rules.specs.Pending.{tree_of};
    ghost use Rattle.avn_rules.specs.Text.{IsAvn, NoTree};

    /// Makes a decoder of a text, within the limit on levels.
    ///
    /// # Errors
    ///
    /// `UnexpectedToken` where the text is no value of the notation; `ExceedsMaxParseDepth` where
    /// it is deeper than the limit; `OutOfMemory`.
    pub fn new_within(alloc: Global, input: &str, limit: usize) -> Result<Decoder, DecodeError>
        requires { limit ≤ GREATEST_LEVEL_LIMIT }
        ensures tree { IfOk result (λ d. (t : AvnTree) × IsAvn limit input.now t
            × (pending_of d ≡ Some (Tree.avn t) ∷ [])) }
        ensures refused { IfErr result (λ e. NoTree limit input.now (failure_of e)) }
    {
        let mut scan = Scan::new(input);
        Ok(Decoder::from_table(alloc, NodeTable::parse(alloc, &mut scan, limit)?))
    }

    /// Makes a decoder of a text, as `new_within` does with the limit `LEVEL_LIMIT`.
    ///
    /// # Errors
    ///
    /// As `new_within` has them.
    pub fn new(alloc: Global, input: &str) -> Result<Decoder, DecodeError>
        ensures tree { IfOk result (λ d. (t : AvnTree) × IsAvn LEVEL_LIMIT input.now t
            × (pending_of d ≡ Some (Tree.avn t) ∷ [])) }
        ensures refused { IfErr result (λ e. NoTree LEVEL_LIMIT input.now (failure_of e)) }
    {
        Decoder::new_within(alloc, input, LEVEL_LIMIT)
    }

    /// Makes a decoder of an AVN value.
    ///
    /// # Errors
    ///
    /// `OutOfMemory` alone.
    pub fn from_value(alloc: Global, value: AvnValue) -> Result<Decoder, DecodeError>
        ensures tree { IfOk result (λ d. pending_of d ≡ Some (tree_of value) ∷ []) }
        ensures refused { IfErr result (λ e. failure_of e ≡ at_root Cause.out_of_memory Avn) }
    {
        match NodeTable::from_value(alloc, value) {
            Ok(table) => Ok(Decoder::from_table(alloc, table)),
            Err(_) => Err(DecodeError::out_of_memory(Codec::Avn)),
        }
    }

    /// Makes a decoder of the value of a table. It takes no memory; later calls take theirs from
    /// the allocator.
    pub fn from_table(alloc: Global, table: NodeTable) -> Decoder
        ensures { pending_of result ≡ Some (Tree.avn table) ∷ [] }
    {
        let pending = Pending::of(alloc, Some(0));
        Decoder {
            alloc,
            table,
            pending,
        }
    }

    /// Takes the first pending slot and returns its node.
    ///
    /// # Errors
    ///
    /// The end of input where the slot is absent, or none is pending.
    #[inline(always)]
    fn take(&mut self) -> Result<usize, DecodeError>
        ensures { MatchResult result (TakesNode self.old self.new) (λ e. (s : Shape)
            → Refuses Notation.avn (FailsWith Notation.avn s (head_slot (pending_of self.old)))
            (failure_of e)) }
    {
        match self.pending.take() {
            Some(Some(node)) => Ok(node),
            Some(None) => Err(end_of_input()),
            None => Err(end_of_input()),
        }
    }

    /// Puts a slot before the pending ones.
    ///
    /// # Errors
    ///
    /// `OutOfMemory` alone.
    fn put(&mut self, slot: Option<usize>) -> Result<(), DecodeError>
        requires { IsSlot self.old.root slot }
        ensures { MatchResult result
            (λ _. self.new ≡ record self.old { nodes = slot ∷ self.old.nodes })
            (λ e. failure_of e ≡ at_root Cause.out_of_memory Avn) }
    {
        match self.pending.put(slot) {
            Ok(()) => Ok(()),
            Err(_) => Err(DecodeError::out_of_memory(Codec::Avn)),
        }
    }

    /// Puts nodes before the pending slots, in their order.
    ///
    /// # Errors
    ///
    /// `OutOfMemory` alone.
    fn put_items(&mut self, items: Vec<usize>) -> Result<(), DecodeError>
        requires { All (IsPresent self.old.root) items.items }
        ensures { MatchResult result
            (λ _. self.new ≡ record self.old { nodes = map Some items.items ++ self.old.nodes })
            (λ e. failure_of e ≡ at_root Cause.out_of_memory Avn) }
    {
        match self.pending.put_present(items) {
            Ok(()) => Ok(()),
            Err(_) => Err(DecodeError::out_of_memory(Codec::Avn)),
        }
    }

    /// Puts slots before the pending ones, in their order.
    ///
    /// # Errors
    ///
    /// `OutOfMemory` alone.
    fn put_slots(&mut self, slots: Vec<Option<usize>>) -> Result<(), DecodeError>
        requires { All (IsSlot self.old.root) slots.items }
        ensures { MatchResult result
            (λ _. self.new ≡ record self.old { nodes = slots.items ++ self.old.nodes })
            (λ e. failure_of e ≡ at_root Cause.out_of_memory Avn) }
    {
        match self.pending.put_all(slots) {
            Ok(()) => Ok(()),
            Err(_) => Err(DecodeError::out_of_memory(Codec::Avn)),
        }
    }
}

/// Opens nodes, and takes leaves out of them.
impl asn_traits::Decoder for Decoder {
    ghost use Rattle.avn_rules.specs.Pending.{pending_of};

    ghost notation = { Notation.avn };

    ghost pending = { pending_of };

    fn codec(&self) -> Codec {
        Codec::Avn
    }

    fn allocator(&self) -> Global {
        self.alloc
    }

    // The slot is gone in any case: the error names a value of another kind by its printed text.
    #[inline(always)]
    fn take_leaf(&mut self, kind: LeafKind) -> Result<OwnedLeaf, DecodeError> {
        let node = self.take()?;
        leaf_of_node(self.alloc, &self.table, node, kind)
    }

    #[inline(always)]
    fn number_at_hand(&self) -> Option<WholeNumber> {
        match self.pending.at_hand() {
            Some(node) => number_at(&self.table, *node),
            None => None,
        }
    }

    #[inline(always)]
    fn flag_at_hand(&self) -> Option<bool> {
        match self.pending.at_hand() {
            Some(node) => flag_at(&self.table, *node),
            None => None,
        }
    }

    #[inline(always)]
    fn pass(&mut self) {
        let _slot = self.pending.take();
    }

    fn no_item(&self, text: String) -> DecodeError {
        no_item(text)
    }

    fn take_absent(&mut self) -> Result<bool, DecodeError> {
        match self.pending.take_absent() {
            Some(absent) => Ok(absent),
            None => Err(end_of_input()),
        }
    }

    // The kinds differ only in how a refusal names them.
    fn open_list(&mut self, kind: SeqKind) -> Result<usize, DecodeError> {
        let node = self.take()?;
        if !is_list(&self.table, node) {
            return Err(mismatch(self.alloc, &self.table, node, needed_list(kind)));
        }
        let Ok(items) = items_of(self.alloc, &self.table, node) else {
            return Err(DecodeError::out_of_memory(Codec::Avn));
        };
        let count = items.len();
        self.put_items(items)?;
        Ok(count)
    }

    // The slots of all fields are found first, and put at once; a name that stands twice is
    // returned before.
    fn open_members<N: NameList>(
        &mut self,
        kind: SeqKind,
        names: &N,
    ) -> Result<Opened, DecodeError> {
        let node = self.take()?;
        if !has_members(&self.table, node) {
            return Err(mismatch(self.alloc, &self.table, node, needed_members(kind)));
        }
        match slots_of(self.alloc, &self.table, node, names) {
            Ok(FieldSlots::Found(slots)) => {
                self.put_slots(slots)?;
                Ok(Opened::Members)
            }
            Ok(FieldSlots::Repeated(place)) => Ok(Opened::Repeated(place)),
            Err(_) => Err(DecodeError::out_of_memory(Codec::Avn)),
        }
    }

    // Where the identifier is none of the type's, an absent slot stands for the alternative, and
    // the caller refuses by the type's name.
    fn open_choice<N: NameList>(&mut self, identifiers: &N) -> Result<Option<usize>, DecodeError> {
        let node = self.take()?;
        let NodeKind::Choice = self.table.kind(node) else {
            return Err(mismatch(self.alloc, &self.table, node, words::AVN_CHOICE));
        };
        let payload = self.table.payload(node);
        match place_of(identifiers, self.table.name(payload)) {
            Some(place) => {
                self.put(Some(payload))?;
                Ok(Some(place))
            }
            None => {
                self.put(None)?;
                Ok(None)
            }
        }
    }
}
