//! Decodes a JSON value as a value of a type. The decoder holds the pending slots, of which each
//! call takes the first, and takes the JSON value apart by moves as it goes.
ghost use Rattle.asn_core.specs.declared.codec.Codec.TheVariants.{Jer};
ghost use Rattle.asn_fault.specs.Failure.{Cause, failure_of, at_root};
ghost use Rattle.asn_coding.specs.Answer.{Refuses};
ghost use Rattle.asn_traits.specs.Notation.{Notation};
ghost use Rattle.asn_traits.specs.Shape.{Shape, are_distinct};
ghost use Rattle.asn_traits.specs.FailsWith.{FailsWith};
ghost use Rattle.asn_names.specs.Rows.{row_names};
ghost use Rattle.asn_traits.specs.Tree.{Tree, head_slot};
ghost use Rattle.serde_json.specs.Data.{Data};
ghost use Rattle.serde_json.specs.View.{members_view};
ghost use Rattle.std.specs.Prelude.{◌≡◌, ◌∷◌, [], None, Some, true, IfOk, IfErr, OnOk, MatchOption, MatchResult};
ghost use Rattle.std.specs.Prelude.{option_map};

use super::faults::{end_of_input, mismatch, no_item, no_json, no_object};
use super::leaves::{leaf_of_json, refusal_of_leaf};
use super::take_apart::{has_several, into_items, into_members, into_payload, whole_number};
use asn_core::{Codec, WholeNumber};
use asn_fault::DecodeError;
use asn_model::words;
use asn_slots::Pending;
use asn_traits::{LeafKind, NameList, Opened, OwnedLeaf, SeqKind};
use json_floats::holds_float;
use serde_json::{Map, Value};
use std::alloc::Global;

/// Decodes one JSON value. Contracts see the list of its pending slots.
#[derive(Drop)]
pub struct Decoder {
    /// Allocates texts, octets and the room for slots.
    alloc: Global,
    /// Holds the JSON values that are still to be decoded.
    pending: Pending<Value>,
}

/// Makes decoders of a text or of a JSON value.
impl Decoder {
    ghost use Rattle.jer_rules.specs.Pending.{tree_of, pending_of, TakesFields};
    ghost use Rattle.jer_rules.specs.Text.{IsJer, NoTree};

    /// Makes a decoder of a text.
    ///
    /// # Errors
    ///
    /// `Parser` where the text is no JSON; else `RealNotSupported` where a number in it is neither
    /// an `i64` nor a `u64`; `OutOfMemory`.
    pub fn new(alloc: Global, input: &str) -> Result<Decoder, DecodeError>
        ensures tree { IfOk result (λ d. (t : Data) × IsJer input.now t
            × (pending_of d ≡ Some (Tree.json t) ∷ [])) }
        ensures refused { IfErr result (λ e. NoTree input.now (failure_of e)) }
    {
        // `serde_json` has one error for a text that is no JSON and for memory that ran out.
        let value = match Value::from_str(alloc, input) {
            Ok(value) => value,
            Err(error) if error.is_memory() => {
                return Err(DecodeError::out_of_memory(Codec::Jer));
            }
            Err(_error) => return Err(no_json(alloc)),
        };
        // Floats are refused wherever they stand, even in members that no type asks for.
        if holds_float(&value) {
            return Err(DecodeError::real_not_supported(Codec::Jer));
        }
        Decoder::from_value(alloc, value)
    }

    /// Makes a decoder of a JSON value. A float in it is of no kind that a type needs.
    ///
    /// # Errors
    ///
    /// `OutOfMemory` alone.
    pub fn from_value(alloc: Global, value: Value) -> Result<Decoder, DecodeError>
        ensures tree { IfOk result (λ d. pending_of d ≡ Some (tree_of value) ∷ []) }
        ensures refused { IfErr result (λ e. failure_of e ≡ at_root Cause.out_of_memory Jer) }
    {
        let mut pending = Pending::new(alloc);
        match pending.put(Some(value)) {
            Ok(()) => Ok(Decoder { alloc, pending }),
            Err(_) => Err(DecodeError::out_of_memory(Codec::Jer)),
        }
    }

    /// Takes the first pending slot and returns its value, or `None` where the slot is absent, or
    /// none is pending.
    #[inline(always)]
    fn take_present(&mut self) -> Option<Value>
        ensures { MatchOption result (head_slot (pending_of self.old) ≡ None)
            (λ v. pending_of self.old ≡ Some (tree_of v) ∷ pending_of self.new) }
    {
        match self.pending.take() {
            Some(Some(value)) => Some(value),
            Some(None) => None,
            None => None,
        }
    }

    /// Takes the first pending slot and returns its value.
    ///
    /// # Errors
    ///
    /// The end of input where the slot is absent, or none is pending.
    #[inline(always)]
    fn take(&mut self) -> Result<Value, DecodeError>
        ensures { MatchResult result (λ v. pending_of self.old ≡ Some
            (tree_of v) ∷ pending_of self.new) (λ e. (s : Shape) → Refuses Notation.jer
            (FailsWith Notation.jer s (head_slot (pending_of self.old))) (failure_of e)) }
    {
        match self.take_present() {
            Some(value) => Ok(value),
            None => Err(end_of_input()),
        }
    }

    /// Puts a slot before the pending ones.
    ///
    /// # Errors
    ///
    /// `OutOfMemory` alone.
    fn put(&mut self, slot: Option<Value>) -> Result<(), DecodeError>
        ensures { MatchResult result
            (λ _. pending_of self.new ≡ option_map tree_of slot ∷ pending_of self.old)
            (λ e. failure_of e ≡ at_root Cause.out_of_memory Jer) }
    {
        match self.pending.put(slot) {
            Ok(()) => Ok(()),
            Err(_) => Err(DecodeError::out_of_memory(Codec::Jer)),
        }
    }

    /// Takes the fields out of the members by their names, and puts their slots before the pending
    /// ones, in the order of the names. Members of other names stay.
    ///
    /// # Errors
    ///
    /// `OutOfMemory` alone.
    fn take_fields<N: NameList>(
        &mut self,
        members: &mut Map<String, Value>,
        names: &N,
    ) -> Result<(), DecodeError>
        requires { are_distinct (row_names (N.rows names.now)) ≡ true }
        ensures taken { OnOk result (TakesFields (row_names (N.rows names.now))
            (members_view members.old.entries) (members_view members.new.entries)
            (pending_of self.old) (pending_of self.new)) }
        ensures refused { IfErr result (λ e. failure_of e ≡ at_root Cause.out_of_memory Jer) }
    {
        // The last field goes first, since each is put before those that were put already.
        for place in (0..names.count()).rev() {
            let member = members.remove(names.name(place));
            self.put(member)?;
        }
        Ok(())
    }
}

/// Opens JSON values and takes leaves out of them.
impl asn_traits::Decoder for Decoder {
    ghost use Rattle.jer_rules.specs.Pending.{pending_of};

    ghost notation = { Notation.jer };

    ghost pending = { pending_of };

    fn codec(&self) -> Codec {
        Codec::Jer
    }

    fn allocator(&self) -> Global {
        self.alloc
    }

    // The slot is gone in any case: a value of another kind is named in the error and dropped.
    #[inline(always)]
    fn take_leaf(&mut self, kind: LeafKind) -> Result<OwnedLeaf, DecodeError> {
        let Some(value) = self.take_present() else {
            return Err(end_of_input());
        };
        let why = match leaf_of_json(self.alloc, value, kind) {
            // Returned at once, so that the answer isn't copied once more.
            Ok(leaf) => return Ok(leaf),
            Err(why) => why,
        };
        Err(refusal_of_leaf(self.alloc, kind, why))
    }

    #[inline(always)]
    fn number_at_hand(&self) -> Option<WholeNumber> {
        match self.pending.at_hand() {
            Some(Value::Number(number)) => whole_number(number),
            _ => None,
        }
    }

    #[inline(always)]
    fn flag_at_hand(&self) -> Option<bool> {
        match self.pending.at_hand() {
            Some(Value::Bool(flag)) => Some(*flag),
            _ => None,
        }
    }

    #[inline(always)]
    fn pass(&mut self) {
        let _slot = self.pending.take();
    }

    // An item is a JSON string, so its text is named as it is.
    fn no_item(&self, text: String) -> DecodeError {
        no_item(text)
    }

    fn take_absent(&mut self) -> Result<bool, DecodeError> {
        match self.pending.take_absent() {
            Some(absent) => Ok(absent),
            None => Err(end_of_input()),
        }
    }

    // The array's vector goes into the pending slots as it is, without a copy. JER has one word for
    // both kinds.
    fn open_list(&mut self, kind: SeqKind) -> Result<usize, DecodeError> {
        match into_items(self.take()?) {
            Ok(items) => {
                let count = items.len();
                match self.pending.put_present(items) {
                    Ok(()) => Ok(count),
                    Err(_) => Err(DecodeError::out_of_memory(Codec::Jer)),
                }
            }
            Err(other) => Err(mismatch(self.alloc, words::JER_ARRAY, &other)),
        }
    }

    // No object has a member twice once JSON is read, so no name is repeated.
    fn open_members<N: NameList>(
        &mut self,
        kind: SeqKind,
        names: &N,
    ) -> Result<Opened, DecodeError> {
        let mut members = match into_members(self.take()?) {
            Ok(members) => members,
            Err(_) => return Err(no_object(self.alloc)),
        };
        self.take_fields(&mut members, names)?;
        Ok(Opened::Members)
    }

    // A choice is the object's only member. Where its name is no identifier, or there is no member,
    // an absent slot stands for the payload, and the caller refuses by the type's name.
    fn open_choice<N: NameList>(&mut self, identifiers: &N) -> Result<Option<usize>, DecodeError> {
        let members = match into_members(self.take()?) {
            Ok(members) => members,
            Err(other) => return Err(mismatch(self.alloc, words::JER_OBJECT, &other)),
        };
        if has_several(&members) {
            let object = Value::Object(members);
            return Err(mismatch(self.alloc, words::JER_ONE_MEMBER, &object));
        }
        match into_payload(members, identifiers) {
            Some((place, payload)) => {
                self.put(Some(payload))?;
                Ok(Some(place))
            }
            None => {
                self.put(None)?;
                Ok(None)
            }
        }
    }
}
