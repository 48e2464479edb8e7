//! Encodes a value of a type as a JSON value. The encoder holds the open frames, each the JSON
//! values of the slots that were added to it; closing a frame makes one JSON value of them. They
//! are values of `jer_values`, whose objects take little room.
ghost use Rattle.asn_core.specs.declared.codec.Codec.TheVariants.{Jer};
ghost use Rattle.asn_fault.specs.EncodeCause.{EncodeCause, encode_cause};
ghost use Rattle.asn_traits.specs.Canonical.{jer_data, canonical_text};
ghost use Rattle.asn_traits.specs.Notation.{Notation};
ghost use Rattle.asn_slots.specs.Frames.{push};
ghost use Rattle.asn_slots.specs.Slots.{last_present};
ghost use Rattle.asn_coding.specs.Writing.{Frame, IsOutOfMemory};
ghost use Rattle.jer_rules.specs.Text.{ReadsBack};
ghost use Rattle.jer_values.specs.Views.{data_of};
ghost use Rattle.serde_json.specs.View.{view};
ghost use Rattle.std.specs.Prelude.{◌≡◌, ◌⊎◌, ◌∷◌, [], List, Option, Some, None, OnOk, IfOk};
ghost use Rattle.std.specs.Prelude.{IfErr, IfSome, option_map, string_bytes};

use super::build::{in_text_order, member_name, members_of};
use super::faults::{encode_error, in_jer, out_of_memory};
use super::leaves::value_of_leaf;
use asn_core::Codec;
use asn_fault::{EncodeError, JerEncodeErrorKind, Utf8Fault};
use asn_slots::Frames;
use asn_traits::{Leaf, Name, NameList};
use jer_values::{JerValue, one_member};
use serde_json::Value;
use std::alloc::Global;

/// Encodes one JSON value. Contracts see the frames that it may hold as a relation, since a JSON
/// value doesn't determine the value that it was made of.
#[derive(Drop)]
pub struct Encoder {
    /// Allocates texts, maps and the room for slots.
    alloc: Global,
    /// Holds the JSON values of the open frames.
    frames: Frames<JerValue>,
}

/// Makes encoders, and hands over what one holds at its root.
impl Encoder {
    ghost use Rattle.jer_rules.specs.Holding.{Holds};

    /// Makes an encoder that holds nothing at its root. It takes no memory.
    pub fn new(alloc: Global) -> Encoder
        ensures { Holds result ([] ∷ []) }
    {
        Encoder {
            alloc,
            frames: Frames::new(alloc),
        }
    }

    /// Returns the JSON value of the last value that was encoded at the root; where frames are
    /// still open, of the last one in the last of them.
    ///
    /// # Errors
    ///
    /// `NoRootValueFound` where none was; `OutOfMemory`.
    pub fn to_json(self) -> Result<Value, EncodeError>
        // Whatever slots the last frame has, the JSON value is that of the last one that is
        // present. The root's frame is the last one where no other is open.
        ensures tree { IfOk result (λ t. (f : Frame) (fs : List Frame) → Holds self (f ∷ fs)
            → option_map jer_data (last_present f) ≡ Some (view t)) }
        ensures refused { IfErr result (λ e. IsOutOfMemory Notation.jer e
            ⊎ ((encode_cause e.kind ≡ EncodeCause.no_root_value Jer)
            × ((f : Frame) (fs : List Frame) → Holds self (f ∷ fs) → last_present f ≡ None))) }
        ensures codec { IfErr result (λ e. e.codec ≡ Jer) }
    {
        let alloc = self.alloc;
        in_jer(self.into_last()?.to_json(alloc))
    }

    /// Returns the last value that is present in the last frame. It takes no memory.
    ///
    /// # Errors
    ///
    /// `NoRootValueFound` where there is none.
    fn into_last(self) -> Result<JerValue, EncodeError>
        ensures tree { IfOk result (λ t. (f : Frame) (fs : List Frame) → Holds self (f ∷ fs)
            → option_map jer_data (last_present f) ≡ Some (data_of t)) }
        ensures kind { IfErr result (λ e. encode_cause e.kind ≡ EncodeCause.no_root_value Jer) }
        ensures codec { IfErr result (λ e. e.codec ≡ Jer) }
        ensures none { IfErr result (λ e. (f : Frame) (fs : List Frame) → Holds self (f ∷ fs)
            → last_present f ≡ None) }
    {
        let mut frames = self.frames;
        match frames.close_last() {
            Some(value) => Ok(value),
            None => Err(encode_error(JerEncodeErrorKind::NoRootValueFound)),
        }
    }

    /// Returns the compact text of that JSON value.
    ///
    /// # Errors
    ///
    /// `NoRootValueFound` where there is none; `OutOfMemory`.
    pub fn to_string(self) -> Result<String, EncodeError>
        // The text is the canonical one of that value. It is read as the JSON value that is
        // written for it, unless that nests deeper than JSON is read.
        ensures text { IfOk result (λ s. (f : Frame) (fs : List Frame) → Holds self (f ∷ fs)
            → option_map (canonical_text Notation.jer) (last_present f) ≡ Some (string_bytes s)) }
        ensures reads_back { IfOk result (λ s. (f : Frame) (fs : List Frame) → Holds self (f ∷ fs)
            → IfSome (last_present f) (λ v. ReadsBack v (string_bytes s))) }
        ensures refused { IfErr result (λ e. IsOutOfMemory Notation.jer e
            ⊎ ((encode_cause e.kind ≡ EncodeCause.no_root_value Jer)
            × ((f : Frame) (fs : List Frame) → Holds self (f ∷ fs) → last_present f ≡ None))) }
        ensures codec { IfErr result (λ e. e.codec ≡ Jer) }
    {
        let alloc = self.alloc;
        in_jer(self.into_last()?.to_text(alloc))
    }

    /// Puts a slot into the last frame.
    ///
    /// # Errors
    ///
    /// `OutOfMemory` alone.
    #[inline(always)]
    fn put(&mut self, slot: Option<JerValue>) -> Result<(), EncodeError>
        ensures added { OnOk result (self.new.frames ≡ push slot self.old.frames) }
        ensures refused { IfErr result (IsOutOfMemory Notation.jer) }
    {
        match self.frames.add(slot) {
            Ok(()) => Ok(()),
            Err(_) => Err(out_of_memory()),
        }
    }
}

/// Adds leaves to the last frame, and closes frames as arrays, objects and choices.
impl asn_traits::Encoder for Encoder {
    ghost use Rattle.jer_rules.specs.Holding.{Holds};

    ghost notation = { Notation.jer };

    ghost holds = { Holds };

    fn codec(&self) -> Codec {
        Codec::Jer
    }

    fn allocator(&self) -> Global {
        self.alloc
    }

    #[inline(always)]
    fn put_leaf(&mut self, leaf: Leaf<'_>) -> Result<(), EncodeError> {
        let value = value_of_leaf(self.alloc, leaf)?;
        self.put(Some(value))
    }

    fn no_unicode(&self, place: usize) -> EncodeError {
        encode_error(JerEncodeErrorKind::InvalidCharacter {
            error: Utf8Fault { valid_up_to: place },
        })
    }

    fn encode_absent(&mut self) -> Result<(), EncodeError> {
        self.put(None)
    }

    #[inline(always)]
    fn open_frame(&mut self) -> Result<(), EncodeError> {
        in_jer(self.frames.open())
    }

    // The values are moved into the array, which keeps the vector.
    fn close_list(&mut self) -> Result<(), EncodeError> {
        // By a `match` and not by `in_jer`: so empty lists are written in a twelfth less time.
        match self.frames.close_list() {
            Ok(items) => self.put(Some(JerValue::List(items))),
            Err(_) => Err(EncodeError::out_of_memory(Codec::Jer)),
        }
    }

    // The elements go into the array in byte order of their texts.
    fn close_set(&mut self) -> Result<(), EncodeError> {
        let items = in_jer(self.frames.close_list())?;
        let sorted = in_jer(in_text_order(self.alloc, items))?;
        self.put(Some(JerValue::List(sorted)))
    }

    // The slots get their names in order; absent ones are left out.
    fn close_members<N: NameList>(&mut self, names: &N) -> Result<(), EncodeError> {
        let slots = in_jer(self.frames.close())?;
        let members = in_jer(members_of(self.alloc, slots, names))?;
        self.put(Some(JerValue::Members(members)))
    }

    // A frame without a payload leaves an absent slot, as a scope that added nothing does.
    fn close_choice(&mut self, identifier: Name<'_>) -> Result<(), EncodeError> {
        let Some(payload) = self.frames.close_first() else {
            return self.put(None);
        };
        let name = in_jer(member_name(self.alloc, identifier))?;
        let choice = in_jer(one_member(self.alloc, name, payload))?;
        self.put(Some(choice))
    }
}
