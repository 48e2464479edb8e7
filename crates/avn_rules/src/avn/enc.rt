//! Encodes a value of a type as an AVN value. The encoder holds the open frames as the nodes of one
//! flat list, in which closing a frame makes one value of its slots.
ghost use Rattle.asn_core.specs.declared.codec.Codec.TheVariants.{Avn};
ghost use Rattle.asn_fault.specs.EncodeCause.{EncodeCause, encode_cause};
ghost use Rattle.asn_slots.specs.Slots.{last_present};
ghost use Rattle.asn_traits.specs.Canonical.{avn_tree, canonical_text};
ghost use Rattle.asn_traits.specs.Notation.{Notation};
ghost use Rattle.asn_coding.specs.Writing.{Frame, IsOutOfMemory};
ghost use Rattle.avn_value.specs.View.{tree_of};
ghost use Rattle.std.specs.Prelude.{◌≡◌, ◌⊎◌, ◌∷◌, [], List, None, Ok, Some, IfOk, IfErr};
ghost use Rattle.std.specs.Prelude.{option_map, string_bytes};

use super::faults::no_unicode;
use super::leaves::add_leaf;
use asn_core::{Codec, OutOfMemory};
use asn_fault::{AvnEncodeErrorKind, CodecEncodeError, EncodeError, EncodeErrorKind};
use asn_traits::{Leaf, Name, NameList};
use avn_frames::NodeFrames;
use avn_value::{AvnValue, NodeTable};
use std::alloc::Global;

/// Encodes one AVN value. Contracts see the frames that it may hold as a relation, since an AVN
/// value doesn't determine the value that it was made of.
#[derive(Drop)]
pub struct Encoder {
    /// Allocates what is made of the nodes.
    alloc: Global,
    /// Holds the digits of the last number, and keeps the room for those of the next.
    digits: String,
    /// Holds the nodes of the open frames.
    frames: NodeFrames,
}

/// Makes encoders, and hands over what one holds at its root.
impl Encoder {
    ghost use Rattle.avn_rules.specs.Holding.{Holds};

    /// Makes an encoder that holds nothing at its root. It takes no memory.
    pub fn new(alloc: Global) -> Encoder
        ensures { Holds result ([] ∷ []) }
    {
        Encoder {
            alloc,
            digits: String::new(alloc),
            frames: NodeFrames::new(alloc),
        }
    }

    /// Returns the AVN value of the last value that was encoded at the root. Where frames are open
    /// above the root's, it is that of the last value in the last of them.
    ///
    /// # Errors
    ///
    /// `AvnNoRootValueFound` where there is none; `OutOfMemory`.
    pub fn to_avn(self) -> Result<AvnValue, EncodeError>
        // Whatever slots the frame has, the AVN value is that of the last one that is present.
        ensures tree { IfOk result (λ t. (f : Frame) (fs : List Frame) → Holds self (f ∷ fs)
            → option_map avn_tree (last_present f) ≡ Some (tree_of t)) }
        ensures refused { IfErr result (λ e. IsOutOfMemory Notation.avn e
            ⊎ ((encode_cause e.kind ≡ EncodeCause.no_root_value Avn)
            × ((f : Frame) (fs : List Frame) → Holds self (f ∷ fs) → last_present f ≡ None))) }
        ensures codec { IfErr result (λ e. e.codec ≡ Avn) }
    {
        match in_avn(self.frames.into_last())? {
            Some(nodes) => {
                let table = NodeTable::from_nodes(nodes);
                in_avn(table.to_value(self.alloc, 0))
            }
            None => Err(no_root_value()),
        }
    }

    /// Returns the text of that AVN value.
    ///
    /// # Errors
    ///
    /// `AvnNoRootValueFound` where there is none; `OutOfMemory`.
    pub fn to_string(self) -> Result<String, EncodeError>
        ensures text { IfOk result (λ s. (f : Frame) (fs : List Frame) → Holds self (f ∷ fs)
            → option_map (canonical_text Notation.avn) (last_present f) ≡ Some (string_bytes s)) }
        ensures refused { IfErr result (λ e. IsOutOfMemory Notation.avn e
            ⊎ ((encode_cause e.kind ≡ EncodeCause.no_root_value Avn)
            × ((f : Frame) (fs : List Frame) → Holds self (f ∷ fs) → last_present f ≡ None))) }
        ensures codec { IfErr result (λ e. e.codec ≡ Avn) }
    {
        match in_avn(self.frames.print_last())? {
            Some(text) => Ok(text),
            None => Err(no_root_value()),
        }
    }
}

/// Returns an answer with the want of memory as an error of this codec.
///
/// # Errors
///
/// `OutOfMemory` alone.
#[inline(always)]
fn in_avn<T: Drop>(answer: Result<T, OutOfMemory>) -> Result<T, EncodeError>
    ensures same { IfOk result (λ x. answer ≡ Ok x) }
    ensures refused { IfErr result (IsOutOfMemory Notation.avn) }
{
    match answer {
        Ok(value) => Ok(value),
        Err(_) => Err(EncodeError::out_of_memory(Codec::Avn)),
    }
}

/// Returns the error that nothing was encoded at the root.
fn no_root_value() -> EncodeError
    ensures kind { encode_cause result.kind ≡ EncodeCause.no_root_value Avn }
    ensures codec { result.codec ≡ Avn }
{
    EncodeError::from_kind(
        EncodeErrorKind::CodecSpecific {
            inner: CodecEncodeError::Avn(AvnEncodeErrorKind::AvnNoRootValueFound),
        },
        Codec::Avn,
    )
}

/// Adds leaves to the last frame, and closes frames as lists, sequences and choices.
impl asn_traits::Encoder for Encoder {
    ghost use Rattle.avn_rules.specs.Holding.{Holds};

    ghost notation = { Notation.avn };

    ghost holds = { Holds };

    fn codec(&self) -> Codec {
        Codec::Avn
    }

    fn allocator(&self) -> Global {
        self.alloc
    }

    #[inline(always)]
    fn put_leaf(&mut self, leaf: Leaf<'_>) -> Result<(), EncodeError> {
        in_avn(add_leaf(&mut self.digits, &mut self.frames, leaf))
    }

    fn no_unicode(&self, _place: usize) -> EncodeError {
        no_unicode(self.alloc)
    }

    fn encode_absent(&mut self) -> Result<(), EncodeError> {
        in_avn(self.frames.add_absent())
    }

    #[inline(always)]
    fn open_frame(&mut self) -> Result<(), EncodeError> {
        in_avn(self.frames.open())
    }

    fn close_list(&mut self) -> Result<(), EncodeError> {
        in_avn(self.frames.close_list())
    }

    // The elements go into the list in byte order of their texts.
    fn close_set(&mut self) -> Result<(), EncodeError> {
        in_avn(self.frames.close_set())
    }

    // The slots get their names in order; absent ones stay, by name.
    fn close_members<N: NameList>(&mut self, names: &N) -> Result<(), EncodeError> {
        in_avn(self.frames.close_members(names))
    }

    // A frame without a payload leaves an absent slot, as a scope that added nothing does.
    fn close_choice(&mut self, identifier: Name<'_>) -> Result<(), EncodeError> {
        in_avn(self.frames.close_choice(identifier.as_str()))
    }
}
