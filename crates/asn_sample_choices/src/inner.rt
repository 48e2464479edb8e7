//! Describes a CHOICE of one alternative, as `simple_choice` does one of two.
ghost use Rattle.asn_sample_choices.specs.Inner.{inner_alternatives, inner_chosen};
ghost use Rattle.asn_sample_choices.specs.declared.inner.Inner.TheVariants.{Wine};
ghost use Rattle.asn_traits.specs.Shape.{AlternativeAdditions};
ghost use Rattle.std.specs.Prelude.{refl};

use asn_core::{OutOfMemory, Tag, TagTree};
use asn_fault::{DecodeError, EncodeError};
use asn_fields::AlternativeShapes;
use asn_traits::{ChoiceKind, ChoicePayload, Decode, Decoder, Encode, Encoder, OfKind, Shape};
use std::alloc::Global;

/// Is `Inner ::= CHOICE { Wine INTEGER (0..3) }`. Neither notation checks the range, so the shape
/// has every `u8`.
#[derive(Debug, PartialEq, Eq, Drop)]
pub enum Inner {
    /// Chooses `Wine`, a number.
    Wine(u8),
}

/// Is the tag of `Wine`.
const WINE: Tag = Tag::CONTEXT_0;

/// Lists the tag of the one alternative.
const INNER_VARIANTS: &'static [TagTree] = &[TagTree::Leaf(WINE)];

/// Is a CHOICE.
impl OfKind for Inner {
    type Kind = ChoiceKind;
}

/// Describes the alternative, and encodes and decodes its payload.
impl ChoicePayload for Inner {
    const ROOT: &'static [TagTree] = INNER_VARIANTS;

    const ADDED: Option<&'static [TagTree]> = None;

    const NAMES: &'static [&'static str] = &["Wine"];

    ghost alternatives = { inner_alternatives };

    ghost additions = { AlternativeAdditions.closed_alternatives };

    ghost chosen = { inner_chosen };

    fn listed_root() -> &'static [TagTree] {
        Self::ROOT
    }

    fn listed_added() -> Option<&'static [TagTree]> {
        Self::ADDED
    }

    fn listed_names() -> &'static [&'static str] {
        Self::NAMES
    }

    fn choice_shape(alloc: Global) -> Result<Shape, OutOfMemory> {
        let mut alternatives = AlternativeShapes::new(alloc);
        alternatives.alternative::<u8>("Wine", WINE)?;
        Ok(alternatives.choice())
    }

    fn alternative_place(&self) -> usize {
        match self {
            Inner::Wine(_) => 0,
        }
    }

    fn write_alternative<E: Encoder>(&self, encoder: &mut E) -> Result<(), EncodeError> {
        match self {
            Inner::Wine(wine) => wine.encode(encoder),
        }
    }

    fn read_alternative<D: Decoder>(decoder: &mut D, place: usize) -> Result<Inner, DecodeError> {
        match place {
            0 => Ok(Inner::Wine(u8::decode(decoder)?)),
            _ => Err(DecodeError::no_valid_choice("Inner", decoder.codec())),
        }
    }

    ghost is_chosen = { elim [ Wine wine ↦ refl ] };

    ghost readable = { refl };
}
