//! Describes `OldPart` in a later version, which has an extension addition.
ghost use Rattle.asn_sample_choices.specs.NewPart.{new_part_alternatives, new_part_chosen};
ghost use Rattle.asn_sample_choices.specs.NewPart.{new_part_added};
ghost use Rattle.asn_sample_choices.specs.NewPartElement.{new_parts_alike};
ghost use Rattle.asn_sample_choices.specs.declared.new_part.NewPart.TheVariants.{Code, Text, Flag};
ghost use Rattle.asn_traits.specs.Shape.{AlternativeAdditions};
ghost use Rattle.std.specs.Prelude.{refl};

use asn_core::{OutOfMemory, Tag, TagTree};
use asn_fault::{DecodeError, EncodeError};
use asn_fields::AlternativeShapes;
use asn_traits::{
    ChoiceElement, ChoiceKind, ChoicePayload, Decode, Decoder, Encode, Encoder, OfKind, Shape,
};
use std::alloc::Global;

/// Is `NewPart ::= CHOICE { code INTEGER (0..255), text UTF8String, ..., flag BOOLEAN }`.
#[derive(Debug, PartialEq, Eq, Hash, Drop)]
pub enum NewPart {
    /// Chooses `code`, a number.
    Code(u8),
    /// Chooses `text`.
    Text(String),
    /// Chooses `flag`, the extension addition.
    Flag(bool),
}

/// Is the tag of `code`.
const CODE: Tag = Tag::CONTEXT_0;

/// Is the tag of `text`.
const TEXT: Tag = Tag::CONTEXT_1;

/// Is the tag of `flag`.
const FLAG: Tag = Tag::CONTEXT_2;

/// Lists the tags of the alternatives before the extension marker.
const NEW_PART_VARIANTS: &'static [TagTree] = &[TagTree::Leaf(CODE), TagTree::Leaf(TEXT)];

/// Lists those after it.
const NEW_PART_ADDED: &'static [TagTree] = &[TagTree::Leaf(FLAG)];

/// Is a CHOICE.
impl OfKind for NewPart {
    type Kind = ChoiceKind;
}

/// Describes the alternatives, and encodes and decodes the payload of each.
impl ChoicePayload for NewPart {
    const ROOT: &'static [TagTree] = NEW_PART_VARIANTS;

    const ADDED: Option<&'static [TagTree]> = Some(NEW_PART_ADDED);

    const NAMES: &'static [&'static str] = &["code", "text", "flag"];

    ghost alternatives = { new_part_alternatives };

    ghost additions = { AlternativeAdditions.extended_alternatives new_part_added };

    ghost chosen = { new_part_chosen };

    fn listed_root() -> &'static [TagTree] {
        Self::ROOT
    }

    fn listed_added() -> Option<&'static [TagTree]> {
        Self::ADDED
    }

    fn listed_names() -> &'static [&'static str] {
        Self::NAMES
    }

    fn choice_shape(alloc: Global) -> Result<Shape, OutOfMemory> {
        let mut alternatives = AlternativeShapes::new(alloc);
        alternatives.alternative::<u8>("code", CODE)?;
        alternatives.alternative::<String>("text", TEXT)?;
        let mut added = AlternativeShapes::new(alloc);
        added.alternative::<bool>("flag", FLAG)?;
        Ok(alternatives.extensible_choice(added))
    }

    fn alternative_place(&self) -> usize {
        match self {
            NewPart::Code(_) => 0,
            NewPart::Text(_) => 1,
            NewPart::Flag(_) => 2,
        }
    }

    fn write_alternative<E: Encoder>(&self, encoder: &mut E) -> Result<(), EncodeError> {
        match self {
            NewPart::Code(number) => number.encode(encoder),
            NewPart::Text(text) => text.encode(encoder),
            NewPart::Flag(flag) => flag.encode(encoder),
        }
    }

    fn read_alternative<D: Decoder>(decoder: &mut D, place: usize) -> Result<NewPart, DecodeError> {
        match place {
            0 => Ok(NewPart::Code(u8::decode(decoder)?)),
            1 => Ok(NewPart::Text(String::decode(decoder)?)),
            2 => Ok(NewPart::Flag(bool::decode(decoder)?)),
            _ => Err(DecodeError::no_valid_choice("NewPart", decoder.codec())),
        }
    }

    ghost is_chosen = { elim [ Code number ↦ refl | Text text ↦ refl | Flag flag ↦ refl ] };

    ghost readable = { refl };
}

/// May be the element of a SET OF: two are equal exactly where the values that they stand for are.
impl ChoiceElement for NewPart {
    ghost alike = { new_parts_alike };
}
