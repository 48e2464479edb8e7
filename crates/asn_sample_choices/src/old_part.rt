//! Describes a CHOICE with an extension marker that no addition follows yet.
ghost use Rattle.asn_sample_choices.specs.OldPart.{old_part_alternatives, old_part_chosen};
ghost use Rattle.asn_sample_choices.specs.OldPartElement.{old_parts_alike};
ghost use Rattle.asn_sample_choices.specs.declared.old_part.OldPart.TheVariants.{Code, Text};
ghost use Rattle.asn_traits.specs.Shape.{Alternatives, AlternativeAdditions};
ghost use Rattle.std.specs.Prelude.{refl};

use asn_core::{OutOfMemory, Tag, TagTree};
use asn_fault::{DecodeError, EncodeError};
use asn_fields::AlternativeShapes;
use asn_traits::{
    ChoiceElement, ChoiceKind, ChoicePayload, Decode, Decoder, Encode, Encoder, OfKind, Shape,
};
use std::alloc::Global;

/// Is `OldPart ::= CHOICE { code INTEGER (0..255), text UTF8String, ... }`.
#[derive(Debug, PartialEq, Eq, Hash, Drop)]
pub enum OldPart {
    /// Chooses `code`, a number.
    Code(u8),
    /// Chooses `text`.
    Text(String),
}

/// Is the tag of `code`.
const CODE: Tag = Tag::CONTEXT_0;

/// Is the tag of `text`.
const TEXT: Tag = Tag::CONTEXT_1;

/// Lists the tags of the alternatives before the extension marker.
const OLD_PART_VARIANTS: &'static [TagTree] = &[TagTree::Leaf(CODE), TagTree::Leaf(TEXT)];

/// Lists those after it.
const OLD_PART_ADDED: &'static [TagTree] = &[];

/// Is a CHOICE.
impl OfKind for OldPart {
    type Kind = ChoiceKind;
}

/// Describes the alternatives, and encodes and decodes the payload of each.
impl ChoicePayload for OldPart {
    const ROOT: &'static [TagTree] = OLD_PART_VARIANTS;

    const ADDED: Option<&'static [TagTree]> = Some(OLD_PART_ADDED);

    const NAMES: &'static [&'static str] = &["code", "text"];

    ghost alternatives = { old_part_alternatives };

    ghost additions = { AlternativeAdditions.extended_alternatives Alternatives.no_alternatives };

    ghost chosen = { old_part_chosen };

    fn listed_root() -> &'static [TagTree] {
        Self::ROOT
    }

    fn listed_added() -> Option<&'static [TagTree]> {
        Self::ADDED
    }

    fn listed_names() -> &'static [&'static str] {
        Self::NAMES
    }

    fn choice_shape(alloc: Global) -> Result<Shape, OutOfMemory> {
        let mut alternatives = AlternativeShapes::new(alloc);
        alternatives.alternative::<u8>("code", CODE)?;
        alternatives.alternative::<String>("text", TEXT)?;
        Ok(alternatives.extensible_choice(AlternativeShapes::new(alloc)))
    }

    fn alternative_place(&self) -> usize {
        match self {
            OldPart::Code(_) => 0,
            OldPart::Text(_) => 1,
        }
    }

    fn write_alternative<E: Encoder>(&self, encoder: &mut E) -> Result<(), EncodeError> {
        match self {
            OldPart::Code(number) => number.encode(encoder),
            OldPart::Text(text) => text.encode(encoder),
        }
    }

    fn read_alternative<D: Decoder>(decoder: &mut D, place: usize) -> Result<OldPart, DecodeError> {
        match place {
            0 => Ok(OldPart::Code(u8::decode(decoder)?)),
            1 => Ok(OldPart::Text(String::decode(decoder)?)),
            _ => Err(DecodeError::no_valid_choice("OldPart", decoder.codec())),
        }
    }

    ghost is_chosen = { elim [ Code number ↦ refl | Text text ↦ refl ] };

    ghost readable = { refl };
}

/// May be the element of a SET OF: two are equal exactly where the values that they stand for are.
impl ChoiceElement for OldPart {
    ghost alike = { old_parts_alike };
}
