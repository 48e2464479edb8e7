//! Describes a CHOICE with an extension marker (X.680, sections 29 and 52). Beside what
//! `simple_choice` has, its tables and its shape separate the alternatives of the root from the
//! extension additions.
ghost use Rattle.asn_sample_choices.specs.ExtChoice.{ext_choice_alternatives, ext_choice_added};
ghost use Rattle.asn_sample_choices.specs.ExtChoice.{ext_choice_chosen};
ghost use Rattle.asn_sample_choices.specs.declared.ext_choice.ExtChoice.TheVariants.{Test1, Test2, Test3};
ghost use Rattle.asn_traits.specs.Shape.{AlternativeAdditions};
ghost use Rattle.std.specs.Prelude.{refl};

use asn_core::{OutOfMemory, Tag, TagTree};
use asn_fault::{DecodeError, EncodeError};
use asn_fields::AlternativeShapes;
use asn_traits::{ChoiceKind, ChoicePayload, Decode, Decoder, Encode, Encoder, OfKind, Shape};
use std::alloc::Global;

/// Is `ExtChoice ::= CHOICE { Test1 INTEGER (0..255), Test2 UTF8String, ..., Test3 BOOLEAN }`.
#[derive(Debug, PartialEq, Eq, Drop)]
pub enum ExtChoice {
    /// Chooses `Test1`, a number.
    Test1(u8),
    /// Chooses `Test2`, a text.
    Test2(String),
    /// Chooses `Test3`, an extension addition.
    Test3(bool),
}

/// Is the tag of `Test1`. Alternatives are tagged in their order, from 0 on.
const TEST1: Tag = Tag::CONTEXT_0;

/// Is the tag of `Test2`.
const TEST2: Tag = Tag::CONTEXT_1;

/// Is the tag of `Test3`: additions go on counting.
const TEST3: Tag = Tag::CONTEXT_2;

/// Lists the tags of the alternatives before the extension marker.
const EXT_CHOICE_VARIANTS: &'static [TagTree] = &[TagTree::Leaf(TEST1), TagTree::Leaf(TEST2)];

/// Lists the tags of those after it.
const EXT_CHOICE_ADDED: &'static [TagTree] = &[TagTree::Leaf(TEST3)];

/// Is a CHOICE: this gives it the traits that the library has for each CHOICE.
impl OfKind for ExtChoice {
    type Kind = ChoiceKind;
}

/// Describes the alternatives, and encodes and decodes the payload of each.
impl ChoicePayload for ExtChoice {
    const ROOT: &'static [TagTree] = EXT_CHOICE_VARIANTS;

    // `Some` marks the type as extensible, even if it has no additions.
    const ADDED: Option<&'static [TagTree]> = Some(EXT_CHOICE_ADDED);

    // The names of all alternatives, additions last.
    const NAMES: &'static [&'static str] = &["Test1", "Test2", "Test3"];

    ghost alternatives = { ext_choice_alternatives };

    ghost additions = { AlternativeAdditions.extended_alternatives ext_choice_added };

    ghost chosen = { ext_choice_chosen };

    fn listed_root() -> &'static [TagTree] {
        Self::ROOT
    }

    fn listed_added() -> Option<&'static [TagTree]> {
        Self::ADDED
    }

    fn listed_names() -> &'static [&'static str] {
        Self::NAMES
    }

    // The shape as a value, one call an alternative, with the additions apart.
    fn choice_shape(alloc: Global) -> Result<Shape, OutOfMemory> {
        let mut alternatives = AlternativeShapes::new(alloc);
        alternatives.alternative::<u8>("Test1", TEST1)?;
        alternatives.alternative::<String>("Test2", TEST2)?;
        let mut added = AlternativeShapes::new(alloc);
        added.alternative::<bool>("Test3", TEST3)?;
        Ok(alternatives.extensible_choice(added))
    }

    fn alternative_place(&self) -> usize {
        match self {
            ExtChoice::Test1(_) => 0,
            ExtChoice::Test2(_) => 1,
            ExtChoice::Test3(_) => 2,
        }
    }

    fn write_alternative<E: Encoder>(&self, encoder: &mut E) -> Result<(), EncodeError> {
        match self {
            ExtChoice::Test1(number) => number.encode(encoder),
            ExtChoice::Test2(text) => text.encode(encoder),
            ExtChoice::Test3(flag) => flag.encode(encoder),
        }
    }

    fn read_alternative<D: Decoder>(
        decoder: &mut D,
        place: usize,
    ) -> Result<ExtChoice, DecodeError> {
        match place {
            0 => Ok(ExtChoice::Test1(u8::decode(decoder)?)),
            1 => Ok(ExtChoice::Test2(String::decode(decoder)?)),
            2 => Ok(ExtChoice::Test3(bool::decode(decoder)?)),
            _ => Err(DecodeError::no_valid_choice("ExtChoice", decoder.codec())),
        }
    }

    ghost is_chosen = { elim [ Test1 number ↦ refl | Test2 text ↦ refl | Test3 flag ↦ refl ] };

    ghost readable = { refl };
}
