//! Describes a CHOICE (X.680, section 29): the sample to copy for one without an extension
//! marker.
ghost use Rattle.asn_sample_choices.specs.SimpleChoice.{simple_choice_alternatives, simple_choice_chosen};
ghost use Rattle.asn_sample_choices.specs.declared.simple_choice.SimpleChoice.TheVariants.{Test1, Test2};
ghost use Rattle.asn_traits.specs.Shape.{AlternativeAdditions};
ghost use Rattle.std.specs.Prelude.{refl};

use asn_core::{OutOfMemory, Tag, TagTree};
use asn_fault::{DecodeError, EncodeError};
use asn_fields::AlternativeShapes;
use asn_traits::{ChoiceKind, ChoicePayload, Decode, Decoder, Encode, Encoder, OfKind, Shape};
use std::alloc::Global;

/// Is `SimpleChoice ::= CHOICE { Test1 INTEGER (0..255), Test2 UTF8String }`.
#[derive(Debug, PartialEq, Eq, Drop)]
pub enum SimpleChoice {
    /// Chooses `Test1`, a number.
    Test1(u8),
    /// Chooses `Test2`, a text.
    Test2(String),
}

/// Is the tag of `Test1`. Alternatives are tagged in their order, from 0 on.
const TEST1: Tag = Tag::CONTEXT_0;

/// Is the tag of `Test2`.
const TEST2: Tag = Tag::CONTEXT_1;

/// Lists the tags that the alternatives begin with: one each, since neither is itself a CHOICE.
const SIMPLE_CHOICE_VARIANTS: &'static [TagTree] = &[TagTree::Leaf(TEST1), TagTree::Leaf(TEST2)];

/// Is a CHOICE: this gives it the traits that the library has for each CHOICE.
impl OfKind for SimpleChoice {
    type Kind = ChoiceKind;
}

/// Describes the alternatives, and encodes and decodes the payload of each.
impl ChoicePayload for SimpleChoice {
    const ROOT: &'static [TagTree] = SIMPLE_CHOICE_VARIANTS;

    // `None` means that there is no extension marker.
    const ADDED: Option<&'static [TagTree]> = None;

    // The identifiers, in the order of the tags.
    const NAMES: &'static [&'static str] = &["Test1", "Test2"];

    // The definitions that contracts cite; the calls below are proved to agree with them.
    ghost alternatives = { simple_choice_alternatives };

    ghost additions = { AlternativeAdditions.closed_alternatives };

    ghost chosen = { simple_choice_chosen };

    // A clause can't name a constant that holds a reference, so a call hands it over.
    fn listed_root() -> &'static [TagTree] {
        Self::ROOT
    }

    fn listed_added() -> Option<&'static [TagTree]> {
        Self::ADDED
    }

    fn listed_names() -> &'static [&'static str] {
        Self::NAMES
    }

    // The shape as a value, one call an alternative.
    fn choice_shape(alloc: Global) -> Result<Shape, OutOfMemory> {
        let mut alternatives = AlternativeShapes::new(alloc);
        alternatives.alternative::<u8>("Test1", TEST1)?;
        alternatives.alternative::<String>("Test2", TEST2)?;
        Ok(alternatives.choice())
    }

    // Alternatives are counted from 0, extension additions last.
    fn alternative_place(&self) -> usize {
        match self {
            SimpleChoice::Test1(_) => 0,
            SimpleChoice::Test2(_) => 1,
        }
    }

    // The payload is encoded by its own type, as one slot.
    fn write_alternative<E: Encoder>(&self, encoder: &mut E) -> Result<(), EncodeError> {
        match self {
            SimpleChoice::Test1(number) => number.encode(encoder),
            SimpleChoice::Test2(text) => text.encode(encoder),
        }
    }

    // The place is that of the identifier in the text, and the payload is the next slot.
    fn read_alternative<D: Decoder>(
        decoder: &mut D,
        place: usize,
    ) -> Result<SimpleChoice, DecodeError> {
        match place {
            0 => Ok(SimpleChoice::Test1(u8::decode(decoder)?)),
            1 => Ok(SimpleChoice::Test2(String::decode(decoder)?)),
            _ => Err(DecodeError::no_valid_choice("SimpleChoice", decoder.codec())),
        }
    }

    // The law that each value's alternative is one of the type's, an arm a variant.
    ghost is_chosen = { elim [ Test1 number ↦ refl | Test2 text ↦ refl ] };

    // The law that the shape can be read, which is computed.
    ghost readable = { refl };
}
