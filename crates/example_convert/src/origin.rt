//! Describes a CHOICE, one alternative of which is NULL.
ghost use Rattle.asn_traits.specs.Shape.{AlternativeAdditions};
ghost use Rattle.example_convert.specs.Origin.{origin_alternatives, origin_chosen};
ghost use Rattle.example_convert.specs.declared.origin.Origin.TheVariants.{Operator, Sensor, Unknown};
ghost use Rattle.std.specs.Prelude.{refl};

use asn_base::{OutOfMemory, Tag, TagTree};
use asn_fault::{DecodeError, EncodeError};
use asn_fields::AlternativeShapes;
use asn_traits::{ChoiceKind, ChoicePayload, Decode, Decoder, Encode, Encoder, OfKind, Shape};
use std::alloc::Global;

/// Is `Origin ::= CHOICE { sensor INTEGER (0..65535), operator UTF8String, unknown NULL }`.
#[derive(Debug, PartialEq, Eq, Drop)]
pub enum Origin {
    /// Is a sensor, by its number.
    Sensor(u16),
    /// Is a person, by name.
    Operator(String),
    /// Is not known.
    Unknown,
}

/// Is the tag of `sensor`. Alternatives are tagged in their order, from 0 on.
const SENSOR: Tag = Tag::CONTEXT_0;

/// Is the tag of `operator`.
const OPERATOR: Tag = Tag::CONTEXT_1;

/// Is the tag of `unknown`.
const UNKNOWN: Tag = Tag::CONTEXT_2;

/// Lists the tags of the alternatives.
const ORIGIN_VARIANTS: &'static [TagTree] = &[
    TagTree::Leaf(SENSOR),
    TagTree::Leaf(OPERATOR),
    TagTree::Leaf(UNKNOWN),
];

impl OfKind for Origin {
    type Kind = ChoiceKind;
}

/// Describes the alternatives, and encodes and decodes the payload of each.
impl ChoicePayload for Origin {
    const ROOT: &'static [TagTree] = ORIGIN_VARIANTS;

    const ADDED: Option<&'static [TagTree]> = None;

    const NAMES: &'static [&'static str] = &["sensor", "operator", "unknown"];

    ghost alternatives = { origin_alternatives };

    ghost additions = { AlternativeAdditions.closed_alternatives };

    ghost chosen = { origin_chosen };

    fn listed_root() -> &'static [TagTree] {
        Self::ROOT
    }

    fn listed_added() -> Option<&'static [TagTree]> {
        Self::ADDED
    }

    fn listed_names() -> &'static [&'static str] {
        Self::NAMES
    }

    fn choice_shape(alloc: Global) -> Result<Shape, OutOfMemory> {
        let mut alternatives = AlternativeShapes::new(alloc);
        alternatives.alternative::<u16>("sensor", SENSOR)?;
        alternatives.alternative::<String>("operator", OPERATOR)?;
        alternatives.alternative::<()>("unknown", UNKNOWN)?;
        Ok(alternatives.choice())
    }

    fn alternative_place(&self) -> usize {
        match self {
            Origin::Sensor(_) => 0,
            Origin::Operator(_) => 1,
            Origin::Unknown => 2,
        }
    }

    fn write_alternative<E: Encoder>(&self, encoder: &mut E) -> Result<(), EncodeError> {
        match self {
            Origin::Sensor(number) => number.encode(encoder),
            Origin::Operator(name) => name.encode(encoder),
            Origin::Unknown => ().encode(encoder),
        }
    }

    fn read_alternative<D: Decoder>(decoder: &mut D, place: usize) -> Result<Origin, DecodeError> {
        match place {
            0 => Ok(Origin::Sensor(u16::decode(decoder)?)),
            1 => Ok(Origin::Operator(String::decode(decoder)?)),
            2 => {
                <()>::decode(decoder)?;
                Ok(Origin::Unknown)
            }
            _ => Err(DecodeError::no_valid_choice("Origin", decoder.codec())),
        }
    }

    ghost is_chosen = { elim [ Sensor number ↦ refl | Operator name ↦ refl | Unknown ↦ refl ] };

    ghost readable = { refl };
}
