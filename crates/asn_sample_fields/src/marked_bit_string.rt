//! Defines a bit string with an extension marker after its size, which is so not fixed.
ghost use Rattle.asn_sample_fields.specs.MarkedBitString.{marked_bit_string_shape};
ghost use Rattle.asn_sample_fields.specs.MarkedBitString.{marked_bit_string_value};
ghost use Rattle.std.specs.Prelude.{refl};

use asn_core::{
    Bits, Bounded, Constraint, Constraints, Extensible, Identifier, OutOfMemory, Size, Tag, TagTree,
};
use asn_fault::{DecodeError, EncodeError};
use asn_traits::{AsnType, Decode, Decoder, Encode, Encoder, Shape};
use std::alloc::Global;

/// `MarkedBitString ::= BIT STRING (SIZE(3), ...)`
#[derive(Debug, PartialEq, Eq, Drop)]
pub struct MarkedBitString {
    /// Holds the bits.
    pub bits: Bits,
}

/// Exactly three bits, by the size, and an extension marker beside it.
const THREE_BITS_AND_MARKER: &'static [Constraint] = &[
    Constraint::Size(Extensible {
        constraint: Size {
            bounds: Bounded::Single(3),
        },
        extensible: false,
    }),
    Constraint::Extensible,
];

impl AsnType for MarkedBitString {
    const TAG: Tag = Tag::BIT_STRING;

    const TAG_TREE: TagTree = TagTree::Leaf(Tag::BIT_STRING);

    const CONSTRAINTS: Constraints = Constraints {
        items: THREE_BITS_AND_MARKER,
    };

    const IS_CHOICE: bool = false;

    ghost shape_of = { marked_bit_string_shape };

    ghost value_of = { marked_bit_string_value };

    fn tag_table() -> (Tag, TagTree, bool) {
        (Self::TAG, Self::TAG_TREE, Self::IS_CHOICE)
    }

    fn constraint_table() -> Constraints {
        Self::CONSTRAINTS
    }

    fn shape(_alloc: Global) -> Result<Shape, OutOfMemory> {
        Ok(Shape::Bits { fixed: None })
    }

    ghost readable = { refl };
}

impl Encode for MarkedBitString {
    fn encode_with_tag_and_constraints<E: Encoder>(
        &self,
        encoder: &mut E,
        tag: Tag,
        constraints: &Constraints,
        identifier: Identifier,
    ) -> Result<(), EncodeError> {
        encoder.encode_bit_string(tag, constraints, &self.bits, identifier)
    }
}

impl Decode for MarkedBitString {
    fn decode_with_tag_and_constraints<D: Decoder>(
        decoder: &mut D,
        tag: Tag,
        constraints: &Constraints,
    ) -> Result<MarkedBitString, DecodeError> {
        let bits = decoder.decode_bit_string(tag, constraints)?;
        Ok(MarkedBitString { bits })
    }
}
