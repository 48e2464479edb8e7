//! Defines a bit string of a fixed size.
ghost use Rattle.asn_sample_fields.specs.ConstrainedBitString.{constrained_bit_string_shape};
ghost use Rattle.asn_sample_fields.specs.ConstrainedBitString.{constrained_bit_string_value};
ghost use Rattle.std.specs.Prelude.{refl};

use asn_core::{
    Bits, Bounded, Constraint, Constraints, Extensible, Identifier, OutOfMemory, Size, Tag, TagTree,
};
use asn_fault::{DecodeError, EncodeError};
use asn_traits::{AsnType, Decode, Decoder, Encode, Encoder, Shape};
use std::alloc::Global;

/// `ConstrainedBitString ::= BIT STRING (SIZE(3))`
#[derive(Debug, PartialEq, Eq, Drop)]
pub struct ConstrainedBitString {
    /// Holds the bits.
    pub bits: Bits,
}

/// Exactly three bits.
const THREE_BITS: &'static [Constraint] = &[Constraint::Size(Extensible {
    constraint: Size {
        bounds: Bounded::Single(3),
    },
    extensible: false,
})];

impl AsnType for ConstrainedBitString {
    const TAG: Tag = Tag::BIT_STRING;

    const TAG_TREE: TagTree = TagTree::Leaf(Tag::BIT_STRING);

    const CONSTRAINTS: Constraints = Constraints { items: THREE_BITS };

    const IS_CHOICE: bool = false;

    ghost shape_of = { constrained_bit_string_shape };

    ghost value_of = { constrained_bit_string_value };

    fn tag_table() -> (Tag, TagTree, bool) {
        (Self::TAG, Self::TAG_TREE, Self::IS_CHOICE)
    }

    fn constraint_table() -> Constraints {
        Self::CONSTRAINTS
    }

    fn shape(_alloc: Global) -> Result<Shape, OutOfMemory> {
        Ok(Shape::Bits { fixed: Some(3) })
    }

    ghost readable = { refl };
}

impl Encode for ConstrainedBitString {
    fn encode_with_tag_and_constraints<E: Encoder>(
        &self,
        encoder: &mut E,
        tag: Tag,
        constraints: &Constraints,
        identifier: Identifier,
    ) -> Result<(), EncodeError> {
        encoder.encode_bit_string(tag, constraints, &self.bits, identifier)
    }
}

impl Decode for ConstrainedBitString {
    fn decode_with_tag_and_constraints<D: Decoder>(
        decoder: &mut D,
        tag: Tag,
        constraints: &Constraints,
    ) -> Result<ConstrainedBitString, DecodeError> {
        let bits = decoder.decode_bit_string(tag, constraints)?;
        Ok(ConstrainedBitString { bits })
    }
}
