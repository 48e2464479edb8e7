//! Defines a bit string whose size later versions may admit more of, which is so not fixed.
ghost use Rattle.asn_sample_fields.specs.ExtensibleBitString.{extensible_bit_string_shape};
ghost use Rattle.asn_sample_fields.specs.ExtensibleBitString.{extensible_bit_string_value};
ghost use Rattle.std.specs.Prelude.{refl};

use asn_core::{
    Bits, Bounded, Constraint, Constraints, Extensible, Identifier, OutOfMemory, Size, Tag, TagTree,
};
use asn_fault::{DecodeError, EncodeError};
use asn_traits::{AsnType, Decode, Decoder, Encode, Encoder, Shape};
use std::alloc::Global;

/// `ExtensibleBitString ::= BIT STRING (SIZE(3, ...))`
#[derive(Debug, PartialEq, Eq, Drop)]
pub struct ExtensibleBitString {
    /// Holds the bits.
    pub bits: Bits,
}

/// Three bits, or any other number by the extension marker of the size.
const THREE_BITS_OR_MORE: &'static [Constraint] = &[Constraint::Size(Extensible {
    constraint: Size {
        bounds: Bounded::Single(3),
    },
    extensible: true,
})];

impl AsnType for ExtensibleBitString {
    const TAG: Tag = Tag::BIT_STRING;

    const TAG_TREE: TagTree = TagTree::Leaf(Tag::BIT_STRING);

    const CONSTRAINTS: Constraints = Constraints {
        items: THREE_BITS_OR_MORE,
    };

    const IS_CHOICE: bool = false;

    ghost shape_of = { extensible_bit_string_shape };

    ghost value_of = { extensible_bit_string_value };

    fn tag_table() -> (Tag, TagTree, bool) {
        (Self::TAG, Self::TAG_TREE, Self::IS_CHOICE)
    }

    fn constraint_table() -> Constraints {
        Self::CONSTRAINTS
    }

    fn shape(_alloc: Global) -> Result<Shape, OutOfMemory> {
        Ok(Shape::Bits { fixed: None })
    }

    ghost readable = { refl };
}

impl Encode for ExtensibleBitString {
    fn encode_with_tag_and_constraints<E: Encoder>(
        &self,
        encoder: &mut E,
        tag: Tag,
        constraints: &Constraints,
        identifier: Identifier,
    ) -> Result<(), EncodeError> {
        encoder.encode_bit_string(tag, constraints, &self.bits, identifier)
    }
}

impl Decode for ExtensibleBitString {
    fn decode_with_tag_and_constraints<D: Decoder>(
        decoder: &mut D,
        tag: Tag,
        constraints: &Constraints,
    ) -> Result<ExtensibleBitString, DecodeError> {
        let bits = decoder.decode_bit_string(tag, constraints)?;
        Ok(ExtensibleBitString { bits })
    }
}
