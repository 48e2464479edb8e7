//! Describes types that hand on to another: what is written and read is the other's, under the
//! tag and the constraints of the call. The rank of each is above that of the type within.
ghost use Rattle.asn_sample_trees.specs.Wrap.{wrap_1_value, wrap_2_value};
ghost use Rattle.asn_coding.specs.Terms.{unsigned};
ghost use Rattle.std.specs.Prelude.{refl};

use asn_core::{Constraints, Identifier, OutOfMemory, Tag, TagTree};
use asn_fault::{DecodeError, EncodeError};
use asn_traits::{AsnType, Decode, Decoder, Encode, Encoder, Shape};
use std::alloc::Global;

/// Is `Wrap1 ::= INTEGER (0..255)`, by way of `u8`. The program has no name for it.
#[derive(Debug, PartialEq, Eq, Drop)]
pub struct Wrap1(pub u8);

/// Is `Wrap2 ::= Wrap1`. The program has no name for it.
#[derive(Debug, PartialEq, Eq, Drop)]
pub struct Wrap2(pub Wrap1);

/// States the tag, the shape and the values of `u8`.
impl AsnType for Wrap1 {
    const TAG: Tag = Tag::INTEGER;

    const TAG_TREE: TagTree = TagTree::Leaf(Tag::INTEGER);

    const IS_CHOICE: bool = false;

    const RANK: u32 = 1;

    ghost shape_of = { unsigned 8 };

    ghost value_of = { wrap_1_value };

    fn tag_table() -> (Tag, TagTree, bool) {
        (Self::TAG, Self::TAG_TREE, Self::IS_CHOICE)
    }

    fn constraint_table() -> Constraints {
        Self::CONSTRAINTS
    }

    fn shape(alloc: Global) -> Result<Shape, OutOfMemory> {
        u8::shape(alloc)
    }

    ghost readable = { refl };
}

/// Encodes what is within.
impl Encode for Wrap1 {
    fn encode_with_tag_and_constraints<E: Encoder>(
        &self,
        encoder: &mut E,
        tag: Tag,
        constraints: &Constraints,
        identifier: Identifier,
    ) -> Result<(), EncodeError> {
        self.0
            .encode_with_tag_and_constraints(encoder, tag, constraints, identifier)
    }
}

/// Decodes what is within.
impl Decode for Wrap1 {
    fn decode_with_tag_and_constraints<D: Decoder>(
        decoder: &mut D,
        tag: Tag,
        constraints: &Constraints,
    ) -> Result<Wrap1, DecodeError> {
        let within = u8::decode_with_tag_and_constraints(decoder, tag, constraints)?;
        Ok(Wrap1(within))
    }
}

/// States the tag, the shape and the values of `Wrap1`.
impl AsnType for Wrap2 {
    const TAG: Tag = Tag::INTEGER;

    const TAG_TREE: TagTree = TagTree::Leaf(Tag::INTEGER);

    const IS_CHOICE: bool = false;

    const RANK: u32 = 2;

    ghost shape_of = { unsigned 8 };

    ghost value_of = { wrap_2_value };

    fn tag_table() -> (Tag, TagTree, bool) {
        (Self::TAG, Self::TAG_TREE, Self::IS_CHOICE)
    }

    fn constraint_table() -> Constraints {
        Self::CONSTRAINTS
    }

    fn shape(alloc: Global) -> Result<Shape, OutOfMemory> {
        Wrap1::shape(alloc)
    }

    ghost readable = { refl };
}

/// Encodes what is within.
impl Encode for Wrap2 {
    fn encode_with_tag_and_constraints<E: Encoder>(
        &self,
        encoder: &mut E,
        tag: Tag,
        constraints: &Constraints,
        identifier: Identifier,
    ) -> Result<(), EncodeError> {
        self.0
            .encode_with_tag_and_constraints(encoder, tag, constraints, identifier)
    }
}

/// Decodes what is within.
impl Decode for Wrap2 {
    fn decode_with_tag_and_constraints<D: Decoder>(
        decoder: &mut D,
        tag: Tag,
        constraints: &Constraints,
    ) -> Result<Wrap2, DecodeError> {
        let within = Wrap1::decode_with_tag_and_constraints(decoder, tag, constraints)?;
        Ok(Wrap2(within))
    }
}
