//! Describes a SEQUENCE OF itself, the sample of a type that its own parts name. It has no kind,
//! so it implements the three traits itself, over the primitive calls of the coders; its proofs
//! are in `proofs/`.
ghost use Rattle.asn_sample_trees.specs.Nest.{nest_shape, nest_value};
ghost use Rattle.std.specs.Prelude.{refl};

use asn_core::{Constraints, Identifier, OutOfMemory, Tag, TagTree};
use asn_fault::{DecodeError, EncodeError};
use asn_traits::{AsnType, Decode, Decoder, Encode, Encoder, SeqKind, Shape};
use std::alloc::Global;

/// Is `Nest ::= SEQUENCE OF Nest`: a list of lists, of any depth, without anything else in them.
#[derive(Drop)]
pub struct Nest(pub Vec<Nest>);

/// States the tag, the shape and the values of the type.
impl AsnType for Nest {
    const TAG: Tag = Tag::SEQUENCE;

    const TAG_TREE: TagTree = TagTree::Leaf(Tag::SEQUENCE);

    const IS_CHOICE: bool = false;

    ghost shape_of = { nest_shape };

    ghost value_of = { nest_value };

    // The tags of the shape are those of a SEQUENCE OF; a wrong one is refused here.
    fn tag_table() -> (Tag, TagTree, bool) {
        (Self::TAG, Self::TAG_TREE, Self::IS_CHOICE)
    }

    fn constraint_table() -> Constraints {
        Self::CONSTRAINTS
    }

    // A loop round a list, whose elements are what the loop is: `Back(0)` is the nearest loop.
    fn shape(alloc: Global) -> Result<Shape, OutOfMemory> {
        let element = Box::new(alloc, Shape::Back(0))?;
        let list = Box::new(alloc, Shape::ListOf(element))?;
        Ok(Shape::Loop(list))
    }

    // The loop has a list between itself and its `Back`, so reading it ends.
    ghost readable = { refl };
}

/// Encodes a list: opens a frame, encodes each element into it, and closes the frame as a list.
impl Encode for Nest {
    // The mark names the recursion: the method calls itself for each element.
    #[cycle(nest_encode)]
    fn encode_with_tag_and_constraints<E: Encoder>(
        &self,
        encoder: &mut E,
        tag: Tag,
        constraints: &Constraints,
        identifier: Identifier,
    ) -> Result<(), EncodeError> {
        encoder.open_frame()?;
        // Each element adds one slot to the frame, as every value does.
        for item in &self.0 {
            item.encode_with_tag_and_constraints(encoder, tag, constraints, identifier)?;
        }
        encoder.close_list()
    }
}

/// Decodes a list: opens it, which puts a slot for each element before the pending ones, and
/// decodes the elements. It goes over the primitives, since a call through a bound can't lead back
/// to a type's own `Decode`.
impl Decode for Nest {
    #[cycle(nest_decode)]
    fn decode_with_tag_and_constraints<D: Decoder>(
        decoder: &mut D,
        tag: Tag,
        constraints: &Constraints,
    ) -> Result<Nest, DecodeError> {
        // Each element has fewer nodes than the list, which is why the recursion ends.
        let count = decoder.open_list(SeqKind::Sequence)?;
        let Ok(mut items) = Vec::with_capacity(decoder.allocator(), count) else {
            return Err(DecodeError::out_of_memory(decoder.codec()));
        };
        for i in 0..count {
            let item = Self::decode_with_tag_and_constraints(decoder, tag, constraints)?;
            // There is room for the element already, so this takes no memory.
            let Ok(()) = items.push(item) else {
                return Err(DecodeError::out_of_memory(decoder.codec()));
            };
        }
        Ok(Nest(items))
    }
}
