//! Describes OBJECT IDENTIFIER.
ghost use Rattle.asn_model.specs.Shape.{Shape as AbstractShape};
ghost use Rattle.asn_model.specs.Value.{Value};
ghost use Rattle.std.specs.Prelude.{refl};

use crate::{DescribeKind, OfKind, PlainKind};
use asn_core::{ObjectIdentifier, OutOfMemory, Tag, TagTree};
use asn_model::Shape;
use std::alloc::Global;

impl OfKind for ObjectIdentifier {
    type Kind = PlainKind;
}

/// Describes OBJECT IDENTIFIER (X.680, section 32).
impl DescribeKind<ObjectIdentifier> for PlainKind {
    const TAG: Tag = Tag::OBJECT_IDENTIFIER;

    ghost shape = { AbstractShape.oid };

    ghost value = { Value.arcs };

    fn shape_as(_alloc: Global) -> Result<Shape, OutOfMemory> {
        Ok(Shape::Oid)
    }

    fn tags_as() -> (Tag, TagTree, bool) {
        (
            Tag::OBJECT_IDENTIFIER,
            TagTree::Leaf(Tag::OBJECT_IDENTIFIER),
            false,
        )
    }

    ghost own_size = { refl };

    ghost own_value = { λ x. refl };

    ghost readable = { refl };
}
