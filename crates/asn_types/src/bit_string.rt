//! Describes BIT STRING.
ghost use Rattle.asn_model.specs.Shape.{Shape as AbstractShape};
ghost use Rattle.asn_model.specs.Value.{Value};
ghost use Rattle.std.specs.Prelude.{None, refl};

use crate::{DescribeKind, OfKind, PlainKind};
use asn_core::{Bits, OutOfMemory, Tag, TagTree};
use asn_model::Shape;
use std::alloc::Global;

impl OfKind for Bits {
    type Kind = PlainKind;
}

/// Describes BIT STRING (X.680, section 22).
impl DescribeKind<Bits> for PlainKind {
    const TAG: Tag = Tag::BIT_STRING;

    ghost shape = { AbstractShape.bits None };

    ghost value = { λ bits. Value.bits bits None };

    fn shape_as(_alloc: Global) -> Result<Shape, OutOfMemory> {
        Ok(Shape::Bits { fixed: None })
    }

    fn tags_as() -> (Tag, TagTree, bool) {
        (Tag::BIT_STRING, TagTree::Leaf(Tag::BIT_STRING), false)
    }

    ghost own_size = { refl };

    ghost own_value = { λ x. refl };

    ghost readable = { refl };
}
