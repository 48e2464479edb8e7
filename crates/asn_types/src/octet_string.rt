//! Describes the types whose values are octets.
ghost use Rattle.asn_model.specs.Shape.{Shape as AbstractShape};
ghost use Rattle.asn_model.specs.Value.{Value};
ghost use Rattle.std.specs.Prelude.{refl};

use crate::{DescribeKind, OfKind, PlainKind};
use asn_core::{Any, OctetString, OutOfMemory, Tag, TagTree};
use asn_model::Shape;
use std::alloc::Global;

impl OfKind for OctetString {
    type Kind = PlainKind;
}

/// Describes OCTET STRING (X.680, section 23).
impl DescribeKind<OctetString> for PlainKind {
    const TAG: Tag = Tag::OCTET_STRING;

    ghost shape = { AbstractShape.octets };

    ghost value = { Value.octets };

    fn shape_as(_alloc: Global) -> Result<Shape, OutOfMemory> {
        Ok(Shape::Octets)
    }

    fn tags_as() -> (Tag, TagTree, bool) {
        (Tag::OCTET_STRING, TagTree::Leaf(Tag::OCTET_STRING), false)
    }

    ghost own_size = { refl };

    ghost own_value = { λ x. refl };

    ghost readable = { refl };
}

impl OfKind for Any {
    type Kind = PlainKind;
}

/// Describes a value of any type, which no tag tells (X.681, section 14).
impl DescribeKind<Any> for PlainKind {
    const TAG: Tag = Tag::EOC;

    ghost shape = { AbstractShape.any };

    ghost value = { Value.octets };

    fn shape_as(_alloc: Global) -> Result<Shape, OutOfMemory> {
        Ok(Shape::Any)
    }

    fn tags_as() -> (Tag, TagTree, bool) {
        (Tag::EOC, TagTree::Leaf(Tag::EOC), false)
    }

    ghost own_size = { refl };

    ghost own_value = { λ x. refl };

    ghost readable = { refl };
}
