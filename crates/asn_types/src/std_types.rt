//! Describes the language's own types, but for the integers: each states its tag, its shape and its
//! values.
ghost use Rattle.asn_model.specs.Shape.{Shape as AbstractShape, Alphabet as AbstractAlphabet};
ghost use Rattle.asn_model.specs.Value.{Value, values};
ghost use Rattle.std.specs.Prelude.{refl, string_bytes};

use crate::{AsnType, DescribeKind, OfKind, PlainKind};
use asn_core::{OutOfMemory, Tag, TagTree};
use asn_model::{Alphabet, Shape};
use std::alloc::Global;

impl OfKind for bool {
    type Kind = PlainKind;
}

/// Describes BOOLEAN (X.680, section 18).
impl DescribeKind<bool> for PlainKind {
    const TAG: Tag = Tag::BOOL;

    ghost shape = { AbstractShape.boolean };

    ghost value = { Value.boolean };

    fn shape_as(_alloc: Global) -> Result<Shape, OutOfMemory> {
        Ok(Shape::Bool)
    }

    fn tags_as() -> (Tag, TagTree, bool) {
        (Tag::BOOL, TagTree::Leaf(Tag::BOOL), false)
    }

    ghost own_size = { refl };

    ghost own_value = { λ x. refl };

    ghost readable = { refl };
}

impl OfKind for () {
    type Kind = PlainKind;
}

/// Describes NULL (X.680, section 24).
impl DescribeKind<()> for PlainKind {
    const TAG: Tag = Tag::NULL;

    ghost shape = { AbstractShape.null };

    ghost value = { λ u. Value.null };

    fn shape_as(_alloc: Global) -> Result<Shape, OutOfMemory> {
        Ok(Shape::Null)
    }

    fn tags_as() -> (Tag, TagTree, bool) {
        (Tag::NULL, TagTree::Leaf(Tag::NULL), false)
    }

    ghost own_size = { refl };

    ghost own_value = { λ x. refl };

    ghost readable = { refl };
}

impl OfKind for String {
    type Kind = PlainKind;
}

/// Describes UTF8String (X.680, section 41). Every text is one.
impl DescribeKind<String> for PlainKind {
    const TAG: Tag = Tag::UTF8_STRING;

    ghost shape = { AbstractShape.text AbstractAlphabet.utf8 };

    ghost value = { λ s. Value.text (string_bytes s) };

    fn shape_as(_alloc: Global) -> Result<Shape, OutOfMemory> {
        Ok(Shape::Str {
            alphabet: Alphabet::Utf8,
        })
    }

    fn tags_as() -> (Tag, TagTree, bool) {
        (Tag::UTF8_STRING, TagTree::Leaf(Tag::UTF8_STRING), false)
    }

    ghost own_size = { refl };

    ghost own_value = { λ x. refl };

    ghost readable = { refl };
}

impl<T> OfKind for Vec<T> {
    type Kind = PlainKind;
}

/// Describes SEQUENCE OF (X.680, section 26).
impl<T: AsnType> DescribeKind<Vec<T>> for PlainKind {
    const TAG: Tag = Tag::SEQUENCE;

    ghost shape = { AbstractShape.list_of T.shape_of };

    ghost value = { λ v. Value.list (values T.value_of v.items) };

    fn shape_as(alloc: Global) -> Result<Shape, OutOfMemory> {
        let element = Box::new(alloc, T::shape(alloc)?)?;
        Ok(Shape::ListOf(element))
    }

    fn tags_as() -> (Tag, TagTree, bool) {
        (Tag::SEQUENCE, TagTree::Leaf(Tag::SEQUENCE), false)
    }

    ghost own_size = { refl };

    ghost own_value = { λ x. refl };

    ghost readable = { T.readable };
}
