//! Describes SET OF (X.680, section 28) by the multisets of `asn_multisets`, for elements that are
//! equal exactly where their values are.
ghost use Rattle.asn_model.specs.Shape.{Shape as AbstractShape};
ghost use Rattle.asn_model.specs.Value.{Value, bag_of, values};
ghost use Rattle.asn_integers.specs.SetElements.{flags_alike, numbers_alike, texts_alike};
ghost use Rattle.std.specs.Prelude.{◌≡◌, ◌↔◌, refl, true};

use crate::{AsnType, DescribeKind, IntegerKind, OfKind, PlainKind};
use asn_core::{OutOfMemory, Tag, TagTree};
use asn_integers::IntegerType;
use asn_model::Shape;
use asn_multisets::{Counts, Multiset};
use std::alloc::Global;
use std::hash::Hash;

/// Is a type whose values may be the elements of a SET OF.
pub trait SetElement: AsnType + Eq + Hash + Drop {
    // Two are equal exactly where the values that they stand for are.
    ghost same: { (a b : Self) → (Self.PartialEq.eq a b ≡ true)
        ↔ (Self.value_of a ≡ Self.value_of b) };
}

/// Lets values of the types of a kind be elements.
pub trait ElementKind<T: AsnType + Eq> {
    // Two are equal exactly where the values that they stand for are.
    ghost same: { (a b : T) → (T.PartialEq.eq a b ≡ true) ↔ (T.value_of a ≡ T.value_of b) };
}

/// Lets values of a type be elements as its kind does.
impl<T: OfKind + AsnType + Eq + Hash + Drop> SetElement for T
where
    T::Kind: ElementKind<T>,
{
    ghost same = { T.Kind.same };
}

/// Lets numbers be elements.
impl<I: IntegerType + OfKind<Kind = IntegerKind>> ElementKind<I> for IntegerKind {
    ghost same = { numbers_alike I.PartialEq.eq I.number I.alike };
}

/// Lets flags be elements.
impl ElementKind<bool> for PlainKind {
    ghost same = { flags_alike };
}

/// Lets texts be elements.
impl ElementKind<String> for PlainKind {
    ghost same = { texts_alike };
}

impl<T: Eq + Hash + Drop, M: Counts<T>> OfKind for Multiset<T, M> {
    type Kind = PlainKind;
}

/// Describes SET OF (X.680, section 28).
impl<T: SetElement, M: Counts<T>> DescribeKind<Multiset<T, M>> for PlainKind {
    const TAG: Tag = Tag::SET;

    ghost shape = { AbstractShape.set_of T.shape_of };

    ghost value = { λ set. bag_of (values T.value_of set) };

    fn shape_as(alloc: Global) -> Result<Shape, OutOfMemory> {
        let element = Box::new(alloc, T::shape(alloc)?)?;
        Ok(Shape::SetOf(element))
    }

    fn tags_as() -> (Tag, TagTree, bool) {
        (Tag::SET, TagTree::Leaf(Tag::SET), false)
    }

    ghost own_size = { refl };

    ghost own_value = { λ x. refl };

    ghost readable = { T.readable };
}
