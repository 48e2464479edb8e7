//! Types whose values are texts in both notations: character strings, times and decimals.
ghost use Rattle.asn_model.specs.Leaf.{answer_kind, kind_of};
ghost use Rattle.asn_model.specs.Readable.{is_readable};
ghost use Rattle.asn_model.specs.Shape.{Shape as AbstractShape, shape_under};
ghost use Rattle.asn_model.specs.ShapeView.{shape_view};
ghost use Rattle.asn_model.specs.Value.{Value, value_under};
ghost use Rattle.asn_coding.specs.OwnTag.{HasTags};
ghost use Rattle.asn_types.specs.TextTypes.{MakesOfText};
ghost use Rattle.std.specs.Prelude.{◌≡◌, ℕ, None, Option, Some, string_bytes, true};

use crate::{DescribeKind, OfKind};
use asn_core::{Codec, OutOfMemory, Tag, TagTree};
use asn_fault::DecodeError;
use asn_model::{LeafKind, Shape};
use std::alloc::Global;

/// A type whose values are texts in both notations: a character string type (X.680, section 41), a
/// time type (X.680, sections 38, 46 and 47), or the decimals of a JSON document.
pub trait TextType: OfKind<Kind = TextKind> + Drop {
    /// The universal tag of the type.
    const TEXT_TAG: Tag;

    ghost shape: { AbstractShape };

    ghost value: { Self → Value };

    /// Returns `TEXT_TAG`, the tag tree of it alone, and false: they are those of the shape.
    fn text_tags() -> (Tag, TagTree, bool)
        ensures { HasTags shape result };

    /// Returns the shape of the type.
    fn text_shape() -> Shape
        ensures { shape_view result ≡ shape };

    /// Returns the kind by which the notations name what they need for the type.
    fn text_kind() -> LeafKind
        ensures of_shape { kind_of shape ≡ Some result }
        ensures text { answer_kind result ≡ LeafKind.Text };

    /// Returns the value of a text, for a decoder of this codec.
    ///
    /// # Errors
    ///
    /// Why the text is no value of the type; `OutOfMemory`.
    fn of_text(alloc: Global, text: String, codec: Codec) -> Result<Self, DecodeError>
        ensures { MakesOfText shape value codec (string_bytes text) result };

    // Constraints on sizes change nothing.
    ghost any_size: { (n : Option ℕ) → shape_under n shape ≡ shape };

    ghost any_value: { (n : Option ℕ) (x : Self) → value_under n shape (value x) ≡ value x };

    // The shape can be read.
    ghost readable: { is_readable shape ≡ true };
}

/// Character string types, time types and decimals.
pub struct TextKind;

impl<T: TextType> DescribeKind<T> for TextKind {
    const TAG: Tag = T::TEXT_TAG;

    ghost shape = { T.shape };

    ghost value = { T.value };

    fn shape_as(_alloc: Global) -> Result<Shape, OutOfMemory> {
        Ok(T::text_shape())
    }

    fn tags_as() -> (Tag, TagTree, bool) {
        T::text_tags()
    }

    ghost own_size = { T.any_size None };

    ghost own_value = { T.any_value None };

    ghost readable = { T.readable };
}
