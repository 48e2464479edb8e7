//! Describes the types of a kind alike. A type states its kind once (`OfKind`) and implements the
//! trait of that kind; the impls here go over the kind, since blanket impls for the types of each
//! of these traits would overlap. So what a kind has of its types is stated by traits of the kind,
//! of which a crate above gives its own kinds theirs.
ghost use Rattle.asn_coding.specs.OwnTag.{HasTags};
ghost use Rattle.asn_coding.specs.Tables.{added_rows, added_tags, field_rows, root_tags, rows_of};
ghost use Rattle.asn_coding.specs.Tables.{smallest_tags};
ghost use Rattle.asn_model.specs.Readable.{is_readable};
ghost use Rattle.asn_model.specs.Shape.{Shape as AbstractShape, SeqKind, Fields as FieldShapes};
ghost use Rattle.asn_model.specs.Shape.{FieldAdditions, Alternatives, AlternativeAdditions};
ghost use Rattle.asn_model.specs.Shape.{all_alternatives, identifiers, opened, shape_under};
ghost use Rattle.asn_model.specs.ShapeView.{shape_view};
ghost use Rattle.asn_model.specs.Value.{Value, value_under};
ghost use Rattle.std.specs.Prelude.{◌≡◌, None, map, option_map, pos, true, refl, IfOk};

use crate::{AsnType, Choice, Constructed, Enumerated};
use asn_coding::{Fields, enumerated_shape};
use asn_core::{Constraints, OutOfMemory, Tag, TagTree};
use asn_integers::IntegerType;
use asn_model::Shape;
use std::alloc::Global;

/// Gives a type its kind: all types of a kind are described, encoded and decoded alike.
pub trait OfKind: Sized {
    /// Names the kind: `SequenceKind`, `SetKind`, `ChoiceKind`, `EnumeratedKind`, `IntegerKind`,
    /// `TextKind` or `PlainKind`.
    type Kind;
}

/// States what a kind has of each of its types: the members of `AsnType`.
pub trait DescribeKind<T> {
    /// Holds the universal tag, and `EOC` for a CHOICE.
    const TAG: Tag;

    /// Holds the tags that a value may begin with.
    const TAG_TREE: TagTree = TagTree::Leaf(Self::TAG);

    /// States whether the kind is that of CHOICE types.
    const IS_CHOICE: bool = false;

    // The shape of a type, and the value that a Rust value of it stands for.
    ghost shape: { AbstractShape };

    ghost value: { T → Value };

    /// Returns the shape of the type, as a value.
    ///
    /// # Errors
    ///
    /// `OutOfMemory` alone.
    fn shape_as(alloc: Global) -> Result<Shape, OutOfMemory>
        ensures { IfOk result (λ s. shape_view s ≡ shape) };

    /// Returns the values of `TAG`, `TAG_TREE` and `IS_CHOICE`, which are those of the shape.
    fn tags_as() -> (Tag, TagTree, bool)
        ensures { HasTags shape result };

    // Where constraints fix no size, they change neither the shape nor the values.
    ghost own_size: { shape_under None shape ≡ shape };

    ghost own_value: { (x : T) → value_under None shape (value x) ≡ value x };

    // The shape can be read.
    ghost readable: { is_readable shape ≡ true };
}

/// Describes a type as its kind does.
impl<T: OfKind> AsnType for T
where
    T::Kind: DescribeKind<T>,
{
    const TAG: Tag = <T::Kind as DescribeKind<T>>::TAG;

    const TAG_TREE: TagTree = <T::Kind as DescribeKind<T>>::TAG_TREE;

    const IS_CHOICE: bool = <T::Kind as DescribeKind<T>>::IS_CHOICE;

    ghost shape_of = { T.Kind.shape };

    ghost value_of = { T.Kind.value };

    fn tag_table() -> (Tag, TagTree, bool) {
        <T::Kind as DescribeKind<T>>::tags_as()
    }

    fn constraint_table() -> Constraints {
        Constraints::NONE
    }

    fn shape(alloc: Global) -> Result<Shape, OutOfMemory> {
        <T::Kind as DescribeKind<T>>::shape_as(alloc)
    }

    ghost readable = { T.Kind.readable };
}

/// States what a kind of SEQUENCE or SET types has of each of them: the members of `Constructed`.
pub trait FieldTableKind<T>: DescribeKind<T> {
    /// Lists the root fields, in order.
    const FIELDS: Fields;

    /// Lists the extension additions, in order, and is `None` exactly where there is no extension
    /// marker.
    const EXTENDED_FIELDS: Option<Fields>;

    // SEQUENCE or SET.
    ghost kind: { SeqKind };

    // The root fields of the shape, and its extension additions.
    ghost fields: { FieldShapes };

    ghost added: { FieldAdditions };

    /// Returns `FIELDS`, which states of the shape's fields their places, smallest tags, presence
    /// and names.
    fn fields_as() -> Fields
        ensures { rows_of result.items.now ≡ field_rows 0 fields };

    /// Returns `EXTENDED_FIELDS`, which states the same of the shape's extension additions.
    fn extended_fields_as() -> Option<Fields>
        ensures { option_map (λ t. rows_of t.items.now) result ≡ added_rows fields added };

    // The shape is that of these fields.
    ghost of_fields: { opened Self.shape ≡ AbstractShape.seq kind fields added };
}

/// Takes the tables of a SEQUENCE or SET from its kind.
impl<T: OfKind> Constructed for T
where
    T::Kind: FieldTableKind<T>,
{
    const FIELDS: Fields = <T::Kind as FieldTableKind<T>>::FIELDS;

    const EXTENDED_FIELDS: Option<Fields> = <T::Kind as FieldTableKind<T>>::EXTENDED_FIELDS;

    ghost kind = { T.Kind.kind };

    ghost fields = { T.Kind.fields };

    ghost added = { T.Kind.added };

    fn field_table() -> Fields {
        <T::Kind as FieldTableKind<T>>::fields_as()
    }

    fn extended_field_table() -> Option<Fields> {
        <T::Kind as FieldTableKind<T>>::extended_fields_as()
    }

    ghost of_fields = { T.Kind.of_fields };
}

/// States what a kind of CHOICE types has of each of them: the members of `Choice`.
pub trait VariantTableKind<T>: DescribeKind<T> {
    /// Lists the tags that the alternatives of the root may begin with.
    const VARIANTS: &'static [TagTree];

    /// Lists those of the alternatives after the extension marker, if there is one.
    const EXTENDED_VARIANTS: Option<&'static [TagTree]>;

    /// Lists the identifiers of all alternatives, extension additions last.
    const IDENTIFIERS: &'static [&'static str];

    // The alternatives of the shape, and its extension additions.
    ghost alternatives: { Alternatives };

    ghost added: { AlternativeAdditions };

    /// Returns `VARIANTS`, whose smallest tags are those of the shape's root.
    fn variants_as() -> &'static [TagTree]
        ensures { smallest_tags result.now ≡ root_tags alternatives };

    /// Returns `EXTENDED_VARIANTS`, whose smallest tags are those of the shape's additions.
    fn extended_variants_as() -> Option<&'static [TagTree]>
        ensures { option_map (λ t. smallest_tags t.now) result ≡ added_tags added };

    /// Returns `IDENTIFIERS`, which are those of the shape.
    fn identifiers_as() -> &'static [&'static str]
        ensures { map (λ s. s.now) result.now ≡ identifiers
            (all_alternatives alternatives added) };

    // The shape is that of these alternatives.
    ghost of_alternatives: { opened Self.shape ≡ AbstractShape.choice alternatives added };
}

/// Takes the tables of a CHOICE from its kind.
impl<T: OfKind> Choice for T
where
    T::Kind: VariantTableKind<T>,
{
    const VARIANTS: &'static [TagTree] = <T::Kind as VariantTableKind<T>>::VARIANTS;

    const EXTENDED_VARIANTS: Option<&'static [TagTree]> = <T::Kind as VariantTableKind<
        T,
    >>::EXTENDED_VARIANTS;

    const IDENTIFIERS: &'static [&'static str] = <T::Kind as VariantTableKind<T>>::IDENTIFIERS;

    ghost alternatives = { T.Kind.alternatives };

    ghost added = { T.Kind.added };

    fn variant_table() -> &'static [TagTree] {
        <T::Kind as VariantTableKind<T>>::variants_as()
    }

    fn extended_variant_table() -> Option<&'static [TagTree]> {
        <T::Kind as VariantTableKind<T>>::extended_variants_as()
    }

    fn identifier_table() -> &'static [&'static str] {
        <T::Kind as VariantTableKind<T>>::identifiers_as()
    }

    ghost of_alternatives = { T.Kind.of_alternatives };
}

/// Names the kind of the types of the language and of the crates below for which a coder has a call
/// each, but for the integers.
pub struct PlainKind;

/// Names the kind of the integer types of the language.
pub struct IntegerKind;

/// Describes INTEGER of the range of the Rust type.
impl<I: IntegerType> DescribeKind<I> for IntegerKind {
    const TAG: Tag = Tag::INTEGER;

    ghost shape = { AbstractShape.int I.LEAST (pos I.GREATEST) I.WIDTH };

    ghost value = { λ n. Value.int (I.number n) };

    fn shape_as(_alloc: Global) -> Result<Shape, OutOfMemory> {
        Ok(Shape::Int {
            least: I::LEAST,
            greatest: I::GREATEST,
            width: I::WIDTH,
        })
    }

    fn tags_as() -> (Tag, TagTree, bool) {
        (Tag::INTEGER, TagTree::Leaf(Tag::INTEGER), false)
    }

    ghost own_size = { refl };

    ghost own_value = { λ x. refl };

    ghost readable = { I.narrow };
}

/// Names the kind of ENUMERATED types.
pub struct EnumeratedKind;

/// Describes an ENUMERATED type by its items.
impl<T: Enumerated> DescribeKind<T> for EnumeratedKind {
    const TAG: Tag = Tag::ENUMERATED;

    ghost shape = { AbstractShape.enum T.items T.added };

    ghost value = { λ x. Value.item (T.item x) };

    fn shape_as(alloc: Global) -> Result<Shape, OutOfMemory> {
        enumerated_shape(alloc, T::identifier_table(), T::extended_identifier_table())
    }

    fn tags_as() -> (Tag, TagTree, bool) {
        (Tag::ENUMERATED, TagTree::Leaf(Tag::ENUMERATED), false)
    }

    ghost own_size = { refl };

    ghost own_value = { λ x. refl };

    ghost readable = { T.readable };
}
