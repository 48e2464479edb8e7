//! Defines what every ASN.1 type states of itself: its shape, its values and its tables of
//! constants. `AsnType` is the trait of all types; `Constructed`, `Choice` and `Enumerated` add the
//! tables of their kinds, each tied to the shape row by row by a call that returns it.
ghost use Rattle.asn_model.specs.Fixed.{fixed_size};
ghost use Rattle.asn_coding.specs.OwnTag.{HasTags};
ghost use Rattle.asn_model.specs.Readable.{is_readable};
ghost use Rattle.asn_model.specs.Shape.{Shape as AbstractShape, Fields as FieldShapes, SeqKind};
ghost use Rattle.asn_model.specs.Shape.{FieldAdditions, Alternatives, AlternativeAdditions};
ghost use Rattle.asn_model.specs.Shape.{all_alternatives, all_items, identifiers, is_item, opened};
ghost use Rattle.asn_model.specs.Shape.{shape_under};
ghost use Rattle.asn_model.specs.ShapeView.{shape_view};
ghost use Rattle.asn_model.specs.Value.{Value, value_under};
ghost use Rattle.asn_coding.specs.Tables.{rows_of, field_rows, added_rows, smallest_tags};
ghost use Rattle.asn_coding.specs.Tables.{root_tags, added_tags};
ghost use Rattle.std.specs.Prelude.{◌≡◌, ℕ, List, Option, map, option_map, true, false, IfOk};
ghost use Rattle.std.specs.Prelude.{MatchOption};

use crate::{EnumeratedKind, OfKind};
use asn_coding::Fields;
use asn_core::{Constraints, Identifier, OutOfMemory, Tag, TagTree};
use asn_model::Shape;
use std::alloc::Global;

/// Describes an ASN.1 type: its tags, its shape and the value that each Rust value stands for.
pub trait AsnType {
    /// Holds its tag, which is `EOC` for a CHOICE without one of its own and for a value of any
    /// type.
    const TAG: Tag;

    /// Holds the tags that its value may begin with.
    const TAG_TREE: TagTree;

    /// Holds its constraints (X.680, sections 49 to 51), of which only the size of a BIT STRING
    /// plays a part.
    const CONSTRAINTS: Constraints = Constraints::NONE;

    /// Holds the name that other encoding rules write for it. JER and AVN ignore it.
    const IDENTIFIER: Identifier = Identifier::EMPTY;

    /// States whether it is a CHOICE, whose tags are those of its alternatives.
    const IS_CHOICE: bool;

    /// Ranks the type above each type whose decoding is handed the same tree. No contract cites it:
    /// that each call returns is proved of its body.
    const RANK: u32 = 0;

    // The shape of the type.
    ghost shape_of: { AbstractShape };

    // The value that a Rust value stands for.
    ghost value_of: { Self → Value };

    /// Returns `TAG`, `TAG_TREE` and `IS_CHOICE`, which are those of the shape. A generic impl,
    /// whose own constants no proof sees, has their values once more here.
    fn tag_table() -> (Tag, TagTree, bool)
        ensures { HasTags shape_of result };

    /// Returns `CONSTRAINTS`. The type's own shape and values are those under them.
    fn constraint_table() -> Constraints
        ensures shape { shape_under (fixed_size result) shape_of ≡ shape_of }
        ensures value { (x : Self) → value_under (fixed_size result) shape_of
            (value_of x) ≡ value_of x };

    /// Returns the shape of the type, as a value that a program holds.
    ///
    /// # Errors
    ///
    /// `OutOfMemory` alone.
    fn shape(alloc: Global) -> Result<Shape, OutOfMemory>
        ensures { IfOk result (λ s. shape_view s ≡ shape_of) };

    // The shape can be read.
    ghost readable: { is_readable shape_of ≡ true };
}

/// Describes a SEQUENCE or SET (X.680, sections 25 and 27) by the tables of its fields.
pub trait Constructed: AsnType {
    /// Lists the root fields, in order.
    const FIELDS: Fields;

    /// Lists the extension additions, in order, and is `None` exactly where there is no extension
    /// marker.
    const EXTENDED_FIELDS: Option<Fields> = None;

    // SEQUENCE, unless the type states SET.
    ghost kind: { SeqKind } = { SeqKind.sequence };

    // The root fields of the shape, and its extension additions.
    ghost fields: { FieldShapes };

    ghost added: { FieldAdditions } = { FieldAdditions.closed_fields };

    /// Returns `FIELDS`, which states of the shape's fields their places, smallest tags, presence
    /// and names.
    fn field_table() -> Fields
        ensures { rows_of result.items.now ≡ field_rows 0 fields };

    /// Returns `EXTENDED_FIELDS`, which states the same of the shape's extension additions.
    fn extended_field_table() -> Option<Fields>
        ensures { option_map (λ t. rows_of t.items.now) result ≡ added_rows fields added };

    // The shape is that of these fields.
    ghost of_fields: { opened Self.shape_of ≡ AbstractShape.seq kind fields added };
}

/// Is what is read of one field of a SET, as `decode_set` collects it.
pub trait SetField: Drop {
    // The place of the field among all fields of its type.
    ghost number: { Self → ℕ };

    // Its slot: absent where the field is, or has its default.
    ghost slot: { Self → Option Value };

    /// Returns the place of the field among all fields of its type.
    fn place(&self) -> usize
        ensures { result ≡ number self.now };
}

/// Describes a CHOICE (X.680, section 29) by the tables of its alternatives.
pub trait Choice: AsnType {
    /// Lists the tags that the alternatives of the root may begin with.
    const VARIANTS: &'static [TagTree];

    /// Lists those of the alternatives after the extension marker, if there is one.
    const EXTENDED_VARIANTS: Option<&'static [TagTree]>;

    /// Lists the identifiers of all alternatives, extension additions last.
    const IDENTIFIERS: &'static [&'static str];

    // The alternatives of the shape, and its extension additions.
    ghost alternatives: { Alternatives };

    ghost added: { AlternativeAdditions };

    /// Returns `VARIANTS`, whose smallest tags are those of the shape's root.
    fn variant_table() -> &'static [TagTree]
        ensures { smallest_tags result.now ≡ root_tags alternatives };

    /// Returns `EXTENDED_VARIANTS`, whose smallest tags are those of the shape's additions.
    fn extended_variant_table() -> Option<&'static [TagTree]>
        ensures { option_map (λ t. smallest_tags t.now) result ≡ added_tags added };

    /// Returns `IDENTIFIERS`, which are those of the shape.
    fn identifier_table() -> &'static [&'static str]
        ensures { map (λ s. s.now) result.now ≡ identifiers
            (all_alternatives alternatives added) };

    // The shape is that of these alternatives.
    ghost of_alternatives: { opened Self.shape_of ≡ AbstractShape.choice alternatives added };
}

/// Describes an ENUMERATED type (X.680, section 20) by the identifiers of its items.
pub trait Enumerated: OfKind<Kind = EnumeratedKind> + Drop {
    /// Lists the items before the extension marker, in order.
    const IDENTIFIERS: &'static [&'static str];

    /// Lists the items after the extension marker, if there is one.
    const EXTENDED_IDENTIFIERS: Option<&'static [&'static str]>;

    // The items of the shape, and its extension additions.
    ghost items: { List (List ℕ) };

    ghost added: { Option (List (List ℕ)) };

    // The item that a Rust value stands for.
    ghost item: { Self → List ℕ };

    /// Returns `IDENTIFIERS`, which are the items of the shape.
    fn identifier_table() -> &'static [&'static str]
        ensures { map (λ s. s.now) result.now ≡ items };

    /// Returns `EXTENDED_IDENTIFIERS`, which are the extension additions of the shape.
    fn extended_identifier_table() -> Option<&'static [&'static str]>
        ensures { option_map (λ t. map (λ s. s.now) t.now) result ≡ added };

    /// Returns the item that the value stands for, which is one of the type's (`listed`).
    fn identifier(&self) -> &'static str
        ensures is { result.now ≡ item self.now }
        ensures listed { is_item (all_items items added) result.now ≡ true };

    /// Returns the value of that item, or `None` exactly where it is none of the type's.
    fn from_identifier(identifier: &str) -> Option<Self>
        ensures { MatchOption result (is_item (all_items items added) identifier.now ≡ false)
            (λ x. (item x ≡ identifier.now)
            × (is_item (all_items items added) identifier.now ≡ true)) };

    // The shape can be read.
    ghost readable: { is_readable (AbstractShape.enum items added) ≡ true };
}
