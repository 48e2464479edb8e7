//! Compares two shapes at a node, aside from what their parts are. No comparison takes memory.
ghost use Rattle.asn_growth.specs.Reasons.{begins_additions, begins_alternatives, begins_fields};
ghost use Rattle.asn_growth.specs.Reasons.{is_extensible, is_set, is_set_kind, kind_number};
ghost use Rattle.asn_growth.specs.Reasons.{reason_of, same_kind};
ghost use Rattle.asn_growth.specs.Reasons.{same_marker, same_names, same_numbers, same_presences};
ghost use Rattle.asn_growth.specs.Reasons.{same_size, same_tags};
ghost use Rattle.asn_model.specs.CharacterStrings.{alphabet_number};
ghost use Rattle.asn_model.specs.ShapeView.{alphabet_view, alternative_views, field_views};
ghost use Rattle.asn_model.specs.ShapeView.{kind_view, shape_view};
ghost use Rattle.std.specs.Prelude.{◌≡◌};

use crate::Reason;
use crate::lists::{
    alternative_tags_begin, field_names_begin, field_tags_begin, identifiers_begin, items_begin,
    presences_begin, same_alternative_tags, same_field_names, same_field_tags, same_identifiers,
    same_items,
};
use crate::parts::{
    added_alternatives, added_fields, added_items, root_alternatives, root_fields, root_items,
};
use asn_model::{Alphabet, AlternativeShape, FieldShape, SeqKind, Shape};

/// Returns the first reason for which the newer shape is no later version of the older one at
/// their roots, aside from their parts, and none where there is no such reason.
pub fn reason_at(old: &Shape, new: &Shape) -> Option<Reason>
    ensures { result ≡ reason_of (shape_view old.now) (shape_view new.now) }
{
    if !same_kind(old, new) {
        Some(Reason::Kind)
    } else if !same_numbers(old, new) {
        Some(Reason::Numbers)
    } else if !same_names(old, new) {
        Some(Reason::Names)
    } else if !same_tags(old, new) {
        Some(Reason::Tags)
    } else if !same_presences(old, new) {
        Some(Reason::Presence)
    } else if !same_marker(old, new) {
        Some(Reason::Extensible)
    } else if !additions_begin(old, new) {
        Some(Reason::Additions)
    } else {
        None
    }
}

/// Returns whether the kinds are the same. SEQUENCE and SET are two.
fn same_kind(old: &Shape, new: &Shape) -> bool
    ensures { result ≡ same_kind (shape_view old.now) (shape_view new.now) }
{
    kind_number(old) == kind_number(new) && is_set(old) == is_set(new)
}

/// Returns whether the shape is that of a SET, and not of a SEQUENCE.
fn is_set(shape: &Shape) -> bool
    ensures { result ≡ is_set (shape_view shape.now) }
{
    match shape {
        Shape::Seq { kind, .. } => is_set_kind(*kind),
        _ => false,
    }
}

/// Returns whether the kind is that of a SET.
fn is_set_kind(kind: SeqKind) -> bool
    ensures { result ≡ is_set_kind (kind_view kind) }
{
    match kind {
        SeqKind::Sequence => false,
        SeqKind::Set => true,
    }
}

/// Returns the place of a shape's kind among the kinds.
fn kind_number(shape: &Shape) -> u8
    ensures { result ≡ kind_number (shape_view shape.now) }
{
    match shape {
        Shape::Null => 0,
        Shape::Bool => 1,
        Shape::Int { .. } => 2,
        Shape::Bits { .. } => 3,
        Shape::Octets => 4,
        Shape::Any => 5,
        Shape::Oid => 6,
        Shape::Str { .. } => 7,
        Shape::Bmp => 8,
        Shape::Utc => 9,
        Shape::Gen => 10,
        Shape::Day => 11,
        Shape::Decimal => 12,
        Shape::Enum { .. } => 13,
        Shape::Seq { .. } => 14,
        Shape::ListOf(_) => 15,
        Shape::SetOf(_) => 16,
        Shape::Table(_) => 17,
        Shape::Choice { .. } => 18,
        Shape::Loop(_) => 19,
        Shape::Back(_) => 20,
    }
}

/// Returns whether shapes of one kind have the same bounds and width, the same fixed size, the same
/// alphabet, or mean the same loop.
fn same_numbers(old: &Shape, new: &Shape) -> bool
    ensures { result ≡ same_numbers (shape_view old.now) (shape_view new.now) }
{
    match (old, new) {
        (
            Shape::Int {
                least,
                greatest,
                width,
            },
            Shape::Int {
                least: low,
                greatest: high,
                width: bits,
            },
        ) => *least == *low && *greatest == *high && *width == *bits,
        (Shape::Bits { fixed: older }, Shape::Bits { fixed: newer }) => same_size(*older, *newer),
        (Shape::Str { alphabet: older }, Shape::Str { alphabet: newer }) => {
            alphabet_number(*older) == alphabet_number(*newer)
        }
        (Shape::Back(older), Shape::Back(newer)) => *older == *newer,
        _ => true,
    }
}

/// Returns whether both sizes are the same, or there is none.
fn same_size(old: Option<usize>, new: Option<usize>) -> bool
    ensures { result ≡ same_size old new }
{
    match (old, new) {
        (None, None) => true,
        (Some(older), Some(newer)) => older == newer,
        _ => false,
    }
}

/// Returns the number of the universal tag of the characters' type (X.680, table 1).
fn alphabet_number(alphabet: Alphabet) -> u8
    ensures { result ≡ alphabet_number (alphabet_view alphabet) }
{
    match alphabet {
        Alphabet::Numeric => 18,
        Alphabet::Printable => 19,
        Alphabet::Visible => 26,
        Alphabet::Ia5 => 22,
        Alphabet::Utf8 => 12,
        Alphabet::Universal => 28,
        Alphabet::General => 27,
        Alphabet::Graphic => 25,
    }
}

/// Returns whether the roots have the same names, identifiers or items.
fn same_names(old: &Shape, new: &Shape) -> bool
    ensures { result ≡ same_names (shape_view old.now) (shape_view new.now) }
{
    same_items(root_items(old), root_items(new))
        && (same_field_names(root_fields(old), root_fields(new))
            && same_identifiers(root_alternatives(old), root_alternatives(new)))
}

/// Returns whether the roots have the same tags.
fn same_tags(old: &Shape, new: &Shape) -> bool
    ensures { result ≡ same_tags (shape_view old.now) (shape_view new.now) }
{
    same_field_tags(root_fields(old), root_fields(new))
        && same_alternative_tags(root_alternatives(old), root_alternatives(new))
}

/// Returns whether the roots have the same fields that may be absent, and the same stands for them.
fn same_presences(old: &Shape, new: &Shape) -> bool
    ensures { result ≡ same_presences (shape_view old.now) (shape_view new.now) }
{
    crate::lists::same_presences(root_fields(old), root_fields(new))
}

/// Returns whether both have an extension marker, or neither has.
fn same_marker(old: &Shape, new: &Shape) -> bool
    ensures { result ≡ same_marker (shape_view old.now) (shape_view new.now) }
{
    is_extensible(old) == is_extensible(new)
}

/// Returns whether there is an extension marker.
fn is_extensible(shape: &Shape) -> bool
    ensures { result ≡ is_extensible (shape_view shape.now) }
{
    match shape {
        Shape::Enum { added, .. } => added.is_some(),
        Shape::Seq { added, .. } => added.is_some(),
        Shape::Choice { added, .. } => added.is_some(),
        _ => false,
    }
}

/// Returns whether the additions of the newer one begin with those of the older one.
fn additions_begin(old: &Shape, new: &Shape) -> bool
    ensures { result ≡ begins_additions (shape_view old.now) (shape_view new.now) }
{
    items_begin(added_items(old), added_items(new))
        && (fields_begin(added_fields(old), added_fields(new))
            && alternatives_begin(added_alternatives(old), added_alternatives(new)))
}

/// Returns whether the newer fields begin with the older ones, each with its name, tag and
/// presence.
fn fields_begin(old: &[FieldShape], new: &[FieldShape]) -> bool
    ensures { result ≡ begins_fields (field_views old.now) (field_views new.now) }
{
    field_names_begin(old, new) && (field_tags_begin(old, new) && presences_begin(old, new))
}

/// Returns whether the newer alternatives begin with the older ones, each with its identifier and
/// tag.
fn alternatives_begin(old: &[AlternativeShape], new: &[AlternativeShape]) -> bool
    ensures { result ≡ begins_alternatives (alternative_views old.now) (alternative_views new.now) }
{
    identifiers_begin(old, new) && alternative_tags_begin(old, new)
}
