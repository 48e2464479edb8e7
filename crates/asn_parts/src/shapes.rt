//! Shows the parts of a shape that a program holds. Its loops are nodes of the shape, so what a
//! part means is the same whatever is open around it.
ghost use Rattle.asn_model.specs.Enclosing.{entries_of};
ghost use Rattle.asn_model.specs.Shape.{is_item};
ghost use Rattle.asn_model.specs.ShapeView.{presence_view, shape_view};
ghost use Rattle.asn_parts.specs.Parts.{alternative_of, component_of, standing_of};
ghost use Rattle.std.specs.Prelude.{◌≡◌, ◌++◌, map, string_bytes};

use crate::{LeafPart, Loops, Part, PartAlternative, PartField, PartKind};
use asn_model::{AlternativeShape, FieldShape, SeqKind, Shape};

/// Shows a part of a shape.
impl<'a> Part for &'a Shape {
    ghost use Rattle.asn_model.specs.ShapeView.{shape_view};
    ghost use Rattle.std.specs.Prelude.{refl};

    ghost shape = { λ around part. shape_view part.now };

    fn kind(&self, _around: &Loops<'_, &'a Shape>) -> PartKind<&'a Shape> {
        match *self {
            Shape::Null => PartKind::Leaf(LeafPart::Null),
            Shape::Bool => PartKind::Leaf(LeafPart::Bool),
            Shape::Int {
                least,
                greatest,
                width,
            } => PartKind::Leaf(LeafPart::Int {
                least: *least,
                greatest: *greatest,
                width: *width,
            }),
            Shape::Bits { fixed } => PartKind::Leaf(LeafPart::Bits { fixed: *fixed }),
            Shape::Octets => PartKind::Leaf(LeafPart::Octets),
            Shape::Any => PartKind::Leaf(LeafPart::Any),
            Shape::Oid => PartKind::Leaf(LeafPart::Oid),
            Shape::Str { alphabet } => PartKind::Leaf(LeafPart::Str {
                alphabet: *alphabet,
            }),
            Shape::Bmp => PartKind::Leaf(LeafPart::Bmp),
            Shape::Utc => PartKind::Leaf(LeafPart::Utc),
            Shape::Gen => PartKind::Leaf(LeafPart::Gen),
            Shape::Day => PartKind::Leaf(LeafPart::Day),
            Shape::Decimal => PartKind::Leaf(LeafPart::Decimal),
            Shape::Enum { .. } => PartKind::Enumerated,
            Shape::Seq { kind, .. } => match kind {
                SeqKind::Sequence => PartKind::Sequence,
                SeqKind::Set => PartKind::Set,
            },
            Shape::ListOf(element) => PartKind::ListOf(&**element),
            Shape::SetOf(element) => PartKind::SetOf(&**element),
            Shape::Table(entry) => PartKind::Table(&**entry),
            Shape::Choice { .. } => PartKind::Choice,
            Shape::Loop(body) => PartKind::Loop(&**body),
            Shape::Back(number) => PartKind::Back(*number),
        }
    }

    fn field_count(&self) -> usize {
        match *self {
            Shape::Seq { fields, added, .. } => fields.len() + entries(added).len(),
            _ => 0,
        }
    }

    fn root_count(&self) -> usize {
        match *self {
            Shape::Seq { fields, .. } => fields.len(),
            _ => 0,
        }
    }

    fn field(&self, place: usize) -> PartField<'_, &'a Shape> {
        match *self {
            Shape::Seq { fields, added, .. } => {
                if place < fields.len() {
                    return field_part(&fields[place], false);
                }
                match entries(added).get(place - fields.len()) {
                    Some(field) => field_part(field, true),
                    None => unreachable!(),
                }
            }
            _ => unreachable!(),
        }
    }

    fn alternative_count(&self) -> usize {
        match *self {
            Shape::Choice {
                alternatives,
                added,
            } => alternatives.len() + entries(added).len(),
            _ => 0,
        }
    }

    fn alternative(&self, place: usize) -> Option<PartAlternative<'_, &'a Shape>> {
        match *self {
            Shape::Choice {
                alternatives,
                added,
            } => {
                if place < alternatives.len() {
                    return Some(alternative_part(&alternatives[place]));
                }
                match entries(added).get(place - alternatives.len()) {
                    Some(alternative) => Some(alternative_part(alternative)),
                    None => None,
                }
            }
            _ => None,
        }
    }

    fn has_item(&self, identifier: &str) -> bool {
        match *self {
            Shape::Enum { items, added } => is_among(items, entries(added), identifier),
            _ => false,
        }
    }

    fn item_count(&self) -> usize {
        match *self {
            Shape::Enum { items, added } => items.len() + entries(added).len(),
            _ => 0,
        }
    }

    ghost same_names = { λ around part. refl };

    ghost same_identifiers = { λ around part. refl };
}

/// Returns what is seen of a field.
fn field_part<'a>(field: &'a FieldShape, is_addition: bool) -> PartField<'a, &'a Shape>
    ensures { component_of (λ part. shape_view part.now) result ≡ record {
      name = string_bytes field.now.name;
      tag = field.now.tag;
      presence = presence_view field.now.presence;
      shape = shape_view field.now.shape;
      standing = standing_of is_addition;
    } }
{
    PartField {
        name: field.name.as_str(),
        tag: field.tag,
        presence: &field.presence,
        part: &field.shape,
        is_addition,
    }
}

/// Returns what is seen of an alternative.
fn alternative_part<'a>(alternative: &'a AlternativeShape) -> PartAlternative<'a, &'a Shape>
    ensures { alternative_of (λ part. shape_view part.now) result
        ≡ (string_bytes alternative.now.identifier, shape_view alternative.now.shape) }
{
    PartAlternative {
        identifier: alternative.identifier.as_str(),
        part: &alternative.shape,
    }
}

/// Returns the entries after an extension marker, and none where there is no marker.
fn entries<T>(added: &Option<Vec<T>>) -> &[T]
    ensures { result.now ≡ entries_of added.now }
{
    match added {
        Some(entries) => entries.as_slice(),
        None => &[],
    }
}

/// Returns whether the text is one of both lists.
fn is_among(list: &[String], more: &[String], text: &str) -> bool
    ensures { result ≡ is_item (map string_bytes list.now ++ map string_bytes more.now) text.now }
{
    match list.split_first() {
        Some((first, rest)) => text == first.as_str() || is_among(rest, more, text),
        // The second list takes the place of the first one, and no list that of the second.
        None => !more.is_empty() && is_among(more, &[], text),
    }
}
