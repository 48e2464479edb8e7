//! Takes a node of a shape apart. What a node lacks is empty, so that no caller asks for its kind.
ghost use Rattle.asn_growth.specs.Parts.{added_alternatives, added_fields, added_items, parts};
ghost use Rattle.asn_growth.specs.Parts.{root_alternatives, root_fields, root_items};
ghost use Rattle.asn_growth.specs.Paths.{steps};
ghost use Rattle.asn_model.specs.ShapeView.{alternative_views, field_views, shape_view};
ghost use Rattle.std.specs.Prelude.{◌≡◌, ◌<◌, ◌++◌, ◌∷◌, [], MatchOption, map, length};
ghost use Rattle.std.specs.Prelude.{string_bytes};
ghost use Rattle.std.specs.List.{slice_index_or};
ghost use Rattle.asn_model.specs.Enclosing.{entries_of};
ghost use Rattle.asn_model.specs.Shape as spec;

use asn_model::{AlternativeShape, FieldShape, Shape};

/// Returns the items before the extension marker of an ENUMERATED.
pub fn root_items(shape: &Shape) -> &[String]
    ensures { map string_bytes result.now ≡ root_items (shape_view shape.now) }
{
    match shape {
        Shape::Enum { items, added: _ } => items,
        _ => &[],
    }
}

/// Returns the items after the extension marker of an ENUMERATED.
pub fn added_items(shape: &Shape) -> &[String]
    ensures { map string_bytes result.now ≡ added_items (shape_view shape.now) }
{
    match shape {
        Shape::Enum { items: _, added } => entries(added),
        _ => &[],
    }
}

/// Returns the fields before the extension marker of a SEQUENCE or SET.
#[tactic(auto, using(crate::proofs::Viewed::root_fields_viewed))]
pub fn root_fields(shape: &Shape) -> &[FieldShape]
    ensures { field_views result.now ≡ root_fields (shape_view shape.now) }
{
    match shape {
        Shape::Seq {
            kind: _,
            fields,
            added: _,
        } => fields,
        _ => &[],
    }
}

/// Returns the fields after the extension marker of a SEQUENCE or SET.
#[tactic(auto, using(crate::proofs::Viewed::added_fields_viewed))]
pub fn added_fields(shape: &Shape) -> &[FieldShape]
    ensures { field_views result.now ≡ added_fields (shape_view shape.now) }
{
    match shape {
        Shape::Seq {
            kind: _,
            fields: _,
            added,
        } => entries(added),
        _ => &[],
    }
}

/// Returns the alternatives before the extension marker of a CHOICE.
#[tactic(auto, using(crate::proofs::Viewed::root_alternatives_viewed))]
pub fn root_alternatives(shape: &Shape) -> &[AlternativeShape]
    ensures { alternative_views result.now ≡ root_alternatives (shape_view shape.now) }
{
    match shape {
        Shape::Choice {
            alternatives,
            added: _,
        } => alternatives,
        _ => &[],
    }
}

/// Returns the alternatives after the extension marker of a CHOICE.
#[tactic(auto, using(crate::proofs::Viewed::added_alternatives_viewed))]
pub fn added_alternatives(shape: &Shape) -> &[AlternativeShape]
    ensures { alternative_views result.now ≡ added_alternatives (shape_view shape.now) }
{
    match shape {
        Shape::Choice {
            alternatives: _,
            added,
        } => entries(added),
        _ => &[],
    }
}

/// Returns the entries after an extension marker, and none where there is no marker.
fn entries<T>(added: &Option<Vec<T>>) -> &[T]
    ensures { result.now ≡ entries_of added.now }
{
    match added {
        Some(entries) => entries.as_slice(),
        None => &[],
    }
}

/// Returns the number of a node's parts.
pub fn part_count(shape: &Shape) -> usize
    ensures { result ≡ length (parts (shape_view shape.now)) }
{
    match shape {
        Shape::Seq { .. } => root_fields(shape).len() + added_fields(shape).len(),
        Shape::Choice { .. } => root_alternatives(shape).len() + added_alternatives(shape).len(),
        Shape::ListOf(_) | Shape::SetOf(_) | Shape::Table(_) | Shape::Loop(_) => 1,
        _ => 0,
    }
}

/// Returns the part of this number: fields and then added ones, alternatives and then added ones,
/// the element, the entry, or the body of a loop.
pub fn part_at(shape: &Shape, index: usize) -> &Shape
    requires { index < length (parts (shape_view shape.now)) }
    ensures { shape_view result.now ≡ slice_index_or (parts (shape_view shape.now)) index
        spec.Shape.null }
{
    match shape {
        Shape::Seq { .. } => {
            let field = at(root_fields(shape), added_fields(shape), index);
            &field.shape
        }
        Shape::Choice { .. } => {
            let alternative = at(root_alternatives(shape), added_alternatives(shape), index);
            &alternative.shape
        }
        Shape::ListOf(part) | Shape::SetOf(part) | Shape::Table(part) | Shape::Loop(part) => part,
        _ => unreachable!(),
    }
}

/// Returns the step to the part of this number: the name of a field, the identifier of an
/// alternative, `*` for an element or entry, and nothing for the body of a loop.
pub fn step_at(shape: &Shape, index: usize) -> Option<&str>
    requires { index < length (parts (shape_view shape.now)) }
    ensures { MatchOption result (slice_index_or (steps (shape_view shape.now)) index [] ≡ [])
        (λ step. slice_index_or (steps (shape_view shape.now)) index [] ≡ step.now ∷ []) }
{
    match shape {
        Shape::Seq { .. } => {
            let named = at(root_fields(shape), added_fields(shape), index);
            Some(named.name.as_str())
        }
        Shape::Choice { .. } => {
            let alternative = at(root_alternatives(shape), added_alternatives(shape), index);
            Some(alternative.identifier.as_str())
        }
        Shape::Loop(_) => None,
        _ => Some("*"),
    }
}

/// Returns the entry of this number in both lists, one after the other.
fn at<'a, T>(list: &'a [T], more: &'a [T], index: usize) -> &'a T
    requires { index < length (list.now ++ more.now) }
    ensures { result.now ≡ slice_index_or (list.now ++ more.now) index result.now }
{
    if index < list.len() {
        &list[index]
    } else {
        &more[index - list.len()]
    }
}
