//! Makes values of a shape, part by part.
ghost use Rattle.asn_dynamic_values.specs.DynView.{dyn_value, named_value};
ghost use Rattle.asn_example_values.specs.Examples.{alternatives_example, elements_example};
ghost use Rattle.asn_example_values.specs.Examples.{example, joined, kept, member_example};
ghost use Rattle.asn_example_values.specs.Examples.{members_example};
ghost use Rattle.asn_example_values.specs.Made.{is_full, is_lacking, members_made};
ghost use Rattle.asn_model.specs.Enclosing.{entries_of};
ghost use Rattle.asn_model.specs.Readable.{is_readable};
ghost use Rattle.asn_model.specs.Shape.{Presence};
ghost use Rattle.asn_model.specs.ShapeView.{alternative_views, field_views, plain_view};
ghost use Rattle.asn_model.specs.ShapeView.{presence_view, shape_view};
ghost use Rattle.asn_model.specs.Value.{Fits, Value};
ghost use Rattle.std.specs.Prelude.{◌≡◌, IfOk, IfSome, IsNone, Some, false, map, option_map, true};

use crate::leaves::leaf_value;
use asn_core::OutOfMemory;
use asn_dynamic_values::{DynValue, is_plain};
use asn_model::{AlternativeShape, FieldShape, Plain, PresenceShape, Shape};
use std::alloc::Global;

/// States how much of a value is made.
#[derive(Clone, Copy, Debug, PartialEq, Eq, Drop)]
pub enum Extent {
    /// Components that may be absent are, and lists are empty.
    Smallest,
    /// Each component is present and each list has one element, if there is a value of its type in
    /// which no type stands within itself.
    Full,
}

/// Returns a value of the shape, or `None` where there is none in which no type stands within
/// itself. Of a CHOICE it is the first alternative that has one. Numbers are 0 or the least one
/// above it, strings are empty, items the first, and times the beginning of 1970; but where
/// everything is wanted, and that is what a DEFAULT names, it is the next number, TRUE, the digit 0
/// or the second item.
///
/// # Errors
///
/// Where memory runs out.
pub fn example(
    alloc: Global,
    extent: Extent,
    shape: &Shape,
) -> Result<Option<DynValue>, OutOfMemory>
    ensures is { IfOk result (λ v. option_map dyn_value v
        ≡ example (is_full extent) false (shape_view shape.now)) }
    // So each example is a value of its shape.
    ensures fits { IfOk result (λ v.
        IfSome v (λ v. Fits (shape_view shape.now) (dyn_value v))) }
    // A shape without one has no values.
    ensures none { is_readable (shape_view shape.now) ≡ true
        → IfOk result (λ v. IsNone v → (w : Value) → Fits (shape_view shape.now) w → ⊥) }
{
    let full = matches!(extent, Extent::Full);
    value_of(alloc, full, false, shape)
}

/// Returns the extension additions, and none where there is no extension marker.
fn entries<T>(added: &Option<Vec<T>>) -> &[T]
    ensures { result.now ≡ entries_of added.now }
{
    match added {
        Some(entries) => entries.as_slice(),
        None => &[],
    }
}

/// Returns a value of the shape, or the other one of it.
///
/// # Errors
///
/// Where memory runs out.
#[cycle(make)]
fn value_of(
    alloc: Global,
    full: bool,
    other: bool,
    shape: &Shape,
) -> Result<Option<DynValue>, OutOfMemory>
    ensures { IfOk result (λ v. option_map dyn_value v
        ≡ example full other (shape_view shape.now)) }
{
    match shape {
        Shape::Seq { fields, added, .. } => {
            let mut members = Vec::new(alloc);
            if !add_members(alloc, full, fields, &mut members)? {
                return Ok(None);
            }
            if !add_members(alloc, full, entries(added), &mut members)? {
                return Ok(None);
            }
            Ok(Some(DynValue::Members(members)))
        }
        Shape::ListOf(part) | Shape::Table(part) => {
            let elements = elements(alloc, full, part)?;
            Ok(Some(DynValue::List(elements)))
        }
        Shape::SetOf(part) => {
            let elements = elements(alloc, full, part)?;
            Ok(Some(DynValue::Bag(elements)))
        }
        Shape::Choice {
            alternatives,
            added,
        } => match alternative(alloc, full, alternatives)? {
            Some(value) => Ok(Some(value)),
            None => alternative(alloc, full, entries(added)),
        },
        Shape::Loop(body) => value_of(alloc, full, other, body),
        leaf => leaf_value(alloc, other, leaf),
    }
}

/// Returns the elements of a list.
///
/// # Errors
///
/// Where memory runs out.
#[cycle(make)]
fn elements(alloc: Global, full: bool, part: &Shape) -> Result<Vec<DynValue>, OutOfMemory>
    ensures { IfOk result (λ made. map dyn_value made.items
        ≡ elements_example full (example full false (shape_view part.now))) }
{
    let mut made = Vec::new(alloc);
    if full {
        if let Some(element) = value_of(alloc, full, false, part)? {
            made.push(element)?;
        }
    }
    Ok(made)
}

/// Returns the value, or `None` where it is the one that the DEFAULT names.
fn unless_default(default: &Plain, value: Option<DynValue>) -> Option<DynValue>
    ensures { option_map dyn_value result
        ≡ kept (Presence.default (plain_view default.now)) (option_map dyn_value value) }
{
    match value {
        Some(value) if !is_plain(default, &value) => Some(value),
        _ => None,
    }
}

/// Returns the value of a component, if it has one.
///
/// # Errors
///
/// Where memory runs out.
#[cycle(make)]
fn member(
    alloc: Global,
    full: bool,
    presence: &PresenceShape,
    shape: &Shape,
) -> Result<Option<DynValue>, OutOfMemory>
    ensures { IfOk result (λ v. option_map dyn_value v
        ≡ member_example full (presence_view presence.now)
        (example full false (shape_view shape.now))
        (example full true (shape_view shape.now))) }
{
    match presence {
        PresenceShape::Required => value_of(alloc, full, false, shape),
        _ if !full => Ok(None),
        PresenceShape::Optional => value_of(alloc, full, false, shape),
        PresenceShape::Default(default) => {
            let value = value_of(alloc, full, false, shape)?;
            if let Some(value) = unless_default(default, value) {
                return Ok(Some(value));
            }
            let other = value_of(alloc, full, true, shape)?;
            Ok(unless_default(default, other))
        }
    }
}

/// Returns whether the component has to be present and has no value.
fn is_lacking(presence: &PresenceShape, value: &Option<DynValue>) -> bool
    ensures { result
        ≡ is_lacking (presence_view presence.now) (option_map dyn_value value.now) }
{
    match presence {
        PresenceShape::Required => value.is_none(),
        _ => false,
    }
}

/// Adds the names and values of components to members. Returns `false` where one of them has to be
/// present and has no value.
///
/// # Errors
///
/// Where memory runs out.
#[cycle(make)]
fn add_members(
    alloc: Global,
    full: bool,
    fields: &[FieldShape],
    members: &mut Vec<(String, Option<DynValue>)>,
) -> Result<bool, OutOfMemory>
    ensures { IfOk result (λ whole. joined (Some (map named_value members.old.items))
        (members_example full (field_views fields.now))
        ≡ members_made whole (map named_value members.new.items)) }
{
    for field in fields {
        let value = member(alloc, full, &field.presence, &field.shape)?;
        if is_lacking(&field.presence, &value) {
            return Ok(false);
        }
        let name = field.name.clone()?;
        members.push((name, value))?;
    }
    Ok(true)
}

/// Returns a value of the first alternative that has one.
///
/// # Errors
///
/// Where memory runs out.
#[cycle(make)]
fn alternative(
    alloc: Global,
    full: bool,
    alternatives: &[AlternativeShape],
) -> Result<Option<DynValue>, OutOfMemory>
    ensures { IfOk result (λ v. option_map dyn_value v
        ≡ alternatives_example full (alternative_views alternatives.now)) }
{
    for alternative in alternatives {
        if let Some(value) = value_of(alloc, full, false, &alternative.shape)? {
            return Ok(Some(DynValue::Choice {
                identifier: alternative.identifier.clone()?,
                value: Box::new(alloc, value)?,
            }));
        }
    }
    Ok(None)
}
