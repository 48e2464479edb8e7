//! Finds the types that a type reaches by its names.
ghost use Rattle.asn_model.specs.ShapeView.{alternative_views, field_views, shape_view};
ghost use Rattle.asn_type_printing.specs.Reached.{alternative_names, field_names_of, names_in};
ghost use Rattle.asn_type_printing.specs.Reached.{numbers_at, reached, with_numbers};
ghost use Rattle.std.specs.Prelude.{◌≡◌, IfOk, OnOk, length, map};

use asn_core::OutOfMemory;
use asn_model::{AlternativeShape, FieldShape, Shape};
use indexmap::IndexSet;
use std::alloc::Global;

/// Returns the number and those of all types that its type reaches: in the order in which they are
/// first met, where the types that one type names come before those that they name themselves.
///
/// # Errors
///
/// Where memory runs out.
pub fn reached(
    alloc: Global,
    types: &[Shape],
    number: usize,
) -> Result<IndexSet<usize>, OutOfMemory>
    ensures { IfOk result (λ found. found.keys ≡ reached (map shape_view types.now) number) }
{
    let mut found = IndexSet::new(alloc);
    found.insert(number)?;
    for place in 0..types.len() {
        add_from(types, place, &mut found)?;
    }
    Ok(found)
}

/// Adds the numbers that the type names whose number has this place among those that are found.
///
/// # Errors
///
/// Where memory runs out.
fn add_from(types: &[Shape], place: usize, found: &mut IndexSet<usize>) -> Result<(), OutOfMemory>
    ensures { OnOk result (found.new.keys ≡ with_numbers (length types.now) found.old.keys
        (numbers_at (map shape_view types.now) found.old.keys place)) }
{
    let Some(number) = found.get_index(place).copied() else {
        return Ok(());
    };
    match types.get(number) {
        Some(shape) => add_named(shape, types.len(), found),
        None => Ok(()),
    }
}

/// Adds the numbers of types that the shape names, of so many types.
///
/// # Errors
///
/// Where memory runs out.
#[cycle(named)]
fn add_named(shape: &Shape, count: usize, found: &mut IndexSet<usize>) -> Result<(), OutOfMemory>
    ensures { OnOk result (found.new.keys
        ≡ with_numbers count found.old.keys (names_in (shape_view shape.now))) }
{
    match shape {
        Shape::Seq { fields, added, .. } => {
            add_field_names(fields, count, found)?;
            match added {
                Some(added) => add_field_names(added, count, found),
                None => Ok(()),
            }
        }
        Shape::Choice {
            alternatives,
            added,
        } => {
            add_alternative_names(alternatives, count, found)?;
            match added {
                Some(added) => add_alternative_names(added, count, found),
                None => Ok(()),
            }
        }
        Shape::ListOf(part) | Shape::SetOf(part) | Shape::Table(part) => {
            add_named(part, count, found)
        }
        Shape::Back(number) => {
            let number = *number as usize;
            if number < count {
                found.insert(number)?;
            }
            Ok(())
        }
        _ => Ok(()),
    }
}

/// Adds those that fields name.
///
/// # Errors
///
/// Where memory runs out.
#[cycle(named)]
fn add_field_names(
    fields: &[FieldShape],
    count: usize,
    found: &mut IndexSet<usize>,
) -> Result<(), OutOfMemory>
    ensures { OnOk result (found.new.keys
        ≡ with_numbers count found.old.keys (field_names_of (field_views fields.now))) }
{
    for field in fields {
        add_named(&field.shape, count, found)?;
    }
    Ok(())
}

/// Adds those that alternatives name.
///
/// # Errors
///
/// Where memory runs out.
#[cycle(named)]
fn add_alternative_names(
    alternatives: &[AlternativeShape],
    count: usize,
    found: &mut IndexSet<usize>,
) -> Result<(), OutOfMemory>
    ensures { OnOk result (found.new.keys ≡ with_numbers count found.old.keys
        (alternative_names (alternative_views alternatives.now))) }
{
    for alternative in alternatives {
        add_named(&alternative.shape, count, found)?;
    }
    Ok(())
}
