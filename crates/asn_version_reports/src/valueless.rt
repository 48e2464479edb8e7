//! Finds the parts of a type that have no values.
ghost use Rattle.asn_model.specs.ShapeView.{alternative_views, field_views, shape_view};
ghost use Rattle.asn_version_reports.specs.Paths.{behind, path_steps, path_text};
ghost use Rattle.asn_version_reports.specs.Valueless.{alternative_valueless, field_valueless};
ghost use Rattle.asn_version_reports.specs.Valueless.{valueless_paths};
ghost use Rattle.std.specs.Prelude.{◌≡◌, ◌++◌, IfOk, OnOk, map, string_bytes};

use crate::path::{Path, path_text};
use asn_core::OutOfMemory;
use asn_model::{AlternativeShape, FieldShape, Shape};
use std::alloc::Global;

/// Returns the path to each part of the type, the type itself included, that is the type without
/// values, an ENUMERATED without items: names of fields, identifiers of alternatives, and `*` for
/// an element or entry, with a point between each two, or `(the type itself)`. A type that is named
/// by its number is no part.
///
/// # Errors
///
/// Where memory runs out.
pub fn parts_without_values(alloc: Global, shape: &Shape) -> Result<Vec<String>, OutOfMemory>
    ensures { IfOk result (λ found. map string_bytes found.items
        ≡ map path_text (valueless_paths (shape_view shape.now))) }
{
    let mut found = Vec::new(alloc);
    add_valueless(shape, alloc, &Path::Root, &mut found)?;
    Ok(found)
}

/// Adds the paths to the parts of a type to which this path leads.
///
/// # Errors
///
/// Where memory runs out.
#[cycle(valueless)]
fn add_valueless(
    shape: &Shape,
    alloc: Global,
    path: &Path<'_>,
    found: &mut Vec<String>,
) -> Result<(), OutOfMemory>
    ensures { OnOk result (map string_bytes found.new.items ≡ map string_bytes found.old.items
        ++ map path_text (behind (path_steps path.now) (valueless_paths (shape_view shape.now)))) }
{
    match shape {
        Shape::Enum { items, added: None } => {
            if items.is_empty() {
                found.push(path_text(alloc, path)?)?;
            }
            Ok(())
        }
        Shape::Seq { fields, added, .. } => {
            add_valueless_fields(fields, alloc, path, found)?;
            match added {
                Some(added) => add_valueless_fields(added, alloc, path, found),
                None => Ok(()),
            }
        }
        Shape::Choice {
            alternatives,
            added,
        } => {
            add_valueless_alternatives(alternatives, alloc, path, found)?;
            match added {
                Some(added) => add_valueless_alternatives(added, alloc, path, found),
                None => Ok(()),
            }
        }
        Shape::ListOf(part) | Shape::SetOf(part) | Shape::Table(part) => {
            add_valueless(part, alloc, &Path::Step("*", path), found)
        }
        Shape::Loop(body) => add_valueless(body, alloc, path, found),
        _ => Ok(()),
    }
}

/// Adds those to the parts of these fields.
///
/// # Errors
///
/// Where memory runs out.
#[cycle(valueless)]
fn add_valueless_fields(
    fields: &[FieldShape],
    alloc: Global,
    path: &Path<'_>,
    found: &mut Vec<String>,
) -> Result<(), OutOfMemory>
    ensures { OnOk result (map string_bytes found.new.items ≡ map string_bytes found.old.items
        ++ map path_text (behind (path_steps path.now)
        (field_valueless (field_views fields.now)))) }
{
    for field in fields {
        let within = Path::Step(field.name.as_str(), &*path);
        add_valueless(&field.shape, alloc, &within, found)?;
    }
    Ok(())
}

/// Adds those to the parts of these alternatives.
///
/// # Errors
///
/// Where memory runs out.
#[cycle(valueless)]
fn add_valueless_alternatives(
    alternatives: &[AlternativeShape],
    alloc: Global,
    path: &Path<'_>,
    found: &mut Vec<String>,
) -> Result<(), OutOfMemory>
    ensures { OnOk result (map string_bytes found.new.items ≡ map string_bytes found.old.items
        ++ map path_text (behind (path_steps path.now)
        (alternative_valueless (alternative_views alternatives.now)))) }
{
    for alternative in alternatives {
        let within = Path::Step(alternative.identifier.as_str(), &*path);
        add_valueless(&alternative.shape, alloc, &within, found)?;
    }
    Ok(())
}
