//! Reports where and why a type is no later version of another.
ghost use Rattle.asn_growth.specs.Differences.{differences_of};
ghost use Rattle.asn_growth.specs.Grows.{Grows};
ghost use Rattle.asn_growth.specs.Parts.{node_count};
ghost use Rattle.asn_growth.specs.Paths.{alternative_paths, field_paths, paths};
ghost use Rattle.asn_model.specs.ShapeView.{alternative_views, field_views, shape_view};
ghost use Rattle.asn_version_reports.specs.Passing.{lines_view, pass, pass_all};
ghost use Rattle.asn_version_reports.specs.Paths.{behind, path_steps};
ghost use Rattle.asn_version_reports.specs.Reports.{difference_line, report_text};
ghost use Rattle.std.specs.Prelude.{◌≡◌, ◌+◌, ◌++◌, ◌<◌, ◌≤◌, ◌^◌, ◌∷◌, ◌↔◌, []};
ghost use Rattle.std.specs.Prelude.{IfOk, OnOk, codes, string_bytes};

use crate::path::{Path, path_text};
use crate::words::reason_words;
use asn_core::OutOfMemory;
use asn_growth::{Reason, differences};
use asn_model::{AlternativeShape, FieldShape, Shape};
use std::alloc::Global;

/// Returns the line `grows` where the newer shape is a later version of the older one, or the same.
/// Else it returns a line for each place of the older one that differs in the newer one, in order:
/// the path to it, `: ` and the reason in words. A path is names of fields, identifiers of
/// alternatives, and `*` for an element or entry, with a point between each two, or
/// `(the type itself)`. A place that differs isn't gone into.
///
/// # Errors
///
/// Where memory runs out.
pub fn differences_report(alloc: Global, old: &Shape, new: &Shape) -> Result<String, OutOfMemory>
    requires { node_count (shape_view old.now) < 2 ^ 32 }
    ensures text { IfOk result (λ s. string_bytes s ≡ report_text (paths (shape_view old.now))
        (differences_of (shape_view old.now) (shape_view new.now) 0)) }
    ensures grows { IfOk result (λ s. (string_bytes s ≡ codes "grows" ++ 10 ∷ [])
        ↔ Grows (shape_view old.now) (shape_view new.now)) }
{
    let found = differences(alloc, old, new)?;
    if found.is_empty() {
        return Ok(String::from_str(alloc, "grows\n")?);
    }
    let mut lines = Lines {
        alloc,
        place: 0,
        left: found.as_slice(),
        text: String::new(alloc),
    };
    add_lines(old, &Path::Root, &mut lines)?;
    Ok(lines.text)
}

/// Gathers the lines of differences while the nodes of the older shape are passed in order.
#[derive(Drop)]
struct Lines<'d> {
    /// Provides memory.
    alloc: Global,
    /// Is the place of the node that is passed next.
    place: usize,
    /// Lists the differences from there on.
    left: &'d [(usize, Reason)],
    /// Holds the lines of the others.
    text: String,
}

/// Passes the node to which this path leads, and adds its line if it differs.
///
/// # Errors
///
/// Where memory runs out.
fn pass(path: &Path<'_>, lines: &mut Lines<'_>) -> Result<(), OutOfMemory>
    ensures { OnOk result (lines_view lines.new ≡ pass (lines_view lines.old)
        (path_steps path.now)) }
{
    let place = lines.place;
    lines.place = place.saturating_add(1);
    match lines.left {
        [(first, reason), rest @ ..] if *first == place => {
            let line = line_of(lines.alloc, path, *reason)?;
            lines.left = rest;
            Ok(lines.text.push_str(&line)?)
        }
        _ => Ok(()),
    }
}

/// Returns the line of a difference at the node to which this path leads.
///
/// # Errors
///
/// Where memory runs out.
fn line_of(alloc: Global, path: &Path<'_>, reason: Reason) -> Result<String, OutOfMemory>
    ensures { IfOk result (λ s. string_bytes s ≡ difference_line (path_steps path.now) reason) }
{
    let place = path_text(alloc, path)?;
    let words = reason_words(reason);
    Ok(format!(in alloc; "{place}: {words}\n")?)
}

/// Passes the nodes of the shape to which this path leads.
///
/// # Errors
///
/// Where memory runs out.
#[cycle(lines)]
fn add_lines(shape: &Shape, path: &Path<'_>, lines: &mut Lines<'_>) -> Result<(), OutOfMemory>
    ensures { OnOk result (lines_view lines.new ≡ pass_all (lines_view lines.old)
        (behind (path_steps path.now) (paths (shape_view shape.now)))) }
{
    pass(path, lines)?;
    match shape {
        Shape::Seq { fields, added, .. } => {
            add_field_lines(fields, path, lines)?;
            match added {
                Some(added) => add_field_lines(added, path, lines),
                None => Ok(()),
            }
        }
        Shape::Choice {
            alternatives,
            added,
        } => {
            add_alternative_lines(alternatives, path, lines)?;
            match added {
                Some(added) => add_alternative_lines(added, path, lines),
                None => Ok(()),
            }
        }
        Shape::ListOf(part) | Shape::SetOf(part) | Shape::Table(part) => {
            add_lines(part, &Path::Step("*", &*path), lines)
        }
        Shape::Loop(body) => add_lines(body, path, lines),
        _ => Ok(()),
    }
}

/// Passes those of these fields.
///
/// # Errors
///
/// Where memory runs out.
#[cycle(lines)]
fn add_field_lines(
    fields: &[FieldShape],
    path: &Path<'_>,
    lines: &mut Lines<'_>,
) -> Result<(), OutOfMemory>
    ensures { OnOk result (lines_view lines.new ≡ pass_all (lines_view lines.old)
        (behind (path_steps path.now) (field_paths (field_views fields.now)))) }
{
    for field in fields {
        let within = Path::Step(field.name.as_str(), &*path);
        add_lines(&field.shape, &within, lines)?;
    }
    Ok(())
}

/// Passes those of these alternatives.
///
/// # Errors
///
/// Where memory runs out.
#[cycle(lines)]
fn add_alternative_lines(
    alternatives: &[AlternativeShape],
    path: &Path<'_>,
    lines: &mut Lines<'_>,
) -> Result<(), OutOfMemory>
    ensures { OnOk result (lines_view lines.new ≡ pass_all (lines_view lines.old)
        (behind (path_steps path.now) (alternative_paths (alternative_views alternatives.now)))) }
{
    for alternative in alternatives {
        let within = Path::Step(alternative.identifier.as_str(), &*path);
        add_lines(&alternative.shape, &within, lines)?;
    }
    Ok(())
}
