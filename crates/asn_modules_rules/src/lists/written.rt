//! Collects the types that stand in modules.
ghost use Rattle.asn_modules_rules.specs.lists.Written.{all_written, assigned_type};
ghost use Rattle.asn_modules_rules.specs.lists.Written.{assignments_written, bases, modules_written};
ghost use Rattle.asn_modules_rules.specs.lists.Written.{written_in, written_view};
ghost use Rattle.asn_modules_names.specs.Mentions.{source_view};
ghost use Rattle.asn_modules_grammar.specs.notation.View.{assignment_view, module_view};
ghost use Rattle.std.specs.Prelude.{◌≡◌, ◌++◌, IfOk, OnOk, map};

use crate::lists::within::add_type;
use asn_modules_grammar::notation::{Assignment, Base, Module};
use asn_modules_reader::text::Source;
use std::alloc::{AllocError, Global};

/// Is a type that stands in a text, without its tags and constraints.
#[derive(Clone, Copy, Drop)]
pub struct WrittenType<'s, 't> {
    /// Is the text.
    pub source: &'s Source<'t>,
    /// Describes the type.
    pub base: &'s Base,
}

/// Appends the type that the assignment assigns or that its value has, and then those within it.
///
/// # Errors
///
/// Where memory runs out.
fn add_assignment<'s, 't>(
    found: &mut Vec<WrittenType<'s, 't>>,
    source: &'s Source<'t>,
    assignment: &'s Assignment,
) -> Result<(), AllocError>
    ensures { OnOk result (map written_view found.new.items ≡ map written_view found.old.items
        ++ map (written_in (source_view source.now))
        (bases (assigned_type (assignment_view assignment.now)))) }
{
    match assignment {
        Assignment::Type { notation, .. } => add_type(found, source, notation),
        Assignment::Value { notation, .. } => add_type(found, source, notation),
        Assignment::Template { notation, .. } => add_type(found, source, notation),
    }
}

/// Appends the types that stand in these assignments.
///
/// # Errors
///
/// Where memory runs out.
fn add_assignments<'s, 't>(
    found: &mut Vec<WrittenType<'s, 't>>,
    source: &'s Source<'t>,
    assignments: &'s [Assignment],
) -> Result<(), AllocError>
    ensures { OnOk result (map written_view found.new.items ≡ map written_view found.old.items
        ++ assignments_written (source_view source.now) (map assignment_view assignments.now)) }
{
    for assignment in assignments {
        add_assignment(found, source, assignment)?;
    }
    Ok(())
}

/// Appends the types that stand in these modules.
///
/// # Errors
///
/// Where memory runs out.
fn add_modules<'s, 't>(
    found: &mut Vec<WrittenType<'s, 't>>,
    source: &'s Source<'t>,
    modules: &'s [Module],
) -> Result<(), AllocError>
    ensures { OnOk result (map written_view found.new.items ≡ map written_view found.old.items
        ++ modules_written (source_view source.now) (map module_view modules.now)) }
{
    for parsed in modules {
        add_assignments(found, source, parsed.assignments.as_slice())?;
    }
    Ok(())
}

/// Returns the types that stand in these texts, each before those within it, in order.
///
/// # Errors
///
/// Where memory runs out.
pub fn written_types<'s, 't>(
    alloc: Global,
    sources: &'s [Source<'t>],
) -> Result<Vec<WrittenType<'s, 't>>, AllocError>
    ensures { IfOk result (λ found.
        map written_view found.items ≡ all_written (map source_view sources.now)) }
{
    let mut found = Vec::new(alloc);
    for source in sources {
        add_modules(&mut found, source, source.modules.as_slice())?;
    }
    Ok(found)
}
