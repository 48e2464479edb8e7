//! Checks the names that modules assign.
ghost use Rattle.asn_modules_names.specs.Assigned.{assigned_again, assigned_name, assigned_names};
ghost use Rattle.asn_modules_names.specs.Assigned.{assigned_twice, first_found};
ghost use Rattle.asn_modules_names.specs.Faults.{Checks};
ghost use Rattle.asn_modules_names.specs.Mentions.{mention_view, source_view};
ghost use Rattle.asn_modules_grammar.specs.notation.View.{assignment_view, module_view};
ghost use Rattle.std.specs.Prelude.{◌≡◌, IfOk, map};

use crate::distinct::check_distinct;
use crate::mention::{Mention, mention_of};
use asn_lexer::Token;
use asn_modules_errors::{ModuleError, NameRule};
use asn_modules_grammar::notation::{Assignment, Module};
use asn_modules_reader::text::Source;
use std::alloc::{AllocError, Global};

/// Returns the name that is assigned.
fn name_of(assignment: &Assignment) -> Token
    ensures { result ≡ assigned_name (assignment_view assignment.now) }
{
    match assignment {
        Assignment::Type { name, .. } => *name,
        Assignment::Value { name, .. } => *name,
        Assignment::Template { name, .. } => *name,
    }
}

/// Returns the names that the assignments of the text assign, in order.
///
/// # Errors
///
/// Where memory runs out.
fn names_of<'t>(
    alloc: Global,
    source: &Source<'t>,
    assignments: &[Assignment],
) -> Result<Vec<Mention<'t>>, AllocError>
    ensures { IfOk result (λ names. map mention_view names.items
        ≡ assigned_names (source_view source.now) (map assignment_view assignments.now)) }
{
    let mut names = Vec::new(alloc);
    for assignment in assignments {
        names.push(mention_of(source, name_of(assignment)))?;
    }
    Ok(names)
}

/// Checks that the module of the text assigns each name once.
///
/// # Errors
///
/// The first name that it assigns a second time, and `OutOfMemory`.
fn check_module(alloc: Global, source: &Source<'_>, parsed: &Module) -> Result<(), ModuleError>
    ensures { Checks (assigned_twice (source_view source.now) (module_view parsed.now)) result }
{
    let names = names_of(alloc, source, parsed.assignments.as_slice())?;
    check_distinct(alloc, NameRule::AssignedTwice, names.as_slice())
}

/// Checks that each of these modules of the text assigns each name once.
///
/// # Errors
///
/// The first name that one assigns a second time, and `OutOfMemory`.
fn check_each(alloc: Global, source: &Source<'_>, modules: &[Module]) -> Result<(), ModuleError>
    ensures { Checks (first_found (assigned_twice (source_view source.now))
        (map module_view modules.now)) result }
{
    for parsed in modules {
        check_module(alloc, source, parsed)?;
    }
    Ok(())
}

/// Checks that each module assigns each name once.
///
/// # Errors
///
/// The first name that a module assigns a second time, and `OutOfMemory`.
pub fn check_assigned(alloc: Global, sources: &[Source<'_>]) -> Result<(), ModuleError>
    ensures { Checks (first_found assigned_again (map source_view sources.now)) result }
{
    for source in sources {
        check_each(alloc, source, source.modules.as_slice())?;
    }
    Ok(())
}
