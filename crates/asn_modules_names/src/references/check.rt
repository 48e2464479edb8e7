//! Checks that the names of types and values that are referred to are known.
ghost use Rattle.asn_modules_names.specs.lookup.Homes.{home_view};
ghost use Rattle.asn_modules_names.specs.lookup.Indexes.{IsIndexOf};
ghost use Rattle.asn_modules_names.specs.declared.lookup.sort.Sort as sorts;
ghost use Rattle.asn_modules_names.specs.Assigned.{first_found};
ghost use Rattle.asn_modules_names.specs.Faults.{Checks};
ghost use Rattle.asn_modules_names.specs.Mentions as spec;
ghost use Rattle.asn_modules_grammar.specs.notation.View.{assignment_view};
ghost use Rattle.asn_modules_names.specs.references.References.{all_references, assignment_references};
ghost use Rattle.asn_modules_names.specs.references.References.{first_unknown, references_as, unknown};
ghost use Rattle.std.specs.Prelude.{◌≡◌, ◌++◌, IfOk, List, OnOk, map};

use crate::lookup::{Home, Index, Sort};
use crate::references::value_names::value_name;
use crate::references::walk::add_references;
use crate::{broken, mention_of};
use asn_lexer::Token;
use asn_modules_errors::{ModuleError, NameRule, text_of};
use asn_modules_grammar::notation::Assignment;
use std::alloc::{AllocError, Global};

/// Appends the names that the type of the assignment refers to.
///
/// # Errors
///
/// Where memory runs out.
fn add_types(names: &mut Vec<Token>, assignment: &Assignment) -> Result<(), AllocError>
    ensures { OnOk result (names.new.items
        ≡ names.old.items ++ assignment_references (assignment_view assignment.now)) }
{
    match assignment {
        Assignment::Type { notation, .. } => add_references(names, notation),
        Assignment::Value { notation, .. } => add_references(names, notation),
        Assignment::Template { .. } => Ok(()),
    }
}

/// Appends the names of types that the assignment refers to, or those of values, as the sort says.
///
/// # Errors
///
/// Where memory runs out.
fn add_assignment(
    names: &mut Vec<Token>,
    sort: Sort,
    assignment: &Assignment,
) -> Result<(), AllocError>
    ensures { OnOk result (names.new.items
        ≡ names.old.items ++ references_as sort (assignment_view assignment.now)) }
{
    match sort {
        Sort::Types => add_types(names, assignment),
        Sort::Values => match value_name(assignment) {
            Some(name) => {
                names.push(name)?;
                Ok(())
            }
            None => Ok(()),
        },
        Sort::Templates => Ok(()),
    }
}

/// Returns the names of types that these assignments refer to, or those of values, as the sort
/// says.
///
/// # Errors
///
/// Where memory runs out.
fn references_of(
    alloc: Global,
    sort: Sort,
    assignments: &[Assignment],
) -> Result<Vec<Token>, AllocError>
    ensures { IfOk result (λ names.
        names.items ≡ all_references sort (map assignment_view assignments.now)) }
{
    let mut names = Vec::new(alloc);
    for assignment in assignments {
        add_assignment(&mut names, sort, assignment)?;
    }
    Ok(names)
}

/// Checks that these names are known in the module of the number, by the index.
///
/// # Errors
///
/// The first one that isn't, and `OutOfMemory`.
fn check_names<'t>(
    alloc: Global,
    index: &Index<'t>,
    number: usize,
    home: Home<'_, 't>,
    names: &[Token],
) -> Result<(), ModuleError>
    ensures { (sort : sorts.Sort) (ss : List spec.Source) → IsIndexOf sort ss index.now
        → Checks (first_found (unknown sort ss number (home_view home.entry)) names.now) result }
{
    for name in names {
        if !index.is_known(number, text_of(home.source.text, *name)) {
            return Err(broken(alloc, NameRule::NotAssigned, mention_of(home.source, *name)));
        }
    }
    Ok(())
}

/// Checks that each name of a type that a module refers to is assigned or imported by it, or each
/// name of a value, as the sort says. The index is the one of the sort.
///
/// # Errors
///
/// The first name that isn't, and `OutOfMemory`.
pub fn check_references<'t>(
    alloc: Global,
    sort: Sort,
    index: &Index<'t>,
    homes: &[Home<'_, 't>],
) -> Result<(), ModuleError>
    ensures { (ss : List spec.Source) → IsIndexOf sort ss index.now
        → Checks (first_unknown sort ss 0 (map home_view homes.now)) result }
{
    for (number, home) in homes.iter().enumerate() {
        let names = references_of(alloc, sort, home.parsed.assignments.as_slice())?;
        check_names(alloc, index, number, *home, names.as_slice())?;
    }
    Ok(())
}
