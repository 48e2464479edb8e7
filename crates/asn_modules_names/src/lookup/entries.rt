//! Lists the names of modules and of the types or values that they assign.
ghost use Rattle.asn_modules_names.specs.lookup.Entries.{keys_in, keys_of, module_entries, name_as};
ghost use Rattle.asn_modules_names.specs.lookup.Entries.{numbered};
ghost use Rattle.asn_modules_names.specs.lookup.Homes.{home_view};
ghost use Rattle.asn_modules_names.specs.lookup.Views.{entry_view, key_view};
ghost use Rattle.asn_modules_names.specs.Assigned.{module_name};
ghost use Rattle.asn_modules_grammar.specs.notation.View.{assignment_view, module_view};
ghost use Rattle.std.specs.Prelude.{◌≡◌, ◌++◌, IfOk, OnOk, map};

use crate::lookup::home::Home;
use crate::lookup::sort::Sort;
use asn_lexer::Token;
use asn_modules_errors::text_of;
use asn_modules_grammar::notation::{Assignment, Module};
use std::alloc::{AllocError, Global};

/// Is a name after the number of its module.
pub type Key<'t> = (usize, &'t [u8]);

/// Returns the name of the module, if it has one.
pub fn module_name(parsed: &Module) -> Option<Token>
    ensures { result ≡ module_name (module_view parsed.now) }
{
    match &parsed.header {
        Some(header) => Some(header.opening.name),
        None => None,
    }
}

/// Returns the names of the modules, each with its number.
///
/// # Errors
///
/// Where memory runs out.
pub fn module_entries<'t>(
    alloc: Global,
    homes: &[Home<'_, 't>],
) -> Result<Vec<(&'t [u8], usize)>, AllocError>
    ensures { IfOk result (λ entries.
        map entry_view entries.items ≡ module_entries 0 (map home_view homes.now)) }
{
    let mut entries = Vec::new(alloc);
    for (number, home) in homes.iter().enumerate() {
        if let Some(name) = module_name(home.parsed) {
            entries.push((text_of(home.source.text, name), number))?;
        }
    }
    Ok(entries)
}

/// Returns the name that is assigned, or `None` where the assignment isn't of the sort.
fn name_as(sort: Sort, assignment: &Assignment) -> Option<Token>
    ensures { result ≡ name_as sort (assignment_view assignment.now) }
{
    match sort {
        Sort::Types => match assignment {
            Assignment::Type { name, .. } => Some(*name),
            _ => None,
        },
        Sort::Values => match assignment {
            Assignment::Value { name, .. } => Some(*name),
            _ => None,
        },
        Sort::Templates => match assignment {
            Assignment::Template { name, .. } => Some(*name),
            _ => None,
        },
    }
}

/// Appends the names that these assignments of the module of the number assign, of those of the
/// sort.
///
/// # Errors
///
/// Where memory runs out.
fn add_keys<'t>(
    keys: &mut Vec<Key<'t>>,
    sort: Sort,
    number: usize,
    home: Home<'_, 't>,
    assignments: &[Assignment],
) -> Result<(), AllocError>
    ensures { OnOk result (map key_view keys.new.items ≡ map key_view keys.old.items
        ++ keys_in sort number (home_view home.entry) (map assignment_view assignments.now)) }
{
    for assignment in assignments {
        if let Some(name) = name_as(sort, assignment) {
            keys.push((number, text_of(home.source.text, name)))?;
        }
    }
    Ok(())
}

/// Returns the names that the modules assign, by assignments of the sort.
///
/// # Errors
///
/// Where memory runs out.
pub fn keys_of<'t>(
    alloc: Global,
    sort: Sort,
    homes: &[Home<'_, 't>],
) -> Result<Vec<Key<'t>>, AllocError>
    ensures { IfOk result (λ keys.
        map key_view keys.items ≡ keys_of sort 0 (map home_view homes.now)) }
{
    let mut keys = Vec::new(alloc);
    for (number, home) in homes.iter().enumerate() {
        add_keys(
            &mut keys,
            sort,
            number,
            *home,
            home.parsed.assignments.as_slice(),
        )?;
    }
    Ok(keys)
}

/// Returns the names with their numbers.
///
/// # Errors
///
/// Where memory runs out.
pub fn numbered<'t>(alloc: Global, keys: &[Key<'t>]) -> Result<Vec<(Key<'t>, usize)>, AllocError>
    ensures { IfOk result (λ entries. entries.items ≡ numbered 0 keys.now) }
{
    let mut entries = Vec::new(alloc);
    for (number, key) in keys.iter().enumerate() {
        entries.push((*key, number))?;
    }
    Ok(entries)
}

/// Returns the entries by their names alone.
///
/// # Errors
///
/// Where memory runs out.
pub fn by_name<'t>(
    alloc: Global,
    keys: &[(Key<'t>, usize)],
) -> Result<Vec<(&'t [u8], usize)>, AllocError>
    ensures { IfOk result (λ entries. entries.items ≡ map (λ e. (e.0.1, e.1)) keys.now) }
{
    let mut entries = Vec::new(alloc);
    for entry in keys {
        entries.push((entry.0.1, entry.1))?;
    }
    Ok(entries)
}
