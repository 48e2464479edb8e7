//! Lists the types and values that modules assign.
ghost use Rattle.asn_modules_names.specs.lookup.Entries.{name_as};
ghost use Rattle.asn_modules_names.specs.lookup.Homes.{home_view};
ghost use Rattle.asn_modules_types.specs.named_numbers.Numbers.{AreNumbersOf};
ghost use Rattle.asn_modules_types.specs.named_numbers.Views.{type_view};
ghost use Rattle.asn_modules_grammar.specs.notation.View.{assignment_view, notation_view};
ghost use Rattle.asn_modules_types.specs.Assigned.{assigned_in, assigned_of, notation_of};
ghost use Rattle.asn_modules_types.specs.Assigned.{parameters_of, stated_type};
ghost use Rattle.asn_modules_types.specs.Known.{assigned_view};
ghost use Rattle.std.specs.List.{slice_get};
ghost use Rattle.std.specs.Prelude.{◌≡◌, ◌<◌, ◌++◌, IfOk, IfSome, OnOk, is_some, length, map};
ghost use Rattle.std.specs.Prelude.{option_map};

use crate::named_numbers::{NamedNumbers, StatedType, named_numbers};
use asn_lexer::Token;
use asn_modules_grammar::notation::{Assignment, Notation};
use asn_modules_names::lookup::{Home, Sort};
use std::alloc::{AllocError, Global};

/// Is a type or value that a module assigns.
#[derive(Clone, Copy, Drop)]
pub struct Assigned<'s, 't> {
    /// Is the number of the module.
    pub number: usize,
    /// Is the module in its text.
    pub home: Home<'s, 't>,
    /// Assigns the type or value.
    pub assignment: &'s Assignment,
}

/// Returns whether the assignment is of the sort.
fn is_of_sort(sort: Sort, assignment: &Assignment) -> bool
    ensures { result ≡ is_some (name_as sort (assignment_view assignment.now)) }
{
    match sort {
        Sort::Types => matches!(assignment, Assignment::Type { .. }),
        Sort::Values => matches!(assignment, Assignment::Value { .. }),
        Sort::Templates => matches!(assignment, Assignment::Template { .. }),
    }
}

/// Appends those of the sort among these assignments of the module of the number.
///
/// # Errors
///
/// Where memory runs out.
fn add_assigned<'s, 't>(
    found: &mut Vec<Assigned<'s, 't>>,
    sort: Sort,
    number: usize,
    home: Home<'s, 't>,
    assignments: &'s [Assignment],
) -> Result<(), AllocError>
    ensures { OnOk result (map assigned_view found.new.items ≡ map assigned_view found.old.items
        ++ assigned_in sort number (home_view home.entry) (map assignment_view assignments.now)) }
{
    for assignment in assignments {
        if is_of_sort(sort, assignment) {
            found.push(Assigned {
                number,
                home,
                assignment,
            })?;
        }
    }
    Ok(())
}

/// Returns the types or values that the modules assign, in the order of their numbers.
///
/// # Errors
///
/// Where memory runs out.
pub fn assigned_of<'s, 't>(
    alloc: Global,
    sort: Sort,
    homes: &[Home<'s, 't>],
) -> Result<Vec<Assigned<'s, 't>>, AllocError>
    ensures { IfOk result (λ found.
        map assigned_view found.items ≡ assigned_of sort 0 (map home_view homes.now)) }
{
    let mut found = Vec::new(alloc);
    for (number, home) in homes.iter().enumerate() {
        add_assigned(
            &mut found,
            sort,
            number,
            *home,
            home.parsed.assignments.as_slice(),
        )?;
    }
    Ok(found)
}

/// Returns the one at the place, or `None` past the last one.
pub fn assigned_at<'s, 't>(assigned: &[Assigned<'s, 't>], place: usize) -> Option<Assigned<'s, 't>>
    ensures there { option_map assigned_view result
        ≡ slice_get (map assigned_view assigned.now) place }
    ensures within { IfSome result (λ _. place < length assigned.now) }
{
    match assigned.get(place) {
        Some(found) => Some(*found),
        None => None,
    }
}

/// Returns the type that is assigned, or that of the value.
pub fn notation_of(assignment: &Assignment) -> &Notation
    ensures { notation_view result.now ≡ notation_of (assignment_view assignment.now) }
{
    match assignment {
        Assignment::Type { notation, .. } => notation,
        Assignment::Value { notation, .. } => notation,
        Assignment::Template { notation, .. } => notation,
    }
}

/// Returns the names of the parameters of what is assigned.
pub fn parameters_of(assignment: &Assignment) -> &[Token]
    ensures { result.now ≡ parameters_of (assignment_view assignment.now) }
{
    match assignment {
        Assignment::Template { parameters, .. } => parameters.as_slice(),
        _ => &[],
    }
}

/// Returns the types that are assigned, each with the text that it stands in.
///
/// # Errors
///
/// Where memory runs out.
fn stated_types<'s, 't>(
    alloc: Global,
    types: &[Assigned<'s, 't>],
) -> Result<Vec<StatedType<'s, 't>>, AllocError>
    ensures { IfOk result (λ stated.
        map type_view stated.items ≡ map stated_type (map assigned_view types.now)) }
{
    let mut stated = Vec::new(alloc);
    for assigned in types {
        stated.push(StatedType {
            text: assigned.home.source.text,
            notation: notation_of(assigned.assignment),
        })?;
    }
    Ok(stated)
}

/// Returns the named numbers of the types that are assigned.
///
/// # Errors
///
/// Where memory runs out.
pub fn numbers_of<'t>(
    alloc: Global,
    types: &[Assigned<'_, 't>],
) -> Result<NamedNumbers<'t>, AllocError>
    ensures { IfOk result (λ numbers.
        AreNumbersOf (map stated_type (map assigned_view types.now)) numbers) }
{
    let stated = stated_types(alloc, types)?;
    named_numbers(alloc, stated.as_slice())
}
