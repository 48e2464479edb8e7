//! Lists the types that modules assign.
ghost use Rattle.asn_modules_rules.specs.included.Behind.{name_of};
ghost use Rattle.asn_modules_rules.specs.included.Types.{next_type, stands_for, type_as, type_named};
ghost use Rattle.asn_modules_rules.specs.included.Types.{type_view, types_in, types_of};
ghost use Rattle.asn_modules_names.specs.lookup.Homes.{home_view};
ghost use Rattle.asn_modules_names.specs.lookup.Indexes.{IsIndexOf};
ghost use Rattle.asn_modules_names.specs.declared.lookup.sort.Sort.TheVariants.{Types};
ghost use Rattle.asn_modules_names.specs.Mentions.{Source};
ghost use Rattle.asn_modules_grammar.specs.notation.View.{assignment_view, notation_view};
ghost use Rattle.std.specs.List.{cons_option, slice_get};
ghost use Rattle.std.specs.Option.{option_and_then};
ghost use Rattle.std.specs.Prelude.{◌≡◌, ◌++◌, [], IfOk, List, OnOk, map, option_map};

use crate::included::names::{TypeName, add_behind, name_of};
use asn_modules_errors::text_of;
use asn_modules_grammar::notation::{Assignment, Notation};
use asn_modules_names::lookup::{Home, Index};
use std::alloc::{AllocError, Global};

/// Is a type that a module assigns.
#[derive(Drop)]
pub struct AssignedType<'s, 't> {
    /// Is the number of the module.
    pub number: usize,
    /// Is the module in its text.
    pub home: Home<'s, 't>,
    /// Describes the type.
    pub notation: &'s Notation,
    /// Lists the names after COMPONENTS OF in it, in order.
    pub behind: Vec<TypeName>,
    /// Is the number of the type that it is the name of; `None` where it is no name, or that type
    /// is missing.
    pub next: Option<usize>,
}

/// Returns the number of the type of the name in the module of the number, or `None` where it is
/// missing.
pub fn type_named<'t>(
    index: &Index<'t>,
    number: usize,
    home: Home<'_, 't>,
    name: TypeName,
) -> Option<usize>
    ensures { (ss : List Source) → IsIndexOf Types ss index.now
        → result ≡ type_named ss number (home_view home.entry) name }
{
    let text = home.source.text;
    match name.home {
        Some(token) => index.find(number, Some(text_of(text, token)), text_of(text, name.name)),
        None => index.find(number, None, text_of(text, name.name)),
    }
}

/// Returns the number of the type that this one is the name of in the module of the number, or
/// `None` where it is no name, or that type is missing.
fn next_of<'t>(
    index: &Index<'t>,
    number: usize,
    home: Home<'_, 't>,
    notation: &Notation,
) -> Option<usize>
    ensures { (ss : List Source) → IsIndexOf Types ss index.now → result
        ≡ option_and_then (type_named ss number (home_view home.entry))
        (name_of (notation_view notation.now)) }
{
    match name_of(notation) {
        Some(name) => type_named(index, number, home, name),
        None => None,
    }
}

/// Returns what is assigned in the module of the number, or `None` where it is no type.
///
/// # Errors
///
/// Where memory runs out.
fn type_of<'s, 't>(
    alloc: Global,
    index: &Index<'t>,
    number: usize,
    home: Home<'s, 't>,
    assignment: &'s Assignment,
) -> Result<Option<AssignedType<'s, 't>>, AllocError>
    ensures { IfOk result (λ found. (ss : List Source) → IsIndexOf Types ss index.now
        → option_map type_view found
        ≡ type_as ss number (home_view home.entry) (assignment_view assignment.now)) }
{
    match assignment {
        Assignment::Type { notation, .. } => {
            let mut behind = Vec::new(alloc);
            add_behind(&mut behind, notation)?;
            Ok(Some(AssignedType {
                number,
                home,
                notation,
                behind,
                next: next_of(index, number, home, notation),
            }))
        }
        Assignment::Value { .. } | Assignment::Template { .. } => Ok(None),
    }
}

/// Appends the type, if there is one.
///
/// # Errors
///
/// Where memory runs out.
fn add_type<'s, 't>(
    types: &mut Vec<AssignedType<'s, 't>>,
    assigned: Option<AssignedType<'s, 't>>,
) -> Result<(), AllocError>
    ensures { OnOk result (types.new.items ≡ types.old.items ++ cons_option assigned.entry []) }
{
    match assigned {
        Some(assigned) => {
            types.push(assigned)?;
            Ok(())
        }
        None => Ok(()),
    }
}

/// Appends the types among these assignments of the module of the number.
///
/// # Errors
///
/// Where memory runs out.
fn add_types<'s, 't>(
    types: &mut Vec<AssignedType<'s, 't>>,
    alloc: Global,
    index: &Index<'t>,
    number: usize,
    home: Home<'s, 't>,
    assignments: &'s [Assignment],
) -> Result<(), AllocError>
    ensures { OnOk result ((ss : List Source) → IsIndexOf Types ss index.now
        → map type_view types.new.items ≡ map type_view types.old.items
        ++ types_in ss number (home_view home.entry) (map assignment_view assignments.now)) }
{
    for assignment in assignments {
        add_type(types, type_of(alloc, index, number, home, assignment)?)?;
    }
    Ok(())
}

/// Returns the types that the modules assign, in the order of their numbers, by the index of types.
///
/// # Errors
///
/// Where memory runs out.
pub fn types_of<'s, 't>(
    alloc: Global,
    index: &Index<'t>,
    homes: &[Home<'s, 't>],
) -> Result<Vec<AssignedType<'s, 't>>, AllocError>
    ensures { IfOk result (λ types. (ss : List Source) → IsIndexOf Types ss index.now
        → map type_view types.items ≡ types_of ss 0 (map home_view homes.now)) }
{
    let mut types = Vec::new(alloc);
    for (number, home) in homes.iter().enumerate() {
        let assignments = home.parsed.assignments.as_slice();
        add_types(&mut types, alloc, index, number, *home, assignments)?;
    }
    Ok(types)
}

/// Returns the type of the number, or `None` past the last one.
pub fn type_at<'a, 's, 't>(
    types: &'a [AssignedType<'s, 't>],
    number: usize,
) -> Option<&'a AssignedType<'s, 't>>
    ensures { option_map (λ t. type_view t.now) result
        ≡ slice_get (map type_view types.now) number }
{
    types.get(number)
}

/// Returns the type that this one is the name of, or `None` where it is no name, or that type is
/// missing.
fn next_type<'a, 's, 't>(
    types: &'a [AssignedType<'s, 't>],
    from: &AssignedType<'s, 't>,
) -> Option<&'a AssignedType<'s, 't>>
    ensures { option_map (λ t. type_view t.now) result
        ≡ next_type (map type_view types.now) (type_view from.now) }
{
    match from.next {
        Some(number) => type_at(types, number),
        None => None,
    }
}

/// Returns the type that this one stands for: itself, and where it is a name, the type of that
/// name, past at most so many names.
#[cycle(follow)]
pub fn stands_for<'a, 's, 't>(
    types: &'a [AssignedType<'s, 't>],
    more: usize,
    from: &'a AssignedType<'s, 't>,
) -> &'a AssignedType<'s, 't>
    ensures { type_view result.now
        ≡ stands_for (map type_view types.now) more (type_view from.now) }
{
    if more == 0 {
        return from;
    }
    match next_type(types, from) {
        Some(next) => stands_for(types, more - 1, next),
        None => from,
    }
}
