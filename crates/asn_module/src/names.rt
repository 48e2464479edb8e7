//! Finds assignments by the names of their types.
ghost use Rattle.asn_module.specs.Faults.{NamesFail};
ghost use Rattle.asn_expansion.specs.Places.{ArePlaces, is_placed};
ghost use Rattle.asn_notation.specs.Names.{assigned_names, element_references, first_failing};
ghost use Rattle.asn_notation.specs.Names.{first_repeated, references};
ghost use Rattle.asn_notation.specs.Notation.{elements_of};
ghost use Rattle.asn_notation.specs.View.{assignment_view, component_view, components_view};
ghost use Rattle.asn_notation.specs.View.{notation_view};
ghost use Rattle.std.specs.Prelude.{◌≡◌, map, None, OnOk, IfOk, IfErr, option_map};

use crate::fault::ModuleFault;
use asn_expansion::Places;
use asn_notation::{Assignment, Component, Components, Notation};
use std::alloc::Global;
use std::collections::HashMap;

/// Returns the places of the assignments.
///
/// # Errors
///
/// `Duplicate` with the first name that was assigned before, and `OutOfMemory`.
pub fn places_of<'a>(
    alloc: Global,
    assignments: &'a [Assignment],
) -> Result<Places<'a>, ModuleFault>
    ensures places { IfOk result (λ places.
        ArePlaces places (assigned_names (map assignment_view assignments.now))) }
    ensures distinct { OnOk result (first_repeated (map assignment_view assignments.now) ≡ None) }
    ensures repeated { IfErr result
        (λ e. NamesFail (map assignment_view assignments.now) e) }
{
    let mut places = HashMap::new(alloc);
    for (place, assignment) in assignments.iter().enumerate() {
        if places.insert(assignment.name.as_str(), place)?.is_some() {
            return Err(ModuleFault::Duplicate(assignment.name.clone()?));
        }
    }
    Ok(places)
}

/// Returns the first name that the notation refers to, in the order of its text, and that has no
/// place.
#[cycle(unplaced)]
pub fn first_unplaced<'b>(notation: &'b Notation, places: &Places<'_>) -> Option<&'b str>
    ensures { option_map (λ name. name.now) result
        ≡ first_failing (λ n. is_placed places.now n) (references (notation_view notation.now)) }
{
    match notation {
        Notation::Sequence(components) | Notation::Set(components) => {
            first_unplaced_in(components, places)
        }
        Notation::Choice(alternatives) => first_unplaced_in(alternatives, places),
        Notation::SequenceOf(element) | Notation::SetOf(element) => first_unplaced(element, places),
        Notation::Reference(name) => {
            if places.contains_key(name.as_str()) {
                None
            } else {
                Some(name.as_str())
            }
        }
        _ => None,
    }
}

/// Returns the first such name of components, those of the root first.
#[cycle(unplaced)]
fn first_unplaced_in<'b>(components: &'b Components, places: &Places<'_>) -> Option<&'b str>
    ensures { option_map (λ name. name.now) result
        ≡ first_failing (λ n. is_placed places.now n)
        (element_references (elements_of (components_view components.now))) }
{
    if let Some(name) = first_unplaced_among(&components.root, places) {
        return Some(name);
    }
    match &components.added {
        Some(added) => first_unplaced_among(added, places),
        None => None,
    }
}

/// Returns the first such name of a list of components.
#[cycle(unplaced)]
fn first_unplaced_among<'b>(components: &'b [Component], places: &Places<'_>) -> Option<&'b str>
    ensures { option_map (λ name. name.now) result
        ≡ first_failing (λ n. is_placed places.now n)
        (element_references (elements_of (map component_view components.now))) }
{
    for component in components {
        if let Some(name) = first_unplaced(&component.notation, places) {
            return Some(name);
        }
    }
    None
}
