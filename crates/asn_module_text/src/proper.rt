//! Tests whether a module can be read from a text.
ghost use Rattle.asn_model.specs.Shape.{is_item};
ghost use Rattle.asn_module_text.specs.Modules.{IsModule, IsProper};
ghost use Rattle.asn_notation.specs.Names.{assigned_names, element_references, first_failing};
ghost use Rattle.asn_notation.specs.Names.{first_repeated, first_unassigned, references};
ghost use Rattle.asn_notation.specs.Notation.{at_most_one, elements_of, is_item_marker};
ghost use Rattle.asn_notation.specs.Proper.{are_assignments_proper, are_elements_proper};
ghost use Rattle.asn_notation.specs.Proper.{are_items_proper, has_one_marker};
ghost use Rattle.asn_notation.specs.Proper.{is_element_proper, is_proper_assignment};
ghost use Rattle.asn_notation.specs.Proper.{is_proper_notation};
ghost use Rattle.asn_notation.specs.View.{assignment_view, component_view, components_view};
ghost use Rattle.asn_notation.specs.View.{items_of, marked, module_view, notation_view};
ghost use Rattle.std.specs.Prelude.{◌≡◌, ◌&&◌, ◌↔◌, ℕ, IsTrue, List, None, Some, is_none, map};
ghost use Rattle.std.specs.Prelude.{string_bytes};

use asn_notation::limits::NESTING_LIMIT;
use asn_notation::{Assignment, Component, Components, Module, Notation, is_type_name};
use avn_grammar::names::is_identifier;

/// Returns whether each item is a word.
fn are_words(items: &[String]) -> bool
    ensures { result ≡ are_items_proper (map (λ i. Some (string_bytes i)) items.now) }
{
    for item in items {
        if !is_identifier(item.as_str()) {
            return false;
        }
    }
    true
}

/// Returns whether each item behind the extension marker is a word, if there is one.
fn are_added_words(added: &Option<Vec<String>>) -> bool
    ensures { result ≡ are_items_proper (marked (λ i. Some (string_bytes i)) None added.now) }
{
    match added {
        Some(added) => are_words(added),
        None => true,
    }
}

/// Returns whether each item of an ENUMERATED is a word.
fn are_items_proper(items: &[String], added: &Option<Vec<String>>) -> bool
    ensures { result ≡ (at_most_one is_item_marker (items_of items.now added.now)
        && are_items_proper (items_of items.now added.now)) }
{
    are_words(items) && are_added_words(added)
}

/// Returns whether the name of the component is a word, it isn't optional where that isn't allowed,
/// and its notation, at the level, has a text.
#[cycle(proper)]
fn is_component_proper(component: &Component, level: usize, allowed: bool) -> bool
    ensures { result
        ≡ is_element_proper NESTING_LIMIT level allowed (component_view component.now) }
{
    is_identifier(component.name.as_str())
        && (allowed || !component.optional)
        && is_proper_notation(&component.notation, level)
}

/// Returns whether that holds of all components.
#[cycle(proper)]
fn are_all_proper(components: &[Component], level: usize, allowed: bool) -> bool
    ensures { result ≡ are_elements_proper NESTING_LIMIT level allowed
        (elements_of (map component_view components.now)) }
{
    for component in components {
        if !is_component_proper(component, level, allowed) {
            return false;
        }
    }
    true
}

/// Returns whether that holds of the components of the root and of the extension additions.
#[cycle(proper)]
fn are_components_proper(components: &Components, level: usize, allowed: bool) -> bool
    ensures { result ≡ (has_one_marker (elements_of (components_view components.now))
        && are_elements_proper NESTING_LIMIT level allowed
        (elements_of (components_view components.now))) }
{
    if !are_all_proper(&components.root, level, allowed) {
        return false;
    }
    match &components.added {
        Some(added) => are_all_proper(added, level, allowed),
        None => true,
    }
}

/// Returns whether the notation, at the level, has a text: its words are words, none nests deeper
/// than the limit, and no alternative is optional.
#[cycle(proper)]
fn is_proper_notation(notation: &Notation, level: usize) -> bool
    ensures { result ≡ is_proper_notation NESTING_LIMIT level (notation_view notation.now) }
{
    if level > NESTING_LIMIT {
        return false;
    }
    match notation {
        Notation::Sequence(components) => are_components_proper(components, level + 1, true),
        Notation::Set(components) => are_components_proper(components, level + 1, true),
        Notation::Choice(alternatives) => are_components_proper(alternatives, level + 1, false),
        Notation::SequenceOf(element) => is_proper_notation(element, level + 1),
        Notation::SetOf(element) => is_proper_notation(element, level + 1),
        Notation::Enumerated { items, added } => are_items_proper(items, added),
        Notation::Reference(name) => is_identifier(name.as_str()) && is_type_name(name.as_str()),
        _ => true,
    }
}

/// Returns whether the name of the assignment is that of a type, and its notation has a text.
fn is_proper_assignment(assignment: &Assignment) -> bool
    ensures { result ≡ is_proper_assignment NESTING_LIMIT (assignment_view assignment.now) }
{
    is_identifier(assignment.name.as_str())
        && is_type_name(assignment.name.as_str())
        && is_proper_notation(&assignment.notation, 0)
}

/// Returns whether each assignment has a text.
fn are_assignments_proper(assignments: &[Assignment]) -> bool
    ensures { result
        ≡ are_assignments_proper NESTING_LIMIT (map assignment_view assignments.now) }
{
    for assignment in assignments {
        if !is_proper_assignment(assignment) {
            return false;
        }
    }
    true
}

/// Returns whether the type of this name is assigned.
fn is_assigned(assignments: &[Assignment], name: &str) -> bool
    ensures { result ≡ is_item (assigned_names (map assignment_view assignments.now)) name.now }
{
    for assignment in assignments {
        if name == assignment.name.as_str() {
            return true;
        }
    }
    false
}

/// Returns whether no type is assigned twice.
fn are_names_distinct(assignments: &[Assignment]) -> bool
    ensures { result ≡ is_none (first_repeated (map assignment_view assignments.now)) }
{
    for (place, assignment) in assignments.iter().enumerate() {
        if is_assigned(&assignments[..place], assignment.name.as_str()) {
            return false;
        }
    }
    true
}

/// Returns whether each name that the notation refers to is assigned.
#[cycle(assigned)]
fn are_references_assigned(notation: &Notation, assignments: &[Assignment]) -> bool
    ensures { result ≡ is_none (first_failing
        (λ n. is_item (assigned_names (map assignment_view assignments.now)) n)
        (references (notation_view notation.now))) }
{
    match notation {
        Notation::Sequence(components) | Notation::Set(components) => {
            are_components_assigned(components, assignments)
        }
        Notation::Choice(alternatives) => are_components_assigned(alternatives, assignments),
        Notation::SequenceOf(element) | Notation::SetOf(element) => {
            are_references_assigned(element, assignments)
        }
        Notation::Reference(name) => is_assigned(assignments, name.as_str()),
        _ => true,
    }
}

/// Returns whether each name that components refer to is assigned.
#[cycle(assigned)]
fn are_components_assigned(components: &Components, assignments: &[Assignment]) -> bool
    ensures { result ≡ is_none (first_failing
        (λ n. is_item (assigned_names (map assignment_view assignments.now)) n)
        (element_references (elements_of (components_view components.now)))) }
{
    if !are_all_assigned(&components.root, assignments) {
        return false;
    }
    match &components.added {
        Some(added) => are_all_assigned(added, assignments),
        None => true,
    }
}

/// Returns whether each name that a list of components refers to is assigned.
#[cycle(assigned)]
fn are_all_assigned(components: &[Component], assignments: &[Assignment]) -> bool
    ensures { result ≡ is_none (first_failing
        (λ n. is_item (assigned_names (map assignment_view assignments.now)) n)
        (element_references (elements_of (map component_view components.now)))) }
{
    for component in components {
        if !are_references_assigned(&component.notation, assignments) {
            return false;
        }
    }
    true
}

/// Returns whether each name that the assignments refer to is assigned.
fn are_names_assigned(assignments: &[Assignment]) -> bool
    ensures { result ≡ is_none (first_unassigned (map assignment_view assignments.now)) }
{
    for assignment in assignments {
        if !are_references_assigned(&assignment.notation, assignments) {
            return false;
        }
    }
    true
}

/// Returns whether the assignments have a text, no name is assigned twice, and each name that they
/// refer to is assigned.
fn are_proper(assignments: &[Assignment]) -> bool
    ensures { IsTrue result ↔ IsProper NESTING_LIMIT (map assignment_view assignments.now) }
{
    are_assignments_proper(assignments)
        && are_names_distinct(assignments)
        && are_names_assigned(assignments)
}

/// Returns whether the module can be read from a text: the names of types are words that begin with
/// a capital letter and aren't reserved, distinct, and all assigned, all other names are words,
/// notations nest no deeper than the limit, and no alternative is optional. It takes no memory, so
/// each name is compared with those of all assignments.
pub fn is_proper(module: &Module) -> bool
    ensures proper { IsTrue result ↔ IsProper NESTING_LIMIT (module_view «module».now) }
    ensures text { IsTrue result
        ↔ ((text : List ℕ) × IsModule NESTING_LIMIT text (module_view «module».now)) }
{
    are_proper(&module.assignments)
}
