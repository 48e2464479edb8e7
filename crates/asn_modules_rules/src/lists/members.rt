//! Collects the names of components and alternatives.
ghost use Rattle.asn_modules_rules.specs.lists.Extensions.{entries_names, in_extension};
ghost use Rattle.asn_modules_rules.specs.lists.Listed.{member_names, members_names};
ghost use Rattle.asn_modules_grammar.specs.notation.Notation.{members_of};
ghost use Rattle.asn_modules_grammar.specs.notation.View.{component_view, members_view};
ghost use Rattle.asn_modules_reader.specs.Views.{member_view};
ghost use Rattle.std.specs.Prelude.{◌≡◌, ◌++◌, OnOk, Some, map};

use asn_lexer::Token;
use asn_modules_grammar::notation::{Component, Extension, Member, Members};
use std::alloc::AllocError;

/// Appends the name of a component or alternative, if it has one.
///
/// # Errors
///
/// Where memory runs out.
fn add_component(names: &mut Vec<Token>, component: &Component) -> Result<(), AllocError>
    ensures { OnOk result (names.new.items
        ≡ names.old.items ++ member_names (component_view component.now)) }
{
    match component {
        Component::Named { name, .. } => {
            names.push(*name)?;
            Ok(())
        }
        Component::ComponentsOf(_) => Ok(()),
    }
}

/// Appends the names of components or alternatives.
///
/// # Errors
///
/// Where memory runs out.
fn add_components(names: &mut Vec<Token>, components: &[Component]) -> Result<(), AllocError>
    ensures { OnOk result (names.new.items ≡ names.old.items
        ++ members_names (members_of (map component_view components.now))) }
{
    for component in components {
        add_component(names, component)?;
    }
    Ok(())
}

/// Appends the names of an entry between braces.
///
/// # Errors
///
/// Where memory runs out.
fn add_entry(names: &mut Vec<Token>, entry: &Member) -> Result<(), AllocError>
    ensures { OnOk result
        (names.new.items ≡ names.old.items ++ member_names (member_view entry.now)) }
{
    match entry {
        Member::One(component) => add_component(names, component),
        Member::Group(components) => add_components(names, components),
    }
}

/// Appends the names of entries between braces.
///
/// # Errors
///
/// Where memory runs out.
fn add_entries(names: &mut Vec<Token>, entries: &[Member]) -> Result<(), AllocError>
    ensures { OnOk result (names.new.items ≡ names.old.items
        ++ members_names (members_of (map member_view entries.now))) }
{
    for entry in entries {
        add_entry(names, entry)?;
    }
    Ok(())
}

/// Appends the names of what stands after an extension marker.
///
/// # Errors
///
/// Where memory runs out.
fn add_extension(names: &mut Vec<Token>, extension: &Extension) -> Result<(), AllocError>
    ensures { OnOk result (names.new.items ≡ names.old.items
        ++ in_extension entries_names (Some extension.now)) }
{
    add_entries(names, &extension.additions)?;
    if let Some(tail) = &extension.tail {
        return add_entries(names, tail);
    }
    Ok(())
}

/// Appends the names of the components or alternatives between braces, in order.
///
/// # Errors
///
/// Where memory runs out.
pub fn add_members(names: &mut Vec<Token>, members: &Members) -> Result<(), AllocError>
    ensures { OnOk result (names.new.items ≡ names.old.items
        ++ members_names (members_of (members_view members.now))) }
{
    add_entries(names, &members.root)?;
    if let Some(extension) = &members.extension {
        return add_extension(names, extension);
    }
    Ok(())
}
