//! Collects the names of types that types refer to.
ghost use Rattle.asn_modules_grammar.specs.notation.Notation.{members_of};
ghost use Rattle.asn_modules_grammar.specs.notation.View.{component_view, members_view, notation_view};
ghost use Rattle.asn_modules_reader.specs.Views.{member_view};
ghost use Rattle.asn_modules_names.specs.references.References.{member_references, members_references};
ghost use Rattle.asn_modules_names.specs.references.References.{references};
ghost use Rattle.asn_modules_names.specs.references.Extensions.{extension_references};
ghost use Rattle.std.specs.Prelude.{◌≡◌, ◌++◌, OnOk, Some, map};

use asn_lexer::Token;
use asn_modules_grammar::notation::{Base, Component, Extension, Member, Members, Notation};
use std::alloc::AllocError;

/// Appends the names of types that the type refers to without a module, in order.
///
/// # Errors
///
/// Where memory runs out.
#[cycle(references)]
pub fn add_references(names: &mut Vec<Token>, notation: &Notation) -> Result<(), AllocError>
    ensures { OnOk result
        (names.new.items ≡ names.old.items ++ references (notation_view notation.now)) }
{
    match &notation.base {
        Base::Sequence(members) => add_members(names, members),
        Base::Set(members) => add_members(names, members),
        Base::SequenceOf(element) => add_references(names, element),
        Base::SetOf(element) => add_references(names, element),
        Base::Choice(alternatives) => add_members(names, alternatives),
        Base::Reference { module: None, name } => {
            names.push(*name)?;
            Ok(())
        }
        _ => Ok(()),
    }
}

/// Appends those that members refer to.
///
/// # Errors
///
/// Where memory runs out.
#[cycle(references)]
fn add_members(names: &mut Vec<Token>, members: &Members) -> Result<(), AllocError>
    ensures { OnOk result (names.new.items ≡ names.old.items
        ++ members_references (members_of (members_view members.now))) }
{
    add_entries(names, &members.root)?;
    if let Some(extension) = &members.extension {
        return add_extension(names, extension);
    }
    Ok(())
}

/// Appends those that what stands after an extension marker refers to.
///
/// # Errors
///
/// Where memory runs out.
#[cycle(references)]
fn add_extension(names: &mut Vec<Token>, extension: &Extension) -> Result<(), AllocError>
    ensures { OnOk result (names.new.items ≡ names.old.items
        ++ extension_references (Some extension.now)) }
{
    add_entries(names, &extension.additions)?;
    if let Some(tail) = &extension.tail {
        return add_entries(names, tail);
    }
    Ok(())
}

/// Appends those that entries between braces refer to.
///
/// # Errors
///
/// Where memory runs out.
#[cycle(references)]
fn add_entries(names: &mut Vec<Token>, entries: &[Member]) -> Result<(), AllocError>
    ensures { OnOk result (names.new.items ≡ names.old.items
        ++ members_references (members_of (map member_view entries.now))) }
{
    for entry in entries {
        add_entry(names, entry)?;
    }
    Ok(())
}

/// Appends those that an entry refers to.
///
/// # Errors
///
/// Where memory runs out.
#[cycle(references)]
fn add_entry(names: &mut Vec<Token>, entry: &Member) -> Result<(), AllocError>
    ensures { OnOk result
        (names.new.items ≡ names.old.items ++ member_references (member_view entry.now)) }
{
    match entry {
        Member::One(component) => add_component(names, component),
        Member::Group(components) => add_components(names, components),
    }
}

/// Appends those that components or alternatives refer to.
///
/// # Errors
///
/// Where memory runs out.
#[cycle(references)]
fn add_components(names: &mut Vec<Token>, components: &[Component]) -> Result<(), AllocError>
    ensures { OnOk result (names.new.items ≡ names.old.items
        ++ members_references (members_of (map component_view components.now))) }
{
    for component in components {
        add_component(names, component)?;
    }
    Ok(())
}

/// Appends those that a component or alternative refers to.
///
/// # Errors
///
/// Where memory runs out.
#[cycle(references)]
fn add_component(names: &mut Vec<Token>, component: &Component) -> Result<(), AllocError>
    ensures { OnOk result
        (names.new.items ≡ names.old.items ++ member_references (component_view component.now)) }
{
    match component {
        Component::Named { notation, .. } => add_references(names, notation),
        Component::ComponentsOf(notation) => add_references(names, notation),
    }
}
