//! Collects the names that stand after COMPONENTS OF.
ghost use Rattle.asn_modules_rules.specs.included.Behind.{behind, entries_behind, member_behind};
ghost use Rattle.asn_modules_rules.specs.included.Behind.{members_behind, name_of};
ghost use Rattle.asn_modules_rules.specs.lists.Extensions.{in_extension};
ghost use Rattle.asn_modules_grammar.specs.notation.Notation.{members_of};
ghost use Rattle.asn_modules_grammar.specs.notation.View.{component_view, members_view, notation_view};
ghost use Rattle.asn_modules_reader.specs.Views.{member_view};
ghost use Rattle.std.specs.Prelude.{◌≡◌, ◌++◌, [], OnOk, Some, map};
ghost use Rattle.std.specs.List.{cons_option};

use asn_lexer::Token;
use asn_modules_grammar::notation::{Base, Component, Extension, Member, Members, Notation};
use std::alloc::AllocError;

/// Is the name of a type.
#[derive(Clone, Copy, Drop)]
pub struct TypeName {
    /// Is the name of its module, where it is stated.
    pub home: Option<Token>,
    /// Is its name.
    pub name: Token,
}

/// Returns the name that the type is, or `None` where it is none.
pub fn name_of(notation: &Notation) -> Option<TypeName>
    ensures { result ≡ name_of (notation_view notation.now) }
{
    match &notation.base {
        Base::Reference { module, name } => Some(TypeName {
            home: *module,
            name: *name,
        }),
        Base::Leaf(_) => None,
        Base::Integer(_) => None,
        Base::BitString(_) => None,
        Base::Enumerated { .. } => None,
        Base::Sequence(_) => None,
        Base::Set(_) => None,
        Base::SequenceOf(_) => None,
        Base::SetOf(_) => None,
        Base::Choice(_) => None,
        Base::Instance { .. } => None,
    }
}

/// Appends the name, if there is one.
///
/// # Errors
///
/// Where memory runs out.
fn add_name(names: &mut Vec<TypeName>, name: Option<TypeName>) -> Result<(), AllocError>
    ensures { OnOk result (names.new.items ≡ names.old.items ++ cons_option name []) }
{
    match name {
        Some(name) => {
            names.push(name)?;
            Ok(())
        }
        None => Ok(()),
    }
}

/// Appends those within the type, in order.
///
/// # Errors
///
/// Where memory runs out.
#[cycle(behind)]
pub fn add_behind(names: &mut Vec<TypeName>, notation: &Notation) -> Result<(), AllocError>
    ensures { OnOk result
        (names.new.items ≡ names.old.items ++ behind (notation_view notation.now)) }
{
    match &notation.base {
        Base::Sequence(members) => add_members(names, members),
        Base::Set(members) => add_members(names, members),
        Base::SequenceOf(element) => add_behind(names, element),
        Base::SetOf(element) => add_behind(names, element),
        Base::Choice(alternatives) => add_members(names, alternatives),
        Base::Leaf(_) => Ok(()),
        Base::Integer(_) => Ok(()),
        Base::BitString(_) => Ok(()),
        Base::Enumerated { .. } => Ok(()),
        Base::Reference { .. } => Ok(()),
        Base::Instance { .. } => Ok(()),
    }
}

/// Appends those within members.
///
/// # Errors
///
/// Where memory runs out.
#[cycle(behind)]
fn add_members(names: &mut Vec<TypeName>, members: &Members) -> Result<(), AllocError>
    ensures { OnOk result (names.new.items ≡ names.old.items
        ++ members_behind (members_of (members_view members.now))) }
{
    add_entries(names, &members.root)?;
    if let Some(extension) = &members.extension {
        return add_extension(names, extension);
    }
    Ok(())
}

/// Appends those within what stands after an extension marker.
///
/// # Errors
///
/// Where memory runs out.
#[cycle(behind)]
fn add_extension(names: &mut Vec<TypeName>, extension: &Extension) -> Result<(), AllocError>
    ensures { OnOk result (names.new.items ≡ names.old.items
        ++ in_extension entries_behind (Some extension.now)) }
{
    add_entries(names, &extension.additions)?;
    if let Some(tail) = &extension.tail {
        return add_entries(names, tail);
    }
    Ok(())
}

/// Appends those within entries between braces.
///
/// # Errors
///
/// Where memory runs out.
#[cycle(behind)]
fn add_entries(names: &mut Vec<TypeName>, entries: &[Member]) -> Result<(), AllocError>
    ensures { OnOk result (names.new.items ≡ names.old.items ++ entries_behind entries.now) }
{
    for entry in entries {
        add_entry(names, entry)?;
    }
    Ok(())
}

/// Appends those within an entry.
///
/// # Errors
///
/// Where memory runs out.
#[cycle(behind)]
fn add_entry(names: &mut Vec<TypeName>, entry: &Member) -> Result<(), AllocError>
    ensures { OnOk result
        (names.new.items ≡ names.old.items ++ member_behind (member_view entry.now)) }
{
    match entry {
        Member::One(component) => add_component(names, component),
        Member::Group(components) => add_components(names, components),
    }
}

/// Appends those within components or alternatives.
///
/// # Errors
///
/// Where memory runs out.
#[cycle(behind)]
fn add_components(names: &mut Vec<TypeName>, components: &[Component]) -> Result<(), AllocError>
    ensures { OnOk result (names.new.items ≡ names.old.items
        ++ members_behind (members_of (map component_view components.now))) }
{
    for component in components {
        add_component(names, component)?;
    }
    Ok(())
}

/// Appends those within a component or alternative.
///
/// # Errors
///
/// Where memory runs out.
#[cycle(behind)]
fn add_component(names: &mut Vec<TypeName>, component: &Component) -> Result<(), AllocError>
    ensures { OnOk result
        (names.new.items ≡ names.old.items ++ member_behind (component_view component.now)) }
{
    match component {
        Component::Named { notation, .. } => add_behind(names, notation),
        Component::ComponentsOf(notation) => add_included(names, notation),
    }
}

/// Appends the type after COMPONENTS OF, if it is a name, and those within it.
///
/// # Errors
///
/// Where memory runs out.
#[cycle(behind)]
fn add_included(names: &mut Vec<TypeName>, notation: &Notation) -> Result<(), AllocError>
    ensures { OnOk result (names.new.items ≡ names.old.items
        ++ cons_option (name_of (notation_view notation.now))
        (behind (notation_view notation.now))) }
{
    add_name(names, name_of(notation))?;
    add_behind(names, notation)
}
