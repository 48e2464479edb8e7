//! Collects the types within types.
ghost use Rattle.asn_modules_rules.specs.lists.Extensions.{entries_written, in_extension};
ghost use Rattle.asn_modules_rules.specs.lists.Written.{bases, member_bases, members_bases};
ghost use Rattle.asn_modules_rules.specs.lists.Written.{written_in, written_view};
ghost use Rattle.asn_modules_names.specs.Mentions.{source_view};
ghost use Rattle.asn_modules_grammar.specs.notation.Notation.{members_of};
ghost use Rattle.asn_modules_grammar.specs.notation.View.{component_view, members_view, notation_view};
ghost use Rattle.asn_modules_reader.specs.Views.{member_view};
ghost use Rattle.std.specs.Prelude.{◌≡◌, ◌++◌, OnOk, Some, map};

use crate::lists::written::WrittenType;
use asn_modules_grammar::notation::{Base, Component, Extension, Member, Members, Notation};
use asn_modules_reader::text::Source;
use std::alloc::AllocError;

/// Appends the type, and then those within it, in order.
///
/// # Errors
///
/// Where memory runs out.
#[cycle(types)]
pub fn add_type<'s, 't>(
    found: &mut Vec<WrittenType<'s, 't>>,
    source: &'s Source<'t>,
    notation: &'s Notation,
) -> Result<(), AllocError>
    ensures { OnOk result (map written_view found.new.items ≡ map written_view found.old.items
        ++ map (written_in (source_view source.now)) (bases (notation_view notation.now))) }
{
    let base = &notation.base;
    found.push(WrittenType { source, base })?;
    match base {
        Base::Sequence(members) => add_members(found, source, members),
        Base::Set(members) => add_members(found, source, members),
        Base::SequenceOf(element) => add_type(found, source, element),
        Base::SetOf(element) => add_type(found, source, element),
        Base::Choice(alternatives) => add_members(found, source, alternatives),
        _ => Ok(()),
    }
}

/// Appends the types within members.
///
/// # Errors
///
/// Where memory runs out.
#[cycle(types)]
fn add_members<'s, 't>(
    found: &mut Vec<WrittenType<'s, 't>>,
    source: &'s Source<'t>,
    members: &'s Members,
) -> Result<(), AllocError>
    ensures { OnOk result (map written_view found.new.items ≡ map written_view found.old.items
        ++ map (written_in (source_view source.now))
        (members_bases (members_of (members_view members.now)))) }
{
    add_entries(found, source, &members.root)?;
    if let Some(extension) = &members.extension {
        return add_extension(found, source, extension);
    }
    Ok(())
}

/// Appends the types within what stands after an extension marker.
///
/// # Errors
///
/// Where memory runs out.
#[cycle(types)]
fn add_extension<'s, 't>(
    found: &mut Vec<WrittenType<'s, 't>>,
    source: &'s Source<'t>,
    extension: &'s Extension,
) -> Result<(), AllocError>
    ensures { OnOk result (map written_view found.new.items ≡ map written_view found.old.items
        ++ in_extension (entries_written (source_view source.now)) (Some extension.now)) }
{
    add_entries(found, source, &extension.additions)?;
    if let Some(tail) = &extension.tail {
        return add_entries(found, source, tail);
    }
    Ok(())
}

/// Appends the types within entries between braces.
///
/// # Errors
///
/// Where memory runs out.
#[cycle(types)]
fn add_entries<'s, 't>(
    found: &mut Vec<WrittenType<'s, 't>>,
    source: &'s Source<'t>,
    entries: &'s [Member],
) -> Result<(), AllocError>
    ensures { OnOk result (map written_view found.new.items ≡ map written_view found.old.items
        ++ map (written_in (source_view source.now))
        (members_bases (members_of (map member_view entries.now)))) }
{
    for entry in entries {
        add_entry(found, source, entry)?;
    }
    Ok(())
}

/// Appends the types within an entry.
///
/// # Errors
///
/// Where memory runs out.
#[cycle(types)]
fn add_entry<'s, 't>(
    found: &mut Vec<WrittenType<'s, 't>>,
    source: &'s Source<'t>,
    entry: &'s Member,
) -> Result<(), AllocError>
    ensures { OnOk result (map written_view found.new.items ≡ map written_view found.old.items
        ++ map (written_in (source_view source.now)) (member_bases (member_view entry.now))) }
{
    match entry {
        Member::One(component) => add_component(found, source, component),
        Member::Group(components) => add_components(found, source, components),
    }
}

/// Appends the types within components or alternatives.
///
/// # Errors
///
/// Where memory runs out.
#[cycle(types)]
fn add_components<'s, 't>(
    found: &mut Vec<WrittenType<'s, 't>>,
    source: &'s Source<'t>,
    components: &'s [Component],
) -> Result<(), AllocError>
    ensures { OnOk result (map written_view found.new.items ≡ map written_view found.old.items
        ++ map (written_in (source_view source.now))
        (members_bases (members_of (map component_view components.now)))) }
{
    for component in components {
        add_component(found, source, component)?;
    }
    Ok(())
}

/// Appends the types within a component or alternative.
///
/// # Errors
///
/// Where memory runs out.
#[cycle(types)]
fn add_component<'s, 't>(
    found: &mut Vec<WrittenType<'s, 't>>,
    source: &'s Source<'t>,
    component: &'s Component,
) -> Result<(), AllocError>
    ensures { OnOk result (map written_view found.new.items ≡ map written_view found.old.items
        ++ map (written_in (source_view source.now))
        (member_bases (component_view component.now))) }
{
    match component {
        Component::Named { notation, .. } => add_type(found, source, notation),
        Component::ComponentsOf(notation) => add_type(found, source, notation),
    }
}
