//! Counts what COMPONENTS OF includes, in bytes.
ghost use Rattle.asn_modules_rules.specs.included.Extents.{around, base_extent, front_extent};
ghost use Rattle.asn_modules_rules.specs.included.Extents.{included_extent, left_behind};
ghost use Rattle.asn_modules_rules.specs.included.Extents.{member_extent, members_extent, named_extent};
ghost use Rattle.asn_modules_rules.specs.included.Extents.{type_extent};
ghost use Rattle.asn_modules_rules.specs.included.Scopes.{entries_extent, inclusions_in};
ghost use Rattle.asn_modules_names.specs.lookup.Indexes.{IsIndexOf};
ghost use Rattle.asn_modules_names.specs.declared.lookup.sort.Sort.TheVariants.{Types};
ghost use Rattle.asn_modules_names.specs.Mentions.{Source};
ghost use Rattle.asn_modules_grammar.specs.notation.Notation.{members_of};
ghost use Rattle.asn_modules_grammar.specs.notation.View.{component_view, members_view, notation_view};
ghost use Rattle.asn_modules_reader.specs.Views.{base_view, member_view};
ghost use Rattle.std.specs.Prelude.{◌≡◌, List, map};

use crate::included::limits::TYPE_SIZE;
use crate::included::names::TypeName;
use crate::included::scope::{Depth, Scope};
use crate::included::sizes::{past_constraints, past_instance, past_presence, past_reference};
use crate::included::types::{type_at, type_named};
use crate::sizes::{take_items, take_name, take_numbers};
use asn_modules_grammar::notation::{Base, Component, Member, Members, Notation};

/// Returns how many of so many bytes are left after the type, or `None` where there aren't as
/// many, or it nests too deep. This and the others below count a type with all that stands in it.
#[cycle(count)]
pub fn past_type(
    scope: &Scope<'_, '_, '_>,
    depth: Depth,
    left: usize,
    notation: &Notation,
) -> Option<usize>
    ensures { (ss : List Source) → IsIndexOf Types ss scope.now.index.now → result ≡ left_behind
        (type_extent (inclusions_in ss scope.now depth.names) (notation_view notation.now))
        left depth.levels }
{
    let within = depth.within()?;
    let typed = left.checked_sub(TYPE_SIZE)?;
    let rest = past_constraints(typed, &notation.sizes)?;
    past_base(scope, within, rest, &notation.base)
}

/// Returns how many are left after what stands in a type without its tags and constraints.
#[cycle(count)]
fn past_base(scope: &Scope<'_, '_, '_>, depth: Depth, left: usize, base: &Base) -> Option<usize>
    ensures { (ss : List Source) → IsIndexOf Types ss scope.now.index.now → result ≡ left_behind
        (base_extent (inclusions_in ss scope.now depth.names) (base_view base.now))
        left depth.levels }
{
    match base {
        Base::Sequence(members) => past_members(scope, depth, left, members),
        Base::Set(members) => past_members(scope, depth, left, members),
        Base::SequenceOf(element) => past_type(scope, depth, left, element),
        Base::SetOf(element) => past_type(scope, depth, left, element),
        Base::Choice(alternatives) => past_members(scope, depth, left, alternatives),
        Base::Integer(named) => take_numbers(left, named),
        Base::Enumerated { items, added } => take_items(left, items, added),
        Base::Reference { module, name } => past_reference(left, *module, *name),
        Base::Instance { .. } => past_instance(left),
        Base::Leaf(_) => Some(left),
        Base::BitString(_) => Some(left),
    }
}

/// Returns how many are left after members.
#[cycle(count)]
fn past_members(
    scope: &Scope<'_, '_, '_>,
    depth: Depth,
    left: usize,
    members: &Members,
) -> Option<usize>
    ensures { (ss : List Source) → IsIndexOf Types ss scope.now.index.now → result ≡ left_behind
        (members_extent (inclusions_in ss scope.now depth.names)
        (members_of (members_view members.now))) left depth.levels }
{
    let rest = past_root(scope, depth, left, members)?;
    match &members.extension {
        Some(extension) => past_entries(scope, depth, rest, &extension.additions),
        None => Some(rest),
    }
}

/// Returns how many are left after the root: what stands before the first extension marker, and
/// after the second one.
#[cycle(count)]
fn past_root(
    scope: &Scope<'_, '_, '_>,
    depth: Depth,
    left: usize,
    members: &Members,
) -> Option<usize>
    ensures { (ss : List Source) → IsIndexOf Types ss scope.now.index.now → result ≡ left_behind
        (front_extent (inclusions_in ss scope.now depth.names)
        (members_of (members_view members.now))) left depth.levels }
{
    let rest = past_entries(scope, depth, left, &members.root)?;
    let Some(extension) = &members.extension else {
        return Some(rest);
    };
    match &extension.tail {
        Some(tail) => past_entries(scope, depth, rest, tail),
        None => Some(rest),
    }
}

/// Returns how many are left after entries between braces.
#[cycle(count)]
fn past_entries(
    scope: &Scope<'_, '_, '_>,
    depth: Depth,
    left: usize,
    entries: &[Member],
) -> Option<usize>
    ensures { (ss : List Source) → IsIndexOf Types ss scope.now.index.now → result ≡ left_behind
        (entries_extent (inclusions_in ss scope.now depth.names) entries.now)
        left depth.levels }
{
    let mut rest = left;
    for entry in entries {
        rest = past_entry(scope, depth, rest, entry)?;
    }
    Some(rest)
}

/// Returns how many are left after an entry.
#[cycle(count)]
fn past_entry(scope: &Scope<'_, '_, '_>, depth: Depth, left: usize, entry: &Member) -> Option<usize>
    ensures { (ss : List Source) → IsIndexOf Types ss scope.now.index.now → result ≡ left_behind
        (member_extent (inclusions_in ss scope.now depth.names) (member_view entry.now))
        left depth.levels }
{
    match entry {
        Member::One(component) => past_component(scope, depth, left, component),
        Member::Group(components) => past_components(scope, depth, left, components),
    }
}

/// Returns how many are left after components or alternatives.
#[cycle(count)]
fn past_components(
    scope: &Scope<'_, '_, '_>,
    depth: Depth,
    left: usize,
    components: &[Component],
) -> Option<usize>
    ensures { (ss : List Source) → IsIndexOf Types ss scope.now.index.now → result ≡ left_behind
        (members_extent (inclusions_in ss scope.now depth.names)
        (members_of (map component_view components.now))) left depth.levels }
{
    let mut rest = left;
    for component in components {
        rest = past_component(scope, depth, rest, component)?;
    }
    Some(rest)
}

/// Returns how many are left after a component or alternative.
#[cycle(count)]
fn past_component(
    scope: &Scope<'_, '_, '_>,
    depth: Depth,
    left: usize,
    component: &Component,
) -> Option<usize>
    ensures { (ss : List Source) → IsIndexOf Types ss scope.now.index.now → result ≡ left_behind
        (member_extent (inclusions_in ss scope.now depth.names) (component_view component.now))
        left depth.levels }
{
    match component {
        Component::Named {
            name,
            notation,
            presence,
        } => {
            let named = take_name(left, *name)?;
            let rest = past_presence(named, *presence)?;
            past_type(scope, depth, rest, notation)
        }
        Component::ComponentsOf(notation) => past_included(scope, depth, left, notation),
    }
}

/// Returns how many are left after a type after COMPONENTS OF, with what it includes.
#[cycle(count)]
fn past_included(
    scope: &Scope<'_, '_, '_>,
    depth: Depth,
    left: usize,
    notation: &Notation,
) -> Option<usize>
    ensures { (ss : List Source) → IsIndexOf Types ss scope.now.index.now → result ≡ left_behind
        (included_extent (inclusions_in ss scope.now depth.names) (notation_view notation.now))
        left depth.levels }
{
    let within = depth.within()?;
    let rest = left.checked_sub(TYPE_SIZE)?;
    match &notation.base {
        Base::Sequence(members) => past_root(scope, within, rest, members),
        Base::Set(members) => past_root(scope, within, rest, members),
        Base::Reference { module, name } => {
            let name = TypeName {
                home: *module,
                name: *name,
            };
            past_named(scope, within, rest, name)
        }
        Base::Leaf(_) => Some(rest),
        Base::Integer(_) => Some(rest),
        Base::BitString(_) => Some(rest),
        Base::Enumerated { .. } => Some(rest),
        Base::SequenceOf(_) => Some(rest),
        Base::SetOf(_) => Some(rest),
        Base::Choice(_) => Some(rest),
        Base::Instance { .. } => Some(rest),
    }
}

/// Returns how many are left after the name after COMPONENTS OF, with what it includes.
#[cycle(count)]
fn past_named(scope: &Scope<'_, '_, '_>, depth: Depth, left: usize, name: TypeName) -> Option<usize>
    ensures { (ss : List Source) → IsIndexOf Types ss scope.now.index.now → result ≡ left_behind
        (named_extent (inclusions_in ss scope.now depth.names) name.home name.name)
        left depth.levels }
{
    let rest = past_reference(left, name.home, name.name)?;
    past_inclusion(scope, depth, rest, name)
}

/// Returns how many are left after what the name after COMPONENTS OF includes.
#[cycle(count)]
fn past_inclusion(
    scope: &Scope<'_, '_, '_>,
    depth: Depth,
    left: usize,
    name: TypeName,
) -> Option<usize>
    ensures { (ss : List Source) → IsIndexOf Types ss scope.now.index.now → result ≡ left_behind
        (inclusions_in ss scope.now depth.names name.home name.name) left depth.levels }
{
    let Some(number) = type_named(scope.index, scope.number, scope.home, name) else {
        return Some(left);
    };
    if depth.names == 0 {
        return Some(left);
    }
    let Some(named) = type_at(scope.types, number) else {
        return Some(left);
    };
    let there = Scope {
        index: scope.index,
        types: scope.types,
        number: named.number,
        home: named.home,
    };
    let past = Depth {
        names: depth.names - 1,
        levels: depth.levels,
    };
    past_included(&there, past, left, named.notation)
}

/// Returns how many of so many bytes are left after the name after COMPONENTS OF, with what it
/// includes, or `None` where there aren't as many, or it nests too deep.
pub fn past_type_name(
    scope: &Scope<'_, '_, '_>,
    depth: Depth,
    left: usize,
    name: TypeName,
) -> Option<usize>
    ensures { (ss : List Source) → IsIndexOf Types ss scope.now.index.now → result ≡ left_behind
        (around (named_extent (inclusions_in ss scope.now depth.names) name.home name.name))
        left depth.levels }
{
    let within = depth.within()?;
    let rest = left.checked_sub(TYPE_SIZE)?;
    past_named(scope, within, rest, name)
}
