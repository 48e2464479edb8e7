//! Makes the shapes of types as modules state them.
ghost use Rattle.asn_model.specs.ShapeView.{kind_view, shape_view};
ghost use Rattle.asn_modules_grammar.specs.notation.Notation.{members_of, notations_of};
ghost use Rattle.asn_modules_grammar.specs.notation.View.{component_view, members_view, notation_view};
ghost use Rattle.asn_modules_grammar.specs.declared.notation.notation.Members.{out-Members};
ghost use Rattle.asn_modules_reader.specs.Views.{base_view, member_view};
ghost use Rattle.asn_modules_types.specs.Known.{KnowsNames, known_parts, lists_view};
ghost use Rattle.asn_modules_types.specs.Known.{parts_view, place_view, roots_view, scope_view};
ghost use Rattle.asn_modules_types.specs.Known.{sources_of, tail_of};
ghost use Rattle.asn_modules_types.specs.Linked.{is_numbered, no_roots, type_roots};
ghost use Rattle.asn_modules_types.specs.Lists.{all_known, root_of};
ghost use Rattle.asn_modules_types.specs.Types.{Roots, base_roots, base_shape};
ghost use Rattle.asn_modules_types.specs.Types.{choice_shape, lists_of, members_shape};
ghost use Rattle.asn_modules_types.specs.Types.{notation_roots, notation_shape};
ghost use Rattle.asn_modules_types.specs.Types.{outside_brackets, parts};
ghost use Rattle.std.specs.Prelude.{◌≡◌, ◌≤◌, ◌+◌, ◌∷◌, [], IfOk, OnOk, false, map, option_map};
ghost use Rattle.std.specs.Prelude.{true};

use crate::allowance::{Allowance, Depth, take_type};
use crate::assigned::{assigned_at, notation_of, parameters_of};
use crate::copies::component_shape;
use crate::defaults::presence_of;
use crate::fault::LinkFault;
use crate::leaves::enumerated_shape;
use crate::limits::NAME_LIMIT;
use crate::names::{Names, unit_shape};
use crate::parts::{Lists, Part, Place, alternatives_of, fields_of, relaxed_parts};
use crate::scope::{Scope, included_number, is_extensible};
use crate::sizes::sized;
use crate::templates::{bindings_of, takes, template_named};
use crate::words::name_in;
use asn_lexer::Token;
use asn_linked_types::no_values;
use asn_model::{SeqKind, Shape};
use asn_modules_grammar::notation::{Base, Component, Extension, Member, Members, Notation};
use std::alloc::Global;

/// Returns the shape of the type, at most so deep. It takes the types that it makes off those that
/// are left.
///
/// # Errors
///
/// `TooMany` where it has 2^32 parts in a list, or more types than are left, or nests deeper, and
/// `OutOfMemory`.
#[cycle(shapes)]
pub fn shape_of(
    scope: &Scope<'_, '_, '_>,
    depth: Depth,
    left: &mut Allowance,
    notation: &Notation,
) -> Result<Shape, LinkFault>
    requires known { KnowsNames scope.now.names.now }
    ensures shape { IfOk result (λ s. shape_view s
        ≡ notation_shape (roots_view depth.names scope.now) (scope_view NAME_LIMIT scope.now)
        (notation_view notation.now)) }
    ensures fewer { OnOk result (left.new.types ≤ left.old.types) }
{
    let within = Depth {
        names: depth.names,
        levels: take_type(left, depth)?,
    };
    let shape = base_shape_of(scope, within, left, &notation.base)?;
    Ok(sized(scope, notation.sizes.as_slice(), shape))
}

/// Returns the shape of a type without its tags and sizes.
///
/// # Errors
///
/// Those of `shape_of`.
#[cycle(shapes)]
fn base_shape_of(
    scope: &Scope<'_, '_, '_>,
    depth: Depth,
    left: &mut Allowance,
    base: &Base,
) -> Result<Shape, LinkFault>
    requires known { KnowsNames scope.now.names.now }
    ensures shape { IfOk result (λ s. shape_view s
        ≡ base_shape (roots_view depth.names scope.now) (scope_view NAME_LIMIT scope.now)
        (base_view base.now)) }
    ensures fewer { OnOk result (left.new.types ≤ left.old.types) }
{
    let alloc = scope.names.alloc;
    match base {
        Base::Sequence(members) => {
            members_shape(
                alloc,
                SeqKind::Sequence,
                lists_of(scope, depth, left, SeqKind::Sequence, members)?,
            )
        }
        Base::Set(members) => {
            members_shape(
                alloc,
                SeqKind::Set,
                lists_of(scope, depth, left, SeqKind::Set, members)?,
            )
        }
        Base::SequenceOf(element) => {
            let element = shape_of(scope, depth, left, element)?;
            Ok(Shape::ListOf(Box::new(alloc, element)?))
        }
        Base::SetOf(element) => {
            let element = shape_of(scope, depth, left, element)?;
            Ok(Shape::SetOf(Box::new(alloc, element)?))
        }
        Base::Choice(members) => choice_shape(
            alloc,
            lists_of(scope, depth, left, SeqKind::Sequence, members)?,
        ),
        Base::Enumerated { items, added } => Ok(enumerated_shape(scope, items, added)?),
        Base::Leaf(_) => unnumbered_shape(scope, base),
        Base::Integer(_) => unnumbered_shape(scope, base),
        Base::BitString(_) => unnumbered_shape(scope, base),
        Base::Reference { .. } => unnumbered_shape(scope, base),
        Base::Instance {
            module,
            name,
            arguments,
        } => instance_shape(scope, depth, left, *module, *name, arguments.as_slice()),
    }
}

/// Returns the shape of the type of this name with these actual parameters: it has no values where
/// it is missing or doesn't take them, or stands within a type with parameters itself.
///
/// # Errors
///
/// Those of `shape_of`.
#[cycle(shapes)]
fn instance_shape(
    scope: &Scope<'_, '_, '_>,
    depth: Depth,
    left: &mut Allowance,
    module_name: Option<Token>,
    name: Token,
    arguments: &[Notation],
) -> Result<Shape, LinkFault>
    requires known { KnowsNames scope.now.names.now }
    ensures shape { IfOk result (λ s. shape_view s
        ≡ (roots_view depth.names scope.now).instance module_name name
        (notations_of (map notation_view arguments.now))) }
    ensures fewer { OnOk result (left.new.types ≤ left.old.types) }
{
    let alloc = scope.names.alloc;
    if scope.within {
        return Ok(no_values(alloc));
    }
    let Some(template) = template_named(scope, module_name, name) else {
        return Ok(no_values(alloc));
    };
    if !takes(scope.names, arguments.len(), template) {
        return Ok(no_values(alloc));
    }
    let parameters = parameters_of(template.assignment);
    let bound = bindings_of(alloc, scope, parameters, arguments)?;
    let inner = Scope {
        names: &*scope.names,
        number: template.number,
        home: template.home,
        within: true,
        bindings: bound.as_slice(),
    };
    shape_of(&inner, depth, left, notation_of(template.assignment))
}

/// Returns the shape of a type without parts and items.
///
/// # Errors
///
/// Only `OutOfMemory`.
fn unnumbered_shape(scope: &Scope<'_, '_, '_>, base: &Base) -> Result<Shape, LinkFault>
    requires known { KnowsNames scope.now.names.now }
    requires unit { is_numbered (base_view base.now) ≡ false }
    ensures { IfOk result (λ s. (roots : Roots) → shape_view s
        ≡ base_shape roots (scope_view NAME_LIMIT scope.now) (base_view base.now)) }
{
    match unit_shape(scope, NAME_LIMIT, base)? {
        Some(shape) => Ok(shape),
        None => Ok(no_values(scope.names.alloc)),
    }
}

/// Returns the shape of a SEQUENCE or SET of these parts; it has no values where they aren't
/// understood.
///
/// # Errors
///
/// Those of `shape_of`.
fn members_shape(alloc: Global, kind: SeqKind, lists: Option<Lists>) -> Result<Shape, LinkFault>
    ensures { IfOk result (λ s. shape_view s
        ≡ members_shape (kind_view kind) (option_map lists_view lists)) }
{
    let Some(lists) = lists else {
        return Ok(no_values(alloc));
    };
    let mut tag = 0;
    let fields = fields_of(alloc, lists.root, &mut tag)?;
    let added = match lists.added {
        Some(added) => Some(fields_of(alloc, added, &mut tag)?),
        None => None,
    };
    Ok(Shape::Seq {
        kind,
        fields,
        added,
    })
}

/// Returns the shape of a CHOICE of these parts; it has no values where they aren't understood.
///
/// # Errors
///
/// Those of `shape_of`.
fn choice_shape(alloc: Global, lists: Option<Lists>) -> Result<Shape, LinkFault>
    ensures { IfOk result (λ s. shape_view s ≡ choice_shape (option_map lists_view lists)) }
{
    let Some(lists) = lists else {
        return Ok(no_values(alloc));
    };
    let mut tag = 0;
    let alternatives = alternatives_of(alloc, lists.root, &mut tag)?;
    let added = match lists.added {
        Some(added) => Some(alternatives_of(alloc, added, &mut tag)?),
        None => None,
    };
    Ok(Shape::Choice {
        alternatives,
        added,
    })
}

/// Returns the parts between the braces of a type, or `None` where they aren't understood.
///
/// # Errors
///
/// Those of `shape_of`.
#[cycle(shapes)]
fn lists_of(
    scope: &Scope<'_, '_, '_>,
    depth: Depth,
    left: &mut Allowance,
    kind: SeqKind,
    members: &Members,
) -> Result<Option<Lists>, LinkFault>
    requires known { KnowsNames scope.now.names.now }
    ensures lists { IfOk result (λ o. option_map lists_view o
        ≡ lists_of (scope_view NAME_LIMIT scope.now).extensible
        (parts (roots_view depth.names scope.now) (scope_view NAME_LIMIT scope.now)
        (outside_brackets (kind_view kind)) (members_of (members_view members.now)))) }
    ensures fewer { OnOk result (left.new.types ≤ left.old.types) }
{
    let place = Place {
        kind,
        grouped: false,
    };
    let Some(root) = root_of(scope, depth, left, place, members)? else {
        return Ok(None);
    };
    let added = match &members.extension {
        Some(extension) => {
            let additions = extension.additions.as_slice();
            let Some(added) = parts_of(scope, depth, left, place, additions)? else {
                return Ok(None);
            };
            Some(relaxed_parts(scope.names.alloc, added)?)
        }
        None => {
            if is_extensible(scope) {
                Some(Vec::new(scope.names.alloc))
            } else {
                None
            }
        }
    };
    Ok(Some(Lists { root, added }))
}

/// Returns the entries after the second extension marker.
fn tail_of(extension: &Option<Extension>) -> &[Member]
    ensures { result.now ≡ tail_of extension.now }
{
    match extension {
        Some(extension) => match &extension.tail {
            Some(tail) => tail.as_slice(),
            None => &[],
        },
        None => &[],
    }
}

/// Returns the parts of the root of a type: those before the first extension marker and after the
/// second one, or `None` where one of them isn't understood.
///
/// # Errors
///
/// Those of `shape_of`.
#[cycle(shapes)]
fn root_of(
    scope: &Scope<'_, '_, '_>,
    depth: Depth,
    left: &mut Allowance,
    place: Place,
    members: &Members,
) -> Result<Option<Vec<Part>>, LinkFault>
    requires known { KnowsNames scope.now.names.now }
    ensures root { IfOk result (λ o. option_map parts_view o
        ≡ all_known (root_of (parts (roots_view depth.names scope.now)
        (scope_view NAME_LIMIT scope.now) (place_view place)
        (members_of (members_view members.now))))) }
    ensures fewer { OnOk result (left.new.types ≤ left.old.types) }
{
    let Some(mut root) = parts_of(scope, depth, left, place, members.root.as_slice())? else {
        return Ok(None);
    };
    let tail = tail_of(&members.extension);
    let Some(mut behind) = parts_of(scope, depth, left, place, tail)? else {
        return Ok(None);
    };
    root.append(&mut behind)?;
    Ok(Some(root))
}

/// Returns the parts that these entries are, or `None` where one of them isn't understood.
///
/// # Errors
///
/// Those of `shape_of`.
#[cycle(shapes)]
fn parts_of(
    scope: &Scope<'_, '_, '_>,
    depth: Depth,
    left: &mut Allowance,
    place: Place,
    entries: &[Member],
) -> Result<Option<Vec<Part>>, LinkFault>
    requires known { KnowsNames scope.now.names.now }
    ensures parts { IfOk result (λ o. option_map parts_view o
        ≡ known_parts (roots_view depth.names scope.now) (scope_view NAME_LIMIT scope.now)
        (place_view place)
        (map member_view entries.now)) }
    ensures fewer { OnOk result (left.new.types ≤ left.old.types) }
{
    let mut found = Vec::new(scope.names.alloc);
    for entry in entries {
        match parts_of_entry(scope, depth, left, place, entry)? {
            Some(mut parts) => found.append(&mut parts)?,
            None => return Ok(None),
        }
    }
    Ok(Some(found))
}

/// Returns the parts that an entry is, or `None` where one of them isn't understood.
///
/// # Errors
///
/// Those of `shape_of`.
#[cycle(shapes)]
fn parts_of_entry(
    scope: &Scope<'_, '_, '_>,
    depth: Depth,
    left: &mut Allowance,
    place: Place,
    entry: &Member,
) -> Result<Option<Vec<Part>>, LinkFault>
    requires known { KnowsNames scope.now.names.now }
    ensures parts { IfOk result (λ o. option_map parts_view o
        ≡ known_parts (roots_view depth.names scope.now) (scope_view NAME_LIMIT scope.now)
        (place_view place)
        (member_view entry.now ∷ [])) }
    ensures fewer { OnOk result (left.new.types ≤ left.old.types) }
{
    match entry {
        Member::One(component) => part_of(scope, depth, left, place, component),
        Member::Group(components) => {
            let within = Place {
                kind: place.kind,
                grouped: true,
            };
            group_of(scope, depth, left, within, components.as_slice())
        }
    }
}

/// Returns the parts between version brackets, or `None` where one of them isn't understood.
///
/// # Errors
///
/// Those of `shape_of`.
#[cycle(shapes)]
fn group_of(
    scope: &Scope<'_, '_, '_>,
    depth: Depth,
    left: &mut Allowance,
    place: Place,
    components: &[Component],
) -> Result<Option<Vec<Part>>, LinkFault>
    requires known { KnowsNames scope.now.names.now }
    ensures parts { IfOk result (λ o. option_map parts_view o
        ≡ known_parts (roots_view depth.names scope.now) (scope_view NAME_LIMIT scope.now)
        (place_view place) (map component_view components.now)) }
    ensures fewer { OnOk result (left.new.types ≤ left.old.types) }
{
    let mut found = Vec::new(scope.names.alloc);
    for component in components {
        match part_of(scope, depth, left, place, component)? {
            Some(mut parts) => found.append(&mut parts)?,
            None => return Ok(None),
        }
    }
    Ok(Some(found))
}

/// Returns the part that a component is, or those that COMPONENTS OF is, or `None` where they
/// aren't understood.
///
/// # Errors
///
/// Those of `shape_of`.
#[cycle(shapes)]
fn part_of(
    scope: &Scope<'_, '_, '_>,
    depth: Depth,
    left: &mut Allowance,
    place: Place,
    component: &Component,
) -> Result<Option<Vec<Part>>, LinkFault>
    requires known { KnowsNames scope.now.names.now }
    ensures parts { IfOk result (λ o. option_map parts_view o
        ≡ known_parts (roots_view depth.names scope.now) (scope_view NAME_LIMIT scope.now)
        (place_view place)
        (component_view component.now ∷ [])) }
    ensures fewer { OnOk result (left.new.types ≤ left.old.types) }
{
    match component {
        Component::Named {
            name,
            notation,
            presence,
        } => {
            let stated = shape_of(scope, depth, left, notation)?;
            let shape = component_shape(scope.names, *presence, stated)?;
            let Some(presence) = presence_of(scope, place.grouped, notation, &shape, *presence)?
            else {
                return Ok(None);
            };
            let name = name_in(scope.names.alloc, scope.home.source.text, *name)?;
            let part = Part {
                name,
                presence,
                shape,
            };
            Ok(Some(vec![in scope.names.alloc; part]?))
        }
        Component::ComponentsOf(notation) => roots_of(scope, depth, left, place, notation),
    }
}

/// Returns what COMPONENTS OF the type is there: the components of its root, or `None` where it
/// isn't of the kind of the type around them, or they aren't understood.
///
/// # Errors
///
/// Those of `shape_of`.
#[cycle(shapes)]
fn roots_of(
    scope: &Scope<'_, '_, '_>,
    depth: Depth,
    left: &mut Allowance,
    place: Place,
    notation: &Notation,
) -> Result<Option<Vec<Part>>, LinkFault>
    requires known { KnowsNames scope.now.names.now }
    ensures roots { IfOk result (λ o. option_map parts_view o
        ≡ notation_roots (roots_view depth.names scope.now) (scope_view NAME_LIMIT scope.now)
        (place_view place) (notation_view notation.now)) }
    ensures fewer { OnOk result (left.new.types ≤ left.old.types) }
{
    let within = Depth {
        names: depth.names,
        levels: take_type(left, depth)?,
    };
    base_roots_of(scope, within, left, place, &notation.base)
}

/// Returns what COMPONENTS OF the type is there, as `roots_of`, without its tags and sizes.
///
/// # Errors
///
/// Those of `shape_of`.
#[cycle(shapes)]
fn base_roots_of(
    scope: &Scope<'_, '_, '_>,
    depth: Depth,
    left: &mut Allowance,
    place: Place,
    base: &Base,
) -> Result<Option<Vec<Part>>, LinkFault>
    requires known { KnowsNames scope.now.names.now }
    ensures roots { IfOk result (λ o. option_map parts_view o
        ≡ base_roots (roots_view depth.names scope.now) (scope_view NAME_LIMIT scope.now)
        (place_view place) (base_view base.now)) }
    ensures fewer { OnOk result (left.new.types ≤ left.old.types) }
{
    match base {
        Base::Sequence(members) => match place.kind {
            SeqKind::Sequence => root_of(scope, depth, left, place, members),
            SeqKind::Set => Ok(None),
        },
        Base::Set(members) => match place.kind {
            SeqKind::Sequence => Ok(None),
            SeqKind::Set => root_of(scope, depth, left, place, members),
        },
        Base::Reference { module, name } => match included_number(scope, *module, *name) {
            Some(number) => type_roots(scope.names, depth, left, place, number),
            None => Ok(None),
        },
        Base::Leaf(_) => Ok(None),
        Base::Integer(_) => Ok(None),
        Base::BitString(_) => Ok(None),
        Base::Enumerated { .. } => Ok(None),
        Base::SequenceOf(_) => Ok(None),
        Base::SetOf(_) => Ok(None),
        Base::Choice(_) => Ok(None),
        Base::Instance { .. } => Ok(None),
    }
}

/// Returns what COMPONENTS OF the type of the number is there, as `roots_of`.
///
/// # Errors
///
/// Those of `shape_of`.
#[cycle(shapes)]
fn type_roots(
    names: &Names<'_, '_>,
    depth: Depth,
    left: &mut Allowance,
    place: Place,
    number: usize,
) -> Result<Option<Vec<Part>>, LinkFault>
    requires known { KnowsNames names.now }
    ensures roots { IfOk result (λ o. option_map parts_view o
        ≡ type_roots (sources_of names.now) depth.names number (place_view place)) }
    ensures fewer { OnOk result (left.new.types ≤ left.old.types) }
{
    if depth.names == 0 {
        return Ok(None);
    }
    match assigned_at(names.types, number) {
        Some(assigned) => {
            let scope = Scope {
                names: &*names,
                number: assigned.number,
                home: assigned.home,
                within: false,
                bindings: &[],
            };
            let past = Depth {
                names: depth.names - 1,
                levels: depth.levels,
            };
            let notation = notation_of(assigned.assignment);
            roots_of(&scope, past, left, place, notation)
        }
        None => Ok(None),
    }
}
