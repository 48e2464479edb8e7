//! Expands notations: each name of a type by the notation that is assigned to it.
ghost use Rattle.asn_growth.specs.Parts.{added_alternative_nodes, added_field_nodes};
ghost use Rattle.asn_growth.specs.Parts.{alternative_nodes, field_nodes, node_count};
ghost use Rattle.asn_model.specs.ShapeView.{added_field_views, alternative_views};
ghost use Rattle.asn_model.specs.ShapeView.{field_views, kind_view, shape_view};
ghost use Rattle.asn_expansion.specs.Expansion.{added_alternatives, added_fields};
ghost use Rattle.asn_expansion.specs.Expansion.{notation_shape, root_alternatives, root_fields};
ghost use Rattle.asn_expansion.specs.Expansion.{notation_named, type_shape};
ghost use Rattle.asn_expansion.specs.Large.{HasMore};
ghost use Rattle.asn_expansion.specs.OpenNames.{open_names};
ghost use Rattle.asn_expansion.specs.Places.{ArePlaces};
ghost use Rattle.asn_expansion.specs.Resolving.{KnowsPlaces, additions_view, resolve};
ghost use Rattle.asn_notation.specs.Names.{assigned_names};
ghost use Rattle.asn_notation.specs.Notation.{choice, elements_of, marker, members};
ghost use Rattle.asn_notation.specs.View.{assignment_view, component_view, components_view};
ghost use Rattle.asn_notation.specs.View.{marked, notation_view};
ghost use Rattle.std.specs.Prelude.{◌≡◌, ◌+◌, ◌<◌, ◌≤◌, Err, IfErr, IfOk, OnOk, Some};
ghost use Rattle.std.specs.Prelude.{length, map, option_map};

use crate::fault::ExpansionFault;
use crate::limits::{NODE_LIMIT, OPEN_LIMIT};
use crate::opened::{Opened, place_in};
use crate::parts::{context_tag, enumerated_shape, presence_of};
use asn_model::{AlternativeShape, FieldShape, SeqKind, Shape};
use asn_notation::{Assignment, Component, Components, Notation};
use std::alloc::Global;
use std::collections::HashMap;

/// Holds the place of each assignment beside the name of its type.
pub type Places<'a> = HashMap<&'a str, usize>;

/// Takes a node off those that are left.
///
/// # Errors
///
/// `TooLarge` where none is left.
fn take_node(left: &mut usize) -> Result<(), ExpansionFault>
    ensures ok { OnOk result (left.old ≡ left.new + 1) }
    ensures large { IfErr result (λ e. (e ≡ ExpansionFault.TooLarge) × (left.old ≡ 0)) }
{
    if *left == 0 {
        return Err(ExpansionFault::TooLarge);
    }
    *left -= 1;
    Ok(())
}

/// Expands names by the assignments of a module.
#[derive(Drop)]
pub struct Names<'a, 'b> {
    /// Provides memory.
    pub alloc: Global,
    /// Lists the assignments.
    pub assignments: &'a [Assignment],
    /// Holds their places.
    pub places: &'a Places<'b>,
}

/// Returns the notation that is assigned to the name, if one is.
fn notation_named<'a>(names: &Names<'a, '_>, name: &str) -> Option<&'a Notation>
    requires places { KnowsPlaces names.now }
    ensures { option_map (λ n. notation_view n.now) result
        ≡ notation_named (map assignment_view names.now.assignments.now) name.now }
{
    match names.places.get(name) {
        Some(place) => Some(&names.assignments[*place].notation),
        None => None,
    }
}

/// Returns the shape of the notation where these names are open, so many more may be open at
/// once, and so many nodes are left, of which it takes its own.
///
/// # Errors
///
/// `TooLarge` where there is no such shape, or it has more nodes, and `OutOfMemory`.
#[cycle(expand)]
fn shape_of(
    names: &Names<'_, '_>,
    notation: &Notation,
    opened: &Opened<'_>,
    more: usize,
    left: &mut usize,
) -> Result<Shape, ExpansionFault>
    requires places { KnowsPlaces names.now }
    requires few { length (open_names opened.now) + more ≡ 64 }
    requires nodes { left.old ≤ 65536 }
    ensures ok { IfOk result (λ s. notation_shape (resolve names.now more opened.now)
        (notation_view notation.now) ≡ Some (shape_view s)) }
    ensures taken { IfOk result (λ s. node_count (shape_view s) + left.new ≡ left.old) }
    ensures large { result ≡ Err ExpansionFault.TooLarge
        → HasMore node_count left.old (notation_shape (resolve names.now more opened.now)
        (notation_view notation.now)) }
{
    take_node(left)?;
    match notation {
        Notation::Boolean => Ok(Shape::Bool),
        Notation::Null => Ok(Shape::Null),
        Notation::Integer => Ok(Shape::Int {
            least: i128::MIN,
            greatest: i128::MAX as u128,
            width: i128::BITS,
        }),
        Notation::OctetString => Ok(Shape::Octets),
        Notation::BitString => Ok(Shape::Bits { fixed: None }),
        Notation::ObjectIdentifier => Ok(Shape::Oid),
        Notation::Text(alphabet) => Ok(Shape::Str {
            alphabet: *alphabet,
        }),
        Notation::Bmp => Ok(Shape::Bmp),
        Notation::Sequence(components) => {
            shape_of_members(names, SeqKind::Sequence, components, opened, more, left)
        }
        Notation::Set(components) => shape_of_members(
            names,
            SeqKind::Set,
            components,
            opened,
            more,
            left,
        ),
        Notation::SequenceOf(element) => {
            let element = shape_of(names, element, opened, more, left)?;
            Ok(Shape::ListOf(Box::new(names.alloc, element)?))
        }
        Notation::SetOf(element) => {
            let element = shape_of(names, element, opened, more, left)?;
            Ok(Shape::SetOf(Box::new(names.alloc, element)?))
        }
        Notation::Choice(alternatives) => shape_of_choice(names, alternatives, opened, more, left),
        Notation::Enumerated { items, added } => {
            Ok(enumerated_shape(names.alloc, items, added)?)
        }
        Notation::Reference(name) => shape_of_name(names, name.as_str(), opened, more, left),
    }
}

/// Returns the expansion of the name, whose own node is taken already.
///
/// # Errors
///
/// `TooLarge` where there is none, or it has more nodes, and `OutOfMemory`.
#[cycle(expand)]
fn shape_of_name(
    names: &Names<'_, '_>,
    name: &str,
    opened: &Opened<'_>,
    more: usize,
    left: &mut usize,
) -> Result<Shape, ExpansionFault>
    requires places { KnowsPlaces names.now }
    requires few { length (open_names opened.now) + more ≡ 64 }
    requires nodes { left.old < 65536 }
    ensures ok { IfOk result (λ s. resolve names.now more opened.now name.now
        ≡ Some (shape_view s)) }
    ensures taken { IfOk result (λ s. node_count (shape_view s) + left.new ≡ left.old + 1) }
    ensures large { result ≡ Err ExpansionFault.TooLarge
        → HasMore node_count (left.old + 1) (resolve names.now more opened.now name.now) }
{
    if let Some(place) = place_in(opened, name) {
        return Ok(Shape::Back(place));
    }
    if more == 0 {
        return Err(ExpansionFault::TooLarge);
    }
    match notation_named(names, name) {
        Some(notation) => {
            let within = Opened::Name(name, &*opened);
            let body = shape_of(names, notation, &within, more - 1, left)?;
            Ok(Shape::Loop(Box::new(names.alloc, body)?))
        }
        // A name that isn't assigned has no expansion.
        None => Err(ExpansionFault::TooLarge),
    }
}

/// Returns the shape of a SEQUENCE or SET of the components, whose own node is taken already.
///
/// # Errors
///
/// `TooLarge` where there is none, or it has more nodes, and `OutOfMemory`.
#[cycle(expand)]
fn shape_of_members(
    names: &Names<'_, '_>,
    kind: SeqKind,
    components: &Components,
    opened: &Opened<'_>,
    more: usize,
    left: &mut usize,
) -> Result<Shape, ExpansionFault>
    requires places { KnowsPlaces names.now }
    requires few { length (open_names opened.now) + more ≡ 64 }
    requires nodes { left.old < 65536 }
    ensures ok { IfOk result (λ s. notation_shape (resolve names.now more opened.now)
        (members (kind_view kind) (elements_of (components_view components.now)))
        ≡ Some (shape_view s)) }
    ensures taken { IfOk result (λ s. node_count (shape_view s) + left.new ≡ left.old + 1) }
    ensures large { result ≡ Err ExpansionFault.TooLarge
        → HasMore node_count (left.old + 1) (notation_shape (resolve names.now more opened.now)
        (members (kind_view kind) (elements_of (components_view components.now)))) }
{
    let mut tag = 0;
    let fields = fields_of(names, &components.root, opened, more, &mut tag, left)?;
    let added = added_fields_of(names, &components.added, opened, more, tag, left)?;
    Ok(Shape::Seq {
        kind,
        fields,
        added,
    })
}

/// Returns the shape of a CHOICE of the alternatives, whose own node is taken already.
///
/// # Errors
///
/// `TooLarge` where there is none, or it has more nodes, and `OutOfMemory`.
#[cycle(expand)]
fn shape_of_choice(
    names: &Names<'_, '_>,
    components: &Components,
    opened: &Opened<'_>,
    more: usize,
    left: &mut usize,
) -> Result<Shape, ExpansionFault>
    requires places { KnowsPlaces names.now }
    requires few { length (open_names opened.now) + more ≡ 64 }
    requires nodes { left.old < 65536 }
    ensures ok { IfOk result (λ s. notation_shape (resolve names.now more opened.now)
        (choice (elements_of (components_view components.now)))
        ≡ Some (shape_view s)) }
    ensures taken { IfOk result (λ s. node_count (shape_view s) + left.new ≡ left.old + 1) }
    ensures large { result ≡ Err ExpansionFault.TooLarge
        → HasMore node_count (left.old + 1) (notation_shape (resolve names.now more opened.now)
        (choice (elements_of (components_view components.now)))) }
{
    let mut tag = 0;
    let alternatives = alternatives_of(names, &components.root, opened, more, &mut tag, left)?;
    let added = added_alternatives_of(names, &components.added, opened, more, tag, left)?;
    Ok(Shape::Choice {
        alternatives,
        added,
    })
}

/// Returns the fields that the components are, with tags from this number on, which is left
/// behind them.
///
/// # Errors
///
/// `TooLarge` where a shape is missing or they have more nodes, and `OutOfMemory`.
#[cycle(expand)]
fn fields_of(
    names: &Names<'_, '_>,
    components: &[Component],
    opened: &Opened<'_>,
    more: usize,
    tag: &mut u32,
    left: &mut usize,
) -> Result<Vec<FieldShape>, ExpansionFault>
    requires places { KnowsPlaces names.now }
    requires few { length (open_names opened.now) + more ≡ 64 }
    requires nodes { tag.old + left.old < 65536 }
    ensures ok { IfOk result (λ fs. root_fields (resolve names.now more opened.now) tag.old
        (elements_of (map component_view components.now)) ≡ Some (field_views fs.items)) }
    ensures taken { IfOk result (λ fs.
        field_nodes (field_views fs.items) + left.new ≡ left.old) }
    ensures tags { OnOk result (tag.new ≡ tag.old + length components.now) }
    ensures within { OnOk result (tag.new + left.new ≤ tag.old + left.old) }
    ensures fewer { OnOk result (left.new ≤ left.old) }
    ensures large { result ≡ Err ExpansionFault.TooLarge → HasMore field_nodes left.old
        (root_fields (resolve names.now more opened.now) tag.old
        (elements_of (map component_view components.now))) }
{
    let mut fields = Vec::new(names.alloc);
    for component in components {
        let shape = shape_of(names, &component.notation, opened, more, left)?;
        let name = component.name.clone()?;
        fields.push(FieldShape {
            name,
            tag: context_tag(*tag),
            presence: presence_of(component.optional),
            shape,
        })?;
        *tag += 1;
    }
    Ok(fields)
}

/// Returns the fields that the extension additions are, if there is an extension marker, with tags
/// from this number on.
///
/// # Errors
///
/// `TooLarge` where a shape is missing or they have more nodes, and `OutOfMemory`.
#[cycle(expand)]
fn added_fields_of(
    names: &Names<'_, '_>,
    added: &Option<Vec<Component>>,
    opened: &Opened<'_>,
    more: usize,
    mut tag: u32,
    left: &mut usize,
) -> Result<Option<Vec<FieldShape>>, ExpansionFault>
    requires places { KnowsPlaces names.now }
    requires few { length (open_names opened.now) + more ≡ 64 }
    requires nodes { tag + left.old < 65536 }
    ensures ok { IfOk result (λ made. added_fields (resolve names.now more opened.now) tag
        (elements_of (marked component_view marker added.now)) ≡ Some (added_field_views made)) }
    ensures taken { IfOk result (λ made.
        added_field_nodes (added_field_views made) + left.new ≡ left.old) }
    ensures large { result ≡ Err ExpansionFault.TooLarge
        → HasMore added_field_nodes left.old (added_fields (resolve names.now more opened.now) tag
        (elements_of (marked component_view marker added.now))) }
{
    match added {
        Some(added) => {
            let made = fields_of(names, added, opened, more, &mut tag, left)?;
            Ok(Some(made))
        }
        None => Ok(None),
    }
}

/// Returns the alternatives that the components are, with tags from this number on, which is
/// left behind them.
///
/// # Errors
///
/// `TooLarge` where a shape is missing or they have more nodes, and `OutOfMemory`.
#[cycle(expand)]
fn alternatives_of(
    names: &Names<'_, '_>,
    components: &[Component],
    opened: &Opened<'_>,
    more: usize,
    tag: &mut u32,
    left: &mut usize,
) -> Result<Vec<AlternativeShape>, ExpansionFault>
    requires places { KnowsPlaces names.now }
    requires few { length (open_names opened.now) + more ≡ 64 }
    requires nodes { tag.old + left.old < 65536 }
    ensures ok { IfOk result (λ alts.
        root_alternatives (resolve names.now more opened.now) tag.old
        (elements_of (map component_view components.now))
        ≡ Some (alternative_views alts.items)) }
    ensures taken { IfOk result (λ alts.
        alternative_nodes (alternative_views alts.items) + left.new ≡ left.old) }
    ensures tags { OnOk result (tag.new ≡ tag.old + length components.now) }
    ensures within { OnOk result (tag.new + left.new ≤ tag.old + left.old) }
    ensures fewer { OnOk result (left.new ≤ left.old) }
    ensures large { result ≡ Err ExpansionFault.TooLarge
        → HasMore alternative_nodes left.old
        (root_alternatives (resolve names.now more opened.now) tag.old
        (elements_of (map component_view components.now))) }
{
    let mut alternatives = Vec::new(names.alloc);
    for component in components {
        let shape = shape_of(names, &component.notation, opened, more, left)?;
        let identifier = component.name.clone()?;
        alternatives.push(AlternativeShape {
            identifier,
            tag: context_tag(*tag),
            shape,
        })?;
        *tag += 1;
    }
    Ok(alternatives)
}

/// Returns the alternatives that the extension additions are, if there is an extension marker, with
/// tags from this number on.
///
/// # Errors
///
/// `TooLarge` where a shape is missing or they have more nodes, and `OutOfMemory`.
#[cycle(expand)]
fn added_alternatives_of(
    names: &Names<'_, '_>,
    added: &Option<Vec<Component>>,
    opened: &Opened<'_>,
    more: usize,
    mut tag: u32,
    left: &mut usize,
) -> Result<Option<Vec<AlternativeShape>>, ExpansionFault>
    requires places { KnowsPlaces names.now }
    requires few { length (open_names opened.now) + more ≡ 64 }
    requires nodes { tag + left.old < 65536 }
    ensures ok { IfOk result (λ made. added_alternatives (resolve names.now more opened.now) tag
        (elements_of (marked component_view marker added.now)) ≡ Some (additions_view made)) }
    ensures taken { IfOk result (λ made.
        added_alternative_nodes (additions_view made) + left.new ≡ left.old) }
    ensures large { result ≡ Err ExpansionFault.TooLarge
        → HasMore added_alternative_nodes left.old
        (added_alternatives (resolve names.now more opened.now) tag
        (elements_of (marked component_view marker added.now))) }
{
    match added {
        Some(added) => {
            let made = alternatives_of(names, added, opened, more, &mut tag, left)?;
            Ok(Some(made))
        }
        None => Ok(None),
    }
}

/// Returns the shape of the type of this name, by the assignments and their places.
///
/// # Errors
///
/// `TooLarge` where the shape has more nodes than the limit, or would open more names at once than
/// the limit, and `OutOfMemory`.
pub fn expand(
    alloc: Global,
    assignments: &[Assignment],
    places: &Places<'_>,
    name: &str,
) -> Result<Shape, ExpansionFault>
    requires places { ArePlaces places.now
        (assigned_names (map assignment_view assignments.now)) }
    ensures ok { IfOk result (λ s. type_shape OPEN_LIMIT (map assignment_view assignments.now)
        name.now ≡ Some (shape_view s)) }
    ensures few { IfOk result (λ s. node_count (shape_view s) ≤ NODE_LIMIT) }
    ensures large { result ≡ Err ExpansionFault.TooLarge → HasMore node_count NODE_LIMIT
        (type_shape OPEN_LIMIT (map assignment_view assignments.now) name.now) }
{
    let names = Names {
        alloc,
        assignments,
        places,
    };
    let mut left = NODE_LIMIT - 1;
    shape_of_name(&names, name, &Opened::Nothing, OPEN_LIMIT, &mut left)
}
