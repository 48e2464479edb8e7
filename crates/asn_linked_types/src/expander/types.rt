//! Expands types: puts each type that is named in the place of its name.
ghost use Rattle.asn_expansion.specs.Resolving.{additions_view};
ghost use Rattle.asn_growth.specs.Parts.{added_alternative_nodes, added_field_nodes};
ghost use Rattle.asn_growth.specs.Parts.{alternative_nodes, field_nodes, node_count};
ghost use Rattle.asn_linked_types.specs.expander.Large.{IsBeyond, IsTooLarge};
ghost use Rattle.asn_linked_types.specs.expander.Loops.{added_alternative_loops, added_field_loops};
ghost use Rattle.asn_linked_types.specs.expander.Loops.{alternative_loops, field_loops, loop_depth};
ghost use Rattle.asn_linked_types.specs.expander.OpenTypes.{open_numbers};
ghost use Rattle.asn_linked_types.specs.expander.Resolving.{resolve};
ghost use Rattle.asn_linked_types.specs.Expansion.{expansion, linked_added_alternatives};
ghost use Rattle.asn_linked_types.specs.Expansion.{linked_added_fields, linked_alternatives};
ghost use Rattle.asn_linked_types.specs.Expansion.{linked_fields, linked_shape};
ghost use Rattle.asn_model.specs.Shape as spec;
ghost use Rattle.asn_model.specs.ShapeView.{added_field_views, alternative_views, field_views};
ghost use Rattle.asn_model.specs.ShapeView.{kind_view, shape_view};
ghost use Rattle.std.specs.Prelude.{◌≡◌, ◌+◌, ◌-◌, ◌<◌, ◌≤◌, [], Err, IfErr, IfOk, OnOk};
ghost use Rattle.std.specs.Prelude.{length, map};

use crate::expander::copies::{copy_of_items, copy_of_leaf, copy_of_presence};
use crate::expander::limits::{NODE_LIMIT, OPEN_LIMIT};
use crate::expander::opened::{Opened, place_in};
use crate::no_values;
use asn_expansion::ExpansionFault;
use asn_model::{AlternativeShape, FieldShape, Shape};
use std::alloc::Global;

/// Holds types that are expanded.
#[derive(Drop)]
pub struct Types<'t> {
    /// Provides memory.
    pub alloc: Global,
    /// Lists the types.
    pub types: &'t [Shape],
}

/// Takes a node off those that are left.
///
/// # Errors
///
/// `TooLarge` where none is left.
fn take_node(left: &mut usize) -> Result<(), ExpansionFault>
    ensures ok { OnOk result (left.old ≡ left.new + 1) }
    ensures large { IfErr result (λ e. (e ≡ ExpansionFault.TooLarge) × (left.old ≡ 0)) }
{
    if *left == 0 {
        return Err(ExpansionFault::TooLarge);
    }
    *left -= 1;
    Ok(())
}

/// Returns the shape with the types that it names in the places of their names, where so many
/// types are open, and so many nodes are left, of which it takes its own.
///
/// # Errors
///
/// `TooLarge` where it has more nodes, or opens more types at once than the limit, and
/// `OutOfMemory`.
#[cycle(expand)]
fn shape_of(
    shape: &Shape,
    types: &Types<'_>,
    opened: &Opened<'_>,
    depth: usize,
    left: &mut usize,
) -> Result<Shape, ExpansionFault>
    requires depth { length (open_numbers opened.now) ≡ depth }
    requires few { depth ≤ OPEN_LIMIT }
    ensures ok { IfOk result (λ s. shape_view s
        ≡ linked_shape (resolve types.now opened.now) (shape_view shape.now)) }
    ensures taken { IfOk result (λ s. node_count (shape_view s) + left.new ≡ left.old) }
    ensures large { result ≡ Err ExpansionFault.TooLarge
        → IsBeyond node_count loop_depth left.old (OPEN_LIMIT - depth)
        (linked_shape (resolve types.now opened.now) (shape_view shape.now)) }
{
    take_node(left)?;
    match shape {
        Shape::Enum { items, added } => Ok(copy_of_items(items, added)?),
        Shape::Seq {
            kind,
            fields,
            added,
        } => {
            let fields = fields_of(fields, types, opened, depth, left)?;
            let added = added_fields_of(added, types, opened, depth, left)?;
            Ok(Shape::Seq {
                kind: *kind,
                fields,
                added,
            })
        }
        Shape::Choice {
            alternatives,
            added,
        } => {
            let alternatives = alternatives_of(alternatives, types, opened, depth, left)?;
            let added = added_alternatives_of(added, types, opened, depth, left)?;
            Ok(Shape::Choice {
                alternatives,
                added,
            })
        }
        Shape::ListOf(part) => Ok(Shape::ListOf(boxed(part, types, opened, depth, left)?)),
        Shape::SetOf(part) => Ok(Shape::SetOf(boxed(part, types, opened, depth, left)?)),
        Shape::Table(part) => Ok(Shape::Table(boxed(part, types, opened, depth, left)?)),
        // A loop stands for a type without values.
        Shape::Loop(_) => Ok(no_values(types.alloc)),
        Shape::Back(number) => shape_of_type(*number, types, opened, depth, left),
        leaf => Ok(copy_of_leaf(leaf)),
    }
}

/// Returns the element or entry in the same way, in a box.
///
/// # Errors
///
/// Those of `shape_of`.
#[cycle(expand)]
fn boxed(
    part: &Shape,
    types: &Types<'_>,
    opened: &Opened<'_>,
    depth: usize,
    left: &mut usize,
) -> Result<Box<Shape>, ExpansionFault>
    requires depth { length (open_numbers opened.now) ≡ depth }
    requires few { depth ≤ OPEN_LIMIT }
    ensures ok { IfOk result (λ b. shape_view b.value
        ≡ linked_shape (resolve types.now opened.now) (shape_view part.now)) }
    ensures taken { IfOk result (λ b. node_count (shape_view b.value) + left.new ≡ left.old) }
    ensures large { result ≡ Err ExpansionFault.TooLarge
        → IsBeyond node_count loop_depth left.old (OPEN_LIMIT - depth)
        (linked_shape (resolve types.now opened.now) (shape_view part.now)) }
{
    let shape = shape_of(part, types, opened, depth, left)?;
    Ok(Box::new(types.alloc, shape)?)
}

/// Returns what the type of a number means, whose own node is taken already.
///
/// # Errors
///
/// Those of `shape_of`.
#[cycle(expand)]
fn shape_of_type(
    number: u32,
    types: &Types<'_>,
    opened: &Opened<'_>,
    depth: usize,
    left: &mut usize,
) -> Result<Shape, ExpansionFault>
    requires depth { length (open_numbers opened.now) ≡ depth }
    requires few { depth ≤ OPEN_LIMIT }
    ensures ok { IfOk result (λ s. shape_view s ≡ resolve types.now opened.now number) }
    ensures taken { IfOk result (λ s. node_count (shape_view s) + left.new ≡ left.old + 1) }
    ensures large { result ≡ Err ExpansionFault.TooLarge
        → IsBeyond node_count loop_depth (left.old + 1) (OPEN_LIMIT - depth)
        (resolve types.now opened.now number) }
{
    if let Some(place) = place_in(opened, number) {
        return Ok(Shape::Back(place));
    }
    if depth >= types.types.len() {
        return Ok(no_values(types.alloc));
    }
    match types.types.get(number as usize) {
        Some(body) => {
            if depth >= OPEN_LIMIT {
                return Err(ExpansionFault::TooLarge);
            }
            let within = Opened::Number(number, &*opened);
            let body = boxed(body, types, &within, depth + 1, left)?;
            Ok(Shape::Loop(body))
        }
        None => Ok(no_values(types.alloc)),
    }
}

/// Returns the fields, each with its shape in the same way.
///
/// # Errors
///
/// Those of `shape_of`.
#[cycle(expand)]
fn fields_of(
    fields: &[FieldShape],
    types: &Types<'_>,
    opened: &Opened<'_>,
    depth: usize,
    left: &mut usize,
) -> Result<Vec<FieldShape>, ExpansionFault>
    requires depth { length (open_numbers opened.now) ≡ depth }
    requires few { depth ≤ OPEN_LIMIT }
    ensures ok { IfOk result (λ fs. field_views fs.items
        ≡ linked_fields (resolve types.now opened.now) (field_views fields.now)) }
    ensures taken { IfOk result (λ fs.
        field_nodes (field_views fs.items) + left.new ≡ left.old) }
    ensures large { result ≡ Err ExpansionFault.TooLarge
        → IsBeyond field_nodes field_loops left.old (OPEN_LIMIT - depth)
        (linked_fields (resolve types.now opened.now) (field_views fields.now)) }
{
    let mut made = Vec::new(types.alloc);
    for field in fields {
        let shape = shape_of(&field.shape, types, opened, depth, left)?;
        made.push(FieldShape {
            name: field.name.clone()?,
            tag: field.tag,
            presence: copy_of_presence(&field.presence)?,
            shape,
        })?;
    }
    Ok(made)
}

/// Returns the extension additions, if there is an extension marker, in the same way.
///
/// # Errors
///
/// Those of `shape_of`.
#[cycle(expand)]
fn added_fields_of(
    added: &Option<Vec<FieldShape>>,
    types: &Types<'_>,
    opened: &Opened<'_>,
    depth: usize,
    left: &mut usize,
) -> Result<Option<Vec<FieldShape>>, ExpansionFault>
    requires depth { length (open_numbers opened.now) ≡ depth }
    requires few { depth ≤ OPEN_LIMIT }
    ensures ok { IfOk result (λ made. added_field_views made
        ≡ linked_added_fields (resolve types.now opened.now) (added_field_views added.now)) }
    ensures taken { IfOk result (λ made.
        added_field_nodes (added_field_views made) + left.new ≡ left.old) }
    ensures large { result ≡ Err ExpansionFault.TooLarge
        → IsBeyond added_field_nodes added_field_loops left.old (OPEN_LIMIT - depth)
        (linked_added_fields (resolve types.now opened.now) (added_field_views added.now)) }
{
    match added {
        Some(added) => {
            let made = fields_of(added, types, opened, depth, left)?;
            Ok(Some(made))
        }
        None => Ok(None),
    }
}

/// Returns the alternatives, each with its shape in the same way.
///
/// # Errors
///
/// Those of `shape_of`.
#[cycle(expand)]
fn alternatives_of(
    alternatives: &[AlternativeShape],
    types: &Types<'_>,
    opened: &Opened<'_>,
    depth: usize,
    left: &mut usize,
) -> Result<Vec<AlternativeShape>, ExpansionFault>
    requires depth { length (open_numbers opened.now) ≡ depth }
    requires few { depth ≤ OPEN_LIMIT }
    ensures ok { IfOk result (λ alts. alternative_views alts.items
        ≡ linked_alternatives (resolve types.now opened.now)
        (alternative_views alternatives.now)) }
    ensures taken { IfOk result (λ alts.
        alternative_nodes (alternative_views alts.items) + left.new ≡ left.old) }
    ensures large { result ≡ Err ExpansionFault.TooLarge
        → IsBeyond alternative_nodes alternative_loops left.old (OPEN_LIMIT - depth)
        (linked_alternatives (resolve types.now opened.now)
        (alternative_views alternatives.now)) }
{
    let mut made = Vec::new(types.alloc);
    for alternative in alternatives {
        let shape = shape_of(&alternative.shape, types, opened, depth, left)?;
        let identifier = alternative.identifier.clone()?;
        made.push(AlternativeShape {
            identifier,
            tag: alternative.tag,
            shape,
        })?;
    }
    Ok(made)
}

/// Returns the extension additions, if there is an extension marker, in the same way.
///
/// # Errors
///
/// Those of `shape_of`.
#[cycle(expand)]
fn added_alternatives_of(
    added: &Option<Vec<AlternativeShape>>,
    types: &Types<'_>,
    opened: &Opened<'_>,
    depth: usize,
    left: &mut usize,
) -> Result<Option<Vec<AlternativeShape>>, ExpansionFault>
    requires depth { length (open_numbers opened.now) ≡ depth }
    requires few { depth ≤ OPEN_LIMIT }
    ensures ok { IfOk result (λ made. additions_view made
        ≡ linked_added_alternatives (resolve types.now opened.now)
        (additions_view added.now)) }
    ensures taken { IfOk result (λ made.
        added_alternative_nodes (additions_view made) + left.new ≡ left.old) }
    ensures large { result ≡ Err ExpansionFault.TooLarge
        → IsBeyond added_alternative_nodes added_alternative_loops left.old (OPEN_LIMIT - depth)
        (linked_added_alternatives (resolve types.now opened.now)
        (additions_view added.now)) }
{
    match added {
        Some(added) => {
            let made = alternatives_of(added, types, opened, depth, left)?;
            Ok(Some(made))
        }
        None => Ok(None),
    }
}

/// Returns the shape that the type of a number means, among types in which `Shape::Back` of a
/// number names the type of that number: each type that is named is a loop in the place of its
/// name, or the loop around it where it is open. Where there is no type of a number, the type
/// without values stands for it.
///
/// # Errors
///
/// `TooLarge` where that shape has more than `NODE_LIMIT` nodes, or more than `OPEN_LIMIT` types
/// would be open at once; `OutOfMemory`.
pub fn expand(alloc: Global, types: &[Shape], number: u32) -> Result<Shape, ExpansionFault>
    ensures ok { IfOk result (λ s. shape_view s
        ≡ expansion (map shape_view types.now) (length types.now) [] number) }
    ensures nodes { IfOk result (λ s. node_count (shape_view s) ≤ NODE_LIMIT) }
    ensures large { result ≡ Err ExpansionFault.TooLarge
        → IsTooLarge (expansion (map shape_view types.now) (length types.now) [] number) }
{
    let types = Types { alloc, types };
    let mut left = NODE_LIMIT - 1;
    shape_of_type(number, &types, &Opened::Nothing, 0, &mut left)
}
