//! Collects the places at which a shape is no later version of another.
ghost use Rattle.asn_growth.specs.Differences.{Ascends, differences_of};
ghost use Rattle.asn_growth.specs.Grows.{Grows};
ghost use Rattle.asn_growth.specs.Parts.{node_count};
ghost use Rattle.asn_model.specs.ShapeView.{shape_view};
ghost use Rattle.std.specs.Prelude.{◌≡◌, ◌+◌, ◌++◌, ◌<◌, ◌^◌, ◌↔◌, [], All, IfOk};

use crate::Reason;
use crate::compare::reason_at;
use crate::nodes::place_after;
use crate::parts::{part_at, part_count};
use asn_core::OutOfMemory;
use asn_model::Shape;
use std::alloc::Global;

/// Returns all places of the older shape that differ in the newer one, in order, each with the
/// reason. A place that differs isn't gone into. There are none exactly where the newer shape is a
/// later version.
///
/// # Errors
///
/// Lack of memory alone.
pub fn differences(
    alloc: Global,
    old: &Shape,
    new: &Shape,
) -> Result<Vec<(usize, Reason)>, OutOfMemory>
    requires { node_count (shape_view old.now) < 2 ^ 32 }
    ensures all { IfOk result (λ found. found.items
        ≡ differences_of (shape_view old.now) (shape_view new.now) 0) }
    ensures none { IfOk result (λ found. (found.items ≡ [])
        ↔ Grows (shape_view old.now) (shape_view new.now)) }
    ensures in_order { IfOk result (λ found. Ascends 0 (node_count (shape_view old.now))
        found.items) }
    ensures within { IfOk result (λ found. All (λ d. d.0 < node_count (shape_view old.now))
        found.items) }
{
    let mut found = Vec::new(alloc);
    add_differences(old, new, 0, &mut found)?;
    Ok(found)
}

/// Adds the places that differ, where the root of the older shape has this place, and returns the
/// place after its last node.
///
/// # Errors
///
/// Lack of memory alone.
fn add_differences(
    old: &Shape,
    new: &Shape,
    place: usize,
    found: &mut Vec<(usize, Reason)>,
) -> Result<usize, OutOfMemory>
    requires { place + node_count (shape_view old.now) < 2 ^ 32 }
    ensures { IfOk result (λ next. (next ≡ place + node_count (shape_view old.now))
        × (found.new.items
        ≡ found.old.items ++ differences_of (shape_view old.now) (shape_view new.now) place)) }
{
    if let Some(reason) = reason_at(old, new) {
        found.push((place, reason))?;
        return Ok(place_after(old, place));
    }
    let mut next = place + 1;
    for index in 0..part_count(old) {
        next = add_differences(part_at(old, index), part_at(new, index), next, &mut *found)?;
    }
    Ok(next)
}
