//! Finds the way to a node of a shape.
ghost use Rattle.asn_growth.specs.Parts.{node_count};
ghost use Rattle.asn_growth.specs.Paths.{paths};
ghost use Rattle.asn_model.specs.ShapeView.{shape_view};
ghost use Rattle.std.specs.List.{slice_index_or};
ghost use Rattle.std.specs.Prelude.{◌≡◌, ◌+◌, ◌++◌, ◌<◌, ◌^◌, IfOk, MatchOption, [], map, reverse};
ghost use Rattle.std.specs.Prelude.{string_bytes};

use crate::parts::{part_at, part_count, step_at};
use asn_core::OutOfMemory;
use asn_model::Shape;
use std::alloc::Global;

/// Returns the steps from the root to the node of this place: the name of a field, the identifier
/// of an alternative, `*` for an element or entry, and no step for the body of a loop.
///
/// # Errors
///
/// Lack of memory alone.
pub fn place_path(alloc: Global, shape: &Shape, place: usize) -> Result<Vec<String>, OutOfMemory>
    requires { place < node_count (shape_view shape.now) }
    ensures { IfOk result (λ path. map string_bytes path.items
        ≡ slice_index_or (paths (shape_view shape.now)) place []) }
{
    let mut path = Vec::new(alloc);
    let _found = add_steps(alloc, shape, place, &mut path)?;
    path.reverse();
    Ok(path)
}

/// Adds the steps to the node of this place, the last one first, where the shape has that many
/// nodes. Else it adds nothing, and returns how many places further on the node is.
///
/// # Errors
///
/// Lack of memory alone.
fn add_steps(
    alloc: Global,
    shape: &Shape,
    place: usize,
    path: &mut Vec<String>,
) -> Result<Option<usize>, OutOfMemory>
    ensures { IfOk result (λ beyond. MatchOption beyond
        ((place < node_count (shape_view shape.now)) × (map string_bytes path.new.items
        ≡ map string_bytes path.old.items
        ++ reverse (slice_index_or (paths (shape_view shape.now)) place [])))
        (λ left. (left + node_count (shape_view shape.now) ≡ place)
        × (path.new.items ≡ path.old.items))) }
{
    if place == 0 {
        return Ok(None);
    }
    let mut left = place - 1;
    for index in 0..part_count(shape) {
        match add_steps(alloc, part_at(shape, index), left, &mut *path)? {
            Some(further) => left = further,
            None => {
                if let Some(step) = step_at(shape, index) {
                    path.push(String::from_str(alloc, step)?)?;
                }
                return Ok(None);
            }
        }
    }
    Ok(Some(left))
}
