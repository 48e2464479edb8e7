//! Counts the nodes of shapes.
ghost use Rattle.asn_growth.specs.Parts.{node_count};
ghost use Rattle.asn_model.specs.ShapeView.{shape_view};
ghost use Rattle.std.specs.Prelude.{◌≡◌, ◌+◌, ◌<◌, ◌^◌, ◌↔◌, IsTrue, min};

use crate::parts::{part_at, part_count};
use asn_model::Shape;

/// Is the last place that a node may have.
const LAST_PLACE: usize = 4_294_967_295;

/// Returns whether the shape has fewer than 2^32 nodes, so that each has a place. It takes no
/// memory.
pub fn few_nodes(shape: &Shape) -> bool
    ensures { IsTrue result ↔ node_count (shape_view shape.now) < 2 ^ 32 }
{
    place_after(shape, 0) <= LAST_PLACE
}

/// Returns the place after the last node of a shape whose root has this place, or 2^32 where it is
/// larger.
pub fn place_after(shape: &Shape, place: usize) -> usize
    ensures { result ≡ min (place + node_count (shape_view shape.now)) (2 ^ 32) }
{
    let mut next = place.min(LAST_PLACE) + 1;
    for index in 0..part_count(shape) {
        next = place_after(part_at(shape, index), next);
    }
    next
}
