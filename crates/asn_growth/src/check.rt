//! Tests whether a shape is a later version of another.
ghost use Rattle.asn_growth.specs.Differences.{IsPlaceBelow, differences_of, growth_of};
ghost use Rattle.asn_growth.specs.Grows as relation;
ghost use Rattle.asn_growth.specs.Parts.{node_count};
ghost use Rattle.asn_model.specs.ShapeView.{shape_view};
ghost use Rattle.std.specs.Prelude.{◌≡◌, ◌+◌, ◌<◌, ◌^◌, ◌↔◌, [], Some, MatchResult};
ghost use Rattle.std.specs.List.{slice_get};

use crate::compare::reason_at;
use crate::parts::{part_at, part_count};
use crate::{Growth, Reason};
use asn_model::Shape;

/// Returns whether the newer shape is a later version of the older one, or else the first place of
/// the older one that differs, and the reason. It takes no memory.
pub fn grows_check(old: &Shape, new: &Shape) -> Growth
    requires { node_count (shape_view old.now) < 2 ^ 32 }
    ensures grows { result ≡ Growth.Grows
        ↔ relation.Grows (shape_view old.now) (shape_view new.now) }
    ensures within { IsPlaceBelow (node_count (shape_view old.now)) result }
    ensures first { result
        ≡ growth_of (differences_of (shape_view old.now) (shape_view new.now) 0) }
{
    match first_difference(old, new, 0) {
        Ok(_) => Growth::Grows,
        Err((place, reason)) => Growth::Differs { place, reason },
    }
}

/// Returns the place after the last node of the older shape, whose root has this place, or else the
/// first place that differs, and the reason.
///
/// # Errors
///
/// The first place that differs, with its reason.
fn first_difference(old: &Shape, new: &Shape, place: usize) -> Result<usize, (usize, Reason)>
    requires { place + node_count (shape_view old.now) < 2 ^ 32 }
    ensures { MatchResult result (λ next. (next ≡ place + node_count (shape_view old.now))
        × (differences_of (shape_view old.now) (shape_view new.now) place ≡ []))
        (λ first. slice_get (differences_of (shape_view old.now) (shape_view new.now) place) 0
        ≡ Some first) }
{
    if let Some(reason) = reason_at(old, new) {
        return Err((place, reason));
    }
    let mut next = place + 1;
    for index in 0..part_count(old) {
        next = first_difference(part_at(old, index), part_at(new, index), next)?;
    }
    Ok(next)
}
