//! Orders the fields of a SET as they are read.
ghost use Rattle.asn_coding.specs.SetFields.{places_read};
ghost use Rattle.asn_model.specs.Components.{tag_cmp};
ghost use Rattle.asn_model.specs.Shape.{Fields, FieldAdditions, SeqKind};
ghost use Rattle.asn_model.specs.Shape.{Shape as AbstractShape};
ghost use Rattle.asn_model.specs.Sorting.{sort};
ghost use Rattle.asn_parts.specs.Names.{counted};
ghost use Rattle.std.specs.Ordering.{on};
ghost use Rattle.std.specs.Prelude.{◌≡◌, ◌++◌, List, IfOk, map};

use crate::Part;
use asn_core::{OutOfMemory, Tag};
use std::alloc::Global;
use std::cmp::Ordering;

/// Returns the places of the fields of a SET in the order in which they are read: those of the root
/// by their tags (X.680, section 8.6), where fields of equal tags stay in order, and then the
/// extension additions.
///
/// # Errors
///
/// `OutOfMemory` alone.
pub fn places_as_read<P: Part>(alloc: Global, part: &P) -> Result<Vec<usize>, OutOfMemory>
    ensures { IfOk result (λ order. (around : List P) (fs : Fields) (added : FieldAdditions)
        → P.shape around part.now ≡ AbstractShape.seq SeqKind.set fs added
        → order.items ≡ map (λ p. p.0) (places_read fs added)) }
{
    let root = part.root_count();
    let mut spots: Vec<(usize, Tag)> = Vec::with_capacity(alloc, root)?;
    for place in 0..root {
        spots.push((place, part.field(place).tag))?;
    }
    spots.sort_by(|left, right| tag_order(left.1, right.1))?;
    let count = part.field_count();
    let mut order = Vec::with_capacity(alloc, count)?;
    for spot in &spots {
        order.push(spot.0)?;
    }
    for place in root..count {
        order.push(place)?;
    }
    Ok(order)
}

/// Compares two tags: by class first, then by number.
fn tag_order(left: Tag, right: Tag) -> Ordering
    ensures { result ≡ tag_cmp left right }
{
    left.cmp(&right)
}
