//! Tests whether types that name each other by number can be read.
ghost use Rattle.asn_linked_types.specs.Expansion.{expansion};
ghost use Rattle.asn_linked_types.specs.Linked.{are_linked, are_readable_among};
ghost use Rattle.asn_model.specs.Readable.{is_readable};
ghost use Rattle.asn_model.specs.ShapeView.{shape_view};
ghost use Rattle.std.specs.Prelude.{◌≡◌, ◌<◌, ℕ, [], length, map, true};

use crate::limits::TYPE_LIMIT;
use asn_model::{Shape, is_readable_within};

/// Returns whether types that name each other by number can be read, each by the number that it
/// has in the list: `Shape::Back` of a number names the type of that number, from 0 on. It takes no
/// memory, and its time is that of `asn_model::is_readable` over each type once.
///
/// Each type meets what a shape has to meet that can be read. Each name is that of a type of the
/// list, and no type is only a name of another one. There are fewer types than `TYPE_LIMIT`.
pub fn are_linked(types: &[Shape]) -> bool
    ensures linked { result ≡ are_linked (map shape_view types.now) }
    // What each type means can be read then.
    ensures few { result ≡ true → length types.now < TYPE_LIMIT }
    ensures readable { result ≡ true → (n : ℕ) →
        is_readable (expansion (map shape_view types.now) (length types.now) [] n) ≡ true }
{
    if types.len() >= TYPE_LIMIT {
        return false;
    }
    are_readable_among(types, types.len())
}

/// Returns whether each type can be read where so many types can be named in it.
fn are_readable_among(types: &[Shape], count: usize) -> bool
    ensures { result ≡ are_readable_among count (map shape_view types.now) }
{
    for shape in types {
        if !is_readable_within(shape, count) {
            return false;
        }
    }
    true
}
