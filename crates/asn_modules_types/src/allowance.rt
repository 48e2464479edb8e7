//! Counts what may still be made: a few lines may include types that include others twice, and so
//! on, and types that are included nest deeper than those of a text do.
ghost use Rattle.std.specs.Prelude.{◌≡◌, ◌+◌, OnOk};

use crate::fault::LinkFault;
use crate::limits::NAME_LIMIT;

/// Counts the types that may still be made.
#[derive(Drop)]
pub struct Allowance {
    /// Is how many may be made in all.
    pub types: usize,
    /// Is how many of these COMPONENTS OF may include.
    pub included: usize,
}

/// States how deep what is made may still be.
#[derive(Clone, Copy, Drop)]
pub struct Depth {
    /// Is how many names may be followed after COMPONENTS OF, one after another.
    pub names: usize,
    /// Is how many levels of types may nest.
    pub levels: usize,
}

/// Takes a type off those that may still be made, and returns the levels that are left within it.
/// Where a name after COMPONENTS OF was followed, it is one of those that are included.
///
/// # Errors
///
/// `TooMany` where none may be made, or no level is left.
pub fn take_type(left: &mut Allowance, depth: Depth) -> Result<usize, LinkFault>
    ensures { OnOk result (left.old.types ≡ left.new.types + 1) }
{
    if left.types == 0 || depth.levels == 0 {
        return Err(LinkFault::TooMany);
    }
    left.types -= 1;
    if depth.names < NAME_LIMIT {
        if left.included == 0 {
            return Err(LinkFault::TooMany);
        }
        left.included -= 1;
    }
    Ok(depth.levels - 1)
}
