//! The size that constraints fix (X.680, section 51.5).
ghost use Rattle.asn_model.specs.Fixed.{fixed_size};
ghost use Rattle.std.specs.Prelude.{◌≡◌};

use asn_core::{Bounded, Constraints};

/// Returns the size that the constraints fix, or none: the first constraint on sizes admits that
/// size alone, and no constraint has the extension marker.
pub fn fixed_size(constraints: &Constraints) -> Option<usize>
    ensures { result ≡ fixed_size constraints.now }
{
    if constraints.extensible() {
        return None;
    }
    match constraints.size()?.constraint.bounds {
        Bounded::Single(size) => Some(size),
        _ => None,
    }
}
