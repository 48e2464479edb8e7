//! Sets the limits that a reader of modules keeps.
ghost use Rattle.std.specs.Prelude.{◌≡◌};

/// Limits how deep types nest: none stands at a level above it. The type of an assignment is at
/// level 0, and that of a component or element is one above what holds it.
pub const NESTING_LIMIT: usize = 64;

/// The limits are these numbers.
pub fn stated_limits()
    ensures { NESTING_LIMIT ≡ 64 }
{}
