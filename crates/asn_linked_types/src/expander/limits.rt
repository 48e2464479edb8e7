//! Sets the limits that an expansion keeps.
ghost use Rattle.std.specs.Prelude.{◌≡◌};

/// Limits the nodes of a shape.
pub const NODE_LIMIT: usize = 1_048_576;

/// Limits the types that are open at once.
pub const OPEN_LIMIT: usize = 64;

/// The limits are these numbers.
pub fn stated_limits()
    ensures nodes { NODE_LIMIT ≡ 1048576 }
    ensures types { OPEN_LIMIT ≡ 64 }
{}
