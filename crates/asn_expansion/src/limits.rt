//! Sets the limits that an expansion keeps.
ghost use Rattle.std.specs.Prelude.{◌≡◌};

/// Limits the nodes of a shape.
pub const NODE_LIMIT: usize = 65_536;

/// Limits the names that are open at once.
pub const OPEN_LIMIT: usize = 64;

/// The limits are these numbers.
pub fn stated_limits()
    ensures nodes { NODE_LIMIT ≡ 65536 }
    ensures names { OPEN_LIMIT ≡ 64 }
{}
