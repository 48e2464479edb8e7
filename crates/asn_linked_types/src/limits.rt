//! States how many types may name each other.
ghost use Rattle.std.specs.Prelude.{◌≡◌};

/// Types name each other by numbers below this one, which are those that `Shape::Back` holds.
pub const TYPE_LIMIT: usize = 4_294_967_296;

/// The limit is this number.
pub fn stated_limits()
    ensures { TYPE_LIMIT ≡ 4294967296 }
{}
