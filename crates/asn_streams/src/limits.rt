//! Sets the limit of an input.
ghost use Rattle.std.specs.Prelude.{◌≡◌};

/// Limits the bytes of an input that is read whole, to 16 MiB.
pub const MOST_BYTES: usize = 16_777_216;

/// The limit is this number.
pub fn stated_limit()
    ensures { MOST_BYTES ≡ 16777216 }
{}
