//! Sets the limit of a document that is made, and states that of an input.
ghost use Rattle.std.specs.Prelude.{◌≡◌};

use asn_streams::MOST_BYTES;

/// Limits the entries of a document that is made.
pub const MOST_ENTRIES: u32 = 100_000;

/// The limits are these numbers.
pub fn stated_limits()
    ensures bytes { MOST_BYTES ≡ 16777216 }
    ensures entries { MOST_ENTRIES ≡ 100000 }
{}
