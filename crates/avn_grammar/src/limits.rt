//! Sets the limits that a reader of the notation keeps. The laws of `laws` hold for every limit
//! on levels; the readers of `avn_value` have this one where a call names none.
ghost use Rattle.std.specs.Prelude.{◌≡◌};

/// Limits how deep values nest where a call names no limit: no value is read at a level above it.
/// The whole text's value is at level 0.
pub const LEVEL_LIMIT: usize = 64;

/// Limits the limit on levels that a call or a request may name.
pub const GREATEST_LEVEL_LIMIT: usize = 100;

/// Limits the characters of an excerpt, which an error shows in place of a value.
pub const EXCERPT_LENGTH: usize = 20;

/// Limits how often a reader looks at a scan: that many times for each of its characters, and as
/// many for its end. So the time of reading is linear in the length of the text.
pub const LOOKS_PER_CHARACTER: usize = 16;

/// The limits are these numbers.
pub fn stated_limits()
    ensures levels { LEVEL_LIMIT ≡ 64 }
    ensures greatest { GREATEST_LEVEL_LIMIT ≡ 100 }
    ensures excerpt { EXCERPT_LENGTH ≡ 20 }
    ensures looks { LOOKS_PER_CHARACTER ≡ 16 }
{}
