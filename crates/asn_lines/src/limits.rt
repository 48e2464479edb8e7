//! Sets the limits of lines and of reads.
ghost use Rattle.std.specs.Prelude.{◌≡◌, ◌-◌, ◌^◌};

/// Limits the lines of an input: the number of one line more is still a `u64`.
pub const MOST_LINES: u64 = 18_446_744_073_709_551_614;

/// Limits the bytes that one read asks for, which is also the length of the buffer on the stack.
pub const PIECE: usize = 65_536;

/// The limit of lines is this number.
pub fn stated_line_limit()
    ensures { MOST_LINES ≡ 2 ^ 64 - 2 }
{}
