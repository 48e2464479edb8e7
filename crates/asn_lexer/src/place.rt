//! Tells places of a text as line and column.
ghost use Rattle.asn_lexer.specs.Places.{begins_char, column_after, line_after};
ghost use Rattle.std.specs.Prelude.{◌≡◌, ◌≤◌, ◌<◌, ◌+◌, ◌^◌, ◌++◌, ◌∷◌, [], ℕ, List, take};

/// Is a place in a text as its readers count.
#[derive(Clone, Copy, Debug, Drop, PartialEq, Eq)]
pub struct Place {
    /// Is the line, counted from 1. A line feed ends a line.
    pub line: usize,
    /// Is the column in characters, counted from 1.
    pub column: usize,
}

/// Returns whether the byte begins a character.
fn begins_char(byte: u8) -> bool
    ensures { result ≡ begins_char byte }
{
    byte < 128 || byte >= 192
}

/// Returns the place after the byte at the place.
#[tactic(auto, using(crate::proofs::Places::place_steps))]
fn behind(place: Place, byte: u8) -> Place
    requires line_fits { place.line < 2 ^ 63 }
    requires column_fits { place.column < 2 ^ 63 }
    ensures line { (front : List ℕ) → place.line ≡ line_after front
        → result.line ≡ line_after (front ++ byte ∷ []) }
    ensures column { (front : List ℕ) → place.column ≡ column_after front
        → result.column ≡ column_after (front ++ byte ∷ []) }
    ensures line_rises { result.line ≤ place.line + 1 }
    ensures column_rises { result.column ≤ place.column + 1 }
{
    let Place { line, column } = place;
    if byte == b'\n' {
        return Place {
            line: line + 1,
            column: 1,
        };
    }
    if begins_char(byte) {
        return Place {
            line,
            column: column + 1,
        };
    }
    place
}

/// Returns the line and column of what begins so many bytes from the beginning of the text.
pub fn place_of(text: &str, offset: usize) -> Place
    ensures line { result.line ≡ line_after (take offset text.now) }
    ensures column { result.column ≡ column_after (take offset text.now) }
{
    let bytes = text.as_bytes();
    let front = if offset < bytes.len() {
        &bytes[..offset]
    } else {
        bytes
    };
    let mut place = Place { line: 1, column: 1 };
    for &byte in front {
        place = behind(place, byte);
    }
    place
}
