//! Writes octets as hexadecimal and binary digits.
ghost use Rattle.std.specs.Prelude.{◌≡◌, ◌<◌, ◌≤◌, [], ◌∷◌, length, take};
ghost use Rattle.std.specs.Fmt.{WritesOnOk};
ghost use Rattle.std.specs.Str.{IsAscii};
ghost use Rattle.avn_grammar.specs.Octets.{hex_digit, hex_text, bit_text};
ghost use Rattle.avn_grammar.specs.Print.{arc_text};

use avn_cursor::chars::ascii;
use std::fmt;

/// The most octets whose hexadecimal digits are written together.
const CHUNK: usize = 256;

/// Returns the hexadecimal digit of a number below 16, in capitals.
fn hex_digit(number: u8) -> u8
    requires { number < 16 }
    ensures { result ≡ hex_digit number }
{
    if number < 10 {
        b'0' + number
    } else {
        b'A' + (number - 10)
    }
}

/// Writes digits together.
fn write_digits<W: fmt::Write>(digits: &[u8], f: &mut fmt::Formatter<W>) -> fmt::Result
    requires { IsAscii digits.now }
    ensures { WritesOnOk W.write_str_gives f.old result digits.now f.new }
{
    f.write_str(ascii(digits))
}

/// Writes two hexadecimal digits for each octet of a chunk, together.
fn write_chunk<W: fmt::Write>(octets: &[u8], f: &mut fmt::Formatter<W>) -> fmt::Result
    requires { length octets.now ≤ CHUNK }
    ensures { WritesOnOk W.write_str_gives f.old result (hex_text octets.now) f.new }
{
    let mut digits = [0; 2 * CHUNK];
    let mut end = 0;
    for &octet in octets {
        digits[end] = hex_digit(octet / 16);
        digits[end + 1] = hex_digit(octet % 16);
        end += 2;
    }
    write_digits(&digits[..end], f)
}

/// Writes two hexadecimal digits for each octet.
pub fn write_hex<W: fmt::Write>(octets: &[u8], f: &mut fmt::Formatter<W>) -> fmt::Result
    ensures { WritesOnOk W.write_str_gives f.old result (hex_text octets.now) f.new }
{
    for chunk in octets.chunks(CHUNK) {
        write_chunk(chunk, f)?;
    }
    Ok(())
}

/// Returns the eight binary digits of an octet, the most significant first.
#[tactic(auto, unfolding(avn_grammar::specs::Octets::bit_text))]
fn binary_digits(octet: u8) -> [u8; 8]
    ensures { result ≡ bit_text (octet ∷ []) }
{
    [
        b'0' + octet / 128 % 2,
        b'0' + octet / 64 % 2,
        b'0' + octet / 32 % 2,
        b'0' + octet / 16 % 2,
        b'0' + octet / 8 % 2,
        b'0' + octet / 4 % 2,
        b'0' + octet / 2 % 2,
        b'0' + octet % 2,
    ]
}

/// Writes the first binary digits of an octet, at most so many.
fn write_bits_of<W: fmt::Write>(octet: u8, at_most: usize, f: &mut fmt::Formatter<W>) -> fmt::Result
    ensures { WritesOnOk W.write_str_gives f.old result
        (take at_most (bit_text (octet ∷ []))) f.new }
{
    let digits = binary_digits(octet);
    let kept = if at_most < 8 { at_most } else { 8 };
    write_digits(&digits[..kept], f)
}

/// Writes the first binary digits of octets, at most so many.
pub fn write_bits<W: fmt::Write>(
    octets: &[u8],
    at_most: usize,
    f: &mut fmt::Formatter<W>,
) -> fmt::Result
    ensures { WritesOnOk W.write_str_gives f.old result (take at_most (bit_text octets.now)) f.new }
{
    let mut left = at_most;
    for &octet in octets {
        write_bits_of(octet, left, f)?;
        left = left.saturating_sub(8);
    }
    Ok(())
}

/// Writes a space and a number for each arc.
pub fn write_arcs<W: fmt::Write>(arcs: &[u32], f: &mut fmt::Formatter<W>) -> fmt::Result
    ensures { WritesOnOk W.write_str_gives f.old result (arc_text arcs.now) f.new }
{
    for arc in arcs {
        write!(f, " {arc}")?;
    }
    Ok(())
}
