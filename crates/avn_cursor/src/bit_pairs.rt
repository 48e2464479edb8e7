//! Makes octets of binary digits, of which each two are given as an octet in hexadecimal.
ghost use Rattle.std.specs.Prelude.{◌≡◌, ◌≢◌, ◌+◌, ◌*◌, ◌/◌, ◌%◌, ◌<◌, [], ◌∷◌, true, false, drop};
ghost use Rattle.std.specs.Prelude.{IfOk, MatchOption, slice_index};
ghost use Rattle.avn_grammar.specs.Chars.{all};
ghost use Rattle.avn_grammar.specs.Octets.{packed};
ghost use Rattle.avn_cursor.specs.HexDigits.{digit_values, binary_digits, is_bit_value};
ghost use Rattle.avn_cursor.specs.HexDigits.{is_bit_pair};

use std::alloc::{AllocError, Global};

/// Returns the two bits of the pair at the place, zeros past the end, or `None` where they are no
/// binary digits.
#[inline(always)]
fn bits_at(pairs: &[u8], place: usize) -> Option<u8>
    ensures { MatchOption result (is_bit_pair (slice_index pairs.now place) ≡ false)
        (λ bits. (is_bit_pair (slice_index pairs.now place) ≡ true)
        × (bits ≡ 2 * (slice_index pairs.now place / 16) + slice_index pairs.now place % 16)
        × (bits < 4)) }
{
    if place >= pairs.len() {
        return Some(0);
    }
    let pair = pairs[place];
    if pair / 16 < 2 && pair % 16 < 2 {
        Some(2 * (pair / 16) + pair % 16)
    } else {
        None
    }
}

/// Returns the octet of the first four pairs, with zeros past the end, or `None` where one of them
/// is no two binary digits.
#[inline(always)]
fn first_octet(pairs: &[u8]) -> Option<u8>
    requires { pairs.now ≢ [] }
    ensures { MatchOption result (all is_bit_value (digit_values pairs.now) ≡ false)
        (λ octet. (all is_bit_value (digit_values pairs.now)
        ≡ all is_bit_value (digit_values (drop 4 pairs.now)))
        × (packed (binary_digits (digit_values pairs.now))
        ≡ octet ∷ packed (binary_digits (digit_values (drop 4 pairs.now))))) }
{
    let first = bits_at(pairs, 0)?;
    let second = bits_at(pairs, 1)?;
    let third = bits_at(pairs, 2)?;
    let fourth = bits_at(pairs, 3)?;
    Some(64 * first + 16 * second + 4 * third + fourth)
}

/// Returns the octets of the pairs, the last padded with zeros, or `None` where a pair is no two
/// binary digits.
///
/// # Errors
///
/// `AllocError` alone.
pub fn octets_of_pairs(alloc: Global, pairs: &[u8]) -> Result<Option<Vec<u8>>, AllocError>
    ensures { IfOk result (λ found. MatchOption found
        (all is_bit_value (digit_values pairs.now) ≡ false)
        (λ octets. (all is_bit_value (digit_values pairs.now) ≡ true)
        × (octets.items ≡ packed (binary_digits (digit_values pairs.now))))) }
{
    let mut octets = Vec::with_capacity(alloc, pairs.len() / 4 + 1)?;
    let mut rest = pairs;
    while !rest.is_empty() {
        match first_octet(rest) {
            Some(octet) => octets.push(octet)?,
            None => return Ok(None),
        }
        rest = if rest.len() > 4 { &rest[4..] } else { &[] };
    }
    Ok(Some(octets))
}
