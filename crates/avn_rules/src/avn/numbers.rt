//! Reads whole numbers from their texts. A parsed AVN value keeps a number as its text, of any
//! length; a type has numbers of at most 128 bits.
ghost use Rattle.asn_core.specs.Numbers.{signed};
ghost use Rattle.asn_traits.specs.Digits.{digits, signed_number};
ghost use Rattle.avn_rules.specs.Numbers.{Counts, ReadsDigits, ReadsNumber};
ghost use Rattle.std.specs.Prelude.{◌≡◌, ◌<◌, option_map, ℕ, ◌+◌, ◌*◌, length, IfSome, Some};

use asn_core::WholeNumber;

/// Returns the whole number of a text, which is an optional `-` and digits: `Some(None)` where it
/// has more than 128 bits, and `None` where the text is no number. Each character is looked at
/// once.
pub fn whole_number(text: &str) -> Option<Option<WholeNumber>>
    ensures { ReadsNumber text.now result }
{
    let (negative, digits) = split_sign(text.as_bytes());
    match magnitude_of(digits) {
        Some(Some(magnitude)) => Some(Some(WholeNumber {
            negative,
            magnitude,
        })),
        Some(None) => Some(None),
        None => None,
    }
}

/// Returns whether the text begins with `-`, and what follows it.
fn split_sign(text: &[u8]) -> (bool, &[u8])
    ensures { signed_number text.now ≡ option_map (signed result.0) (digits result.1.now) }
{
    let Some((&first, others)) = text.split_first() else {
        return (false, text);
    };
    if first == b'-' {
        (true, others)
    } else {
        (false, text)
    }
}

/// Returns the number of one or more digits: `Some(None)` where it has more than 128 bits, and
/// `None` exactly where the text is not of digits.
fn magnitude_of(digits: &[u8]) -> Option<Option<u128>>
    ensures { ReadsDigits digits.now result }
{
    if digits.is_empty() {
        return None;
    }
    if let Some(magnitude) = short_magnitude(digits) {
        return Some(Some(magnitude as u128));
    }
    // A number that is too large stays so, but the digits after it are still looked at.
    let mut magnitude = Some(0);
    for &digit in digits {
        if digit < b'0' || digit > b'9' {
            return None;
        }
        magnitude = with_digit(magnitude, digit - b'0');
    }
    Some(magnitude)
}

/// Returns the number of one or more digits, if there are at most 19 from the first one on that
/// isn't 0. So most numbers are counted in 64 bits.
fn short_magnitude(digits: &[u8]) -> Option<u64>
    requires { 0 < length digits.now }
    ensures { IfSome result (λ n. ReadsDigits digits.now (Some (Some n))) }
{
    let mut magnitude: u64 = 0;
    for &digit in digits {
        // With one digit more the number stays below 10^19, which 64 bits hold.
        if digit < b'0' || digit > b'9' || magnitude >= 1_000_000_000_000_000_000 {
            return None;
        }
        magnitude = magnitude * 10 + (digit - b'0') as u64;
    }
    Some(magnitude)
}

/// Returns the number with a digit after it, or `None` where it has more than 128 bits.
fn with_digit(magnitude: Option<u128>, digit: u8) -> Option<u128>
    ensures { (n : ℕ) → Counts n magnitude → Counts (n * 10 + digit) result }
{
    magnitude?.checked_mul(10)?.checked_add(digit as u128)
}
