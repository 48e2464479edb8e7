//! Reads numbers.
ghost use Rattle.asn_model.specs.Digits.{digits};
ghost use Rattle.asn_modules_rules.specs.numbers.Stated.{within_bits};
ghost use Rattle.asn_modules_types.specs.Numbers.{number_in, signed_in};
ghost use Rattle.std.specs.Prelude.{◌≡◌};

use asn_lexer::Token;
use asn_modules_errors::text_of;
use asn_modules_grammar::notation::SignedNumber;

/// Returns the number of decimal digits, if it has at most 128 bits.
fn number_of(bytes: &[u8]) -> Option<u128>
    ensures { result ≡ within_bits 128 (digits bytes.now) }
{
    match str::from_utf8(bytes) {
        Ok(text) => {
            if text.starts_with('+') {
                return None;
            }
            text.parse::<u128>().ok()
        }
        // Digits are UTF-8.
        Err(_fault) => None,
    }
}

/// Returns the number of decimal digits, if it has at most 64 bits.
pub fn size_in(text: &str, token: Token) -> Option<usize>
    ensures { result ≡ number_in 64 text.now token }
{
    let number = number_of(text_of(text, token))?;
    if number <= usize::MAX as u128 {
        Some(number as usize)
    } else {
        None
    }
}

/// Returns the number with its sign, if its digits have at most 127 bits.
pub fn signed_in(text: &str, number: SignedNumber) -> Option<i128>
    ensures { result ≡ signed_in text.now number }
{
    let magnitude = number_of(text_of(text, number.digits))?;
    if magnitude > i128::MAX as u128 {
        return None;
    }
    if number.negative {
        Some(-(magnitude as i128))
    } else {
        Some(magnitude as i128)
    }
}
