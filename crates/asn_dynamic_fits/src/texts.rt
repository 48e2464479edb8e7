//! Tells the values of the character string types (X.680, section 41).
ghost use Rattle.asn_model.specs.CharacterStrings.{is_string_of};
ghost use Rattle.asn_model.specs.Decimals.{is_decimal};
ghost use Rattle.asn_model.specs.ShapeView.{alphabet_view};
ghost use Rattle.asn_strings.specs.Alphabets.{all_within};
ghost use Rattle.avn_grammar.specs.Chars.{all};
ghost use Rattle.avn_grammar.specs.WellFormed.{is_octet};
ghost use Rattle.std.specs.Prelude.{◌≡◌, ◌&&◌};
ghost use Rattle.std.specs.Str.{chars, is_utf8};

use asn_decimal::Decimal;
use asn_model::{Alphabet, are_octets};
use asn_strings::character_sets::{
    CharacterSet, Graphic, Ia5, Numeric, Printable, Visible, are_within, is_within,
};

/// Returns whether the bytes are a value of the character string type of this alphabet.
pub fn is_string_of(alphabet: Alphabet, bytes: &[u8]) -> bool
    ensures { result ≡ is_string_of (alphabet_view alphabet) bytes.now }
{
    match alphabet {
        Alphabet::Numeric => is_text_within::<Numeric>(bytes),
        Alphabet::Printable => is_text_within::<Printable>(bytes),
        Alphabet::Visible => is_text_within::<Visible>(bytes),
        Alphabet::Ia5 => is_text_within::<Ia5>(bytes),
        Alphabet::Utf8 => is_utf8(bytes),
        Alphabet::Universal => is_utf8(bytes),
        Alphabet::General => is_octets(bytes),
        Alphabet::Graphic => is_octets(bytes) && are_within::<Graphic>(bytes),
    }
}

/// Returns whether the bytes are the digits of a number from 2^63 to 2^64-1.
pub fn is_decimal(bytes: &[u8]) -> bool
    ensures { result ≡ is_decimal bytes.now }
{
    match str::from_utf8(bytes) {
        Ok(text) => Decimal::of_digits(text).is_some(),
        Err(_) => false,
    }
}

/// Returns whether the bytes are UTF-8, of characters that are all in the set.
fn is_text_within<C: CharacterSet>(bytes: &[u8]) -> bool
    ensures { result ≡ (is_utf8 bytes.now && all_within C.alphabet (chars bytes.now)) }
{
    match str::from_utf8(bytes) {
        Ok(text) => is_within::<C>(text),
        Err(_) => false,
    }
}

/// Returns whether the bytes are UTF-8.
fn is_utf8(bytes: &[u8]) -> bool
    ensures { result ≡ is_utf8 bytes.now }
{
    match str::from_utf8(bytes) {
        Ok(_) => true,
        Err(_) => false,
    }
}

/// Returns that octets are below 256, as their type says.
pub fn is_octets(octets: &[u8]) -> bool
    ensures { result ≡ all is_octet octets.now }
{
    are_octets(octets);
    true
}
