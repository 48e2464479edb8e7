//! Tests words for being names of types.
ghost use Rattle.asn_notation.specs.Starts.{is_capital, is_type_name};
ghost use Rattle.avn_grammar.specs.Chars.{starts_with};
ghost use Rattle.std.specs.Prelude.{◌≡◌};

use crate::Keyword;

/// Returns whether the text begins with a capital letter of ASCII.
pub fn begins_with_capital(text: &str) -> bool
    ensures { result ≡ starts_with is_capital text.now }
{
    let bytes = text.as_bytes();
    !bytes.is_empty() && bytes[0].is_ascii_uppercase()
}

/// Returns whether the word is the name of a type: it begins with a capital letter of ASCII and is
/// no reserved word.
pub fn is_type_name(word: &str) -> bool
    ensures { result ≡ is_type_name word.now }
{
    begins_with_capital(word) && Keyword::named(word).is_none()
}
