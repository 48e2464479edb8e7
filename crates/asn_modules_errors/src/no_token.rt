//! Tells why no token begins at a place.
ghost use Rattle.asn_modules_errors.specs.NoTokens.{no_token_of, no_token_text};
ghost use Rattle.std.specs.Prelude.{◌≡◌, Some, drop};

use crate::slice::behind;
use std::fmt;

/// States why no token begins at a place.
#[derive(Clone, Copy, Debug, Drop, PartialEq, Eq)]
pub enum NoToken {
    /// A comment between `/*` and `*/` has no end.
    OpenComment,
    /// A string has no closing quote.
    OpenString,
    /// Digits after an apostrophe don't end with `'B` or `'H`.
    OpenDigits,
    /// No token begins with this character.
    OtherChar,
}

/// Returns why no token begins with what follows so many bytes of the text.
pub fn no_token_at(text: &str, offset: usize) -> NoToken
    ensures { result ≡ no_token_of (drop offset text.now) }
{
    no_token_of(behind(text.as_bytes(), offset))
}

/// Returns why no token begins with these bytes.
fn no_token_of(rest: &[u8]) -> NoToken
    ensures { result ≡ no_token_of rest.now }
{
    if let Some(_comment) = rest.strip_prefix(b"/*".as_slice()) {
        return NoToken::OpenComment;
    }
    if let Some(_string) = rest.strip_prefix(b"\"".as_slice()) {
        return NoToken::OpenString;
    }
    if let Some(_digits) = rest.strip_prefix(b"'".as_slice()) {
        return NoToken::OpenDigits;
    }
    NoToken::OtherChar
}

/// Prints a phrase.
impl fmt::Display for NoToken {
    ghost output = { λ fault. Some (no_token_text fault) };

    fn fmt<W: fmt::Write>(&self, f: &mut fmt::Formatter<W>) -> fmt::Result {
        f.write_str(match self {
            NoToken::OpenComment => "this comment isn't closed",
            NoToken::OpenString => "this string isn't closed",
            NoToken::OpenDigits => "these digits aren't closed by 'B or 'H",
            NoToken::OtherChar => "no token begins with this character",
        })
    }
}
