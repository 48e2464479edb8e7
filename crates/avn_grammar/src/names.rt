//! Tests texts for being names of the notation: identifiers and keywords. The tests run on
//! bytes, since every character of a name is ASCII.
ghost use Rattle.std.specs.Prelude.{◌≡◌};
ghost use Rattle.avn_grammar.specs.Chars.{all, is_name};
ghost use Rattle.avn_grammar.specs.Grammar.{is_real_keyword};
ghost use Rattle.avn_grammar.specs.WellFormed.{is_identifier, is_keyword};

/// Returns whether the text is an identifier: an ASCII letter and then letters, digits, `-` and
/// `_`. Beyond X.680, section 12.3, the first letter may be a capital, a hyphen may stand at the
/// end or beside another, and there are underscores.
pub fn is_identifier(text: &str) -> bool
    ensures { result ≡ is_identifier text.now }
{
    let bytes = text.as_bytes();
    !bytes.is_empty() && (bytes[0] as char).is_ascii_alphabetic() && may_follow(bytes)
}

/// Returns whether every byte may stand in a name after its first character.
fn may_follow(bytes: &[u8]) -> bool
    ensures { result ≡ all is_name bytes.now }
{
    // A byte of a character past ASCII is at least 128, and fails the test as a `char` too.
    for &byte in bytes {
        let c = byte as char;
        if !(c.is_ascii_alphanumeric() || c == '-' || c == '_') {
            return false;
        }
    }
    true
}

/// Returns whether the text is one of the keywords for a REAL without digits, such as
/// `PLUS-INFINITY`.
pub fn is_real_keyword(text: &str) -> bool
    ensures { result ≡ is_real_keyword text.now }
{
    text == "PLUS-INFINITY" || text == "MINUS-INFINITY" || text == "NOT-A-NUMBER"
}

/// Returns whether the text is one of the six keywords, which mean a value of their own and name
/// no item of an ENUMERATED type.
pub fn is_keyword(text: &str) -> bool
    ensures { result ≡ is_keyword text.now }
{
    text == "TRUE" || text == "FALSE" || text == "NULL" || is_real_keyword(text)
}
