//! Reads the tokens that are signs.
ghost use Rattle.asn_lexer.specs.Signs.{sign_at, sign_of_char};
ghost use Rattle.std.specs.Option.{option_map};
ghost use Rattle.std.specs.Prelude.{◌≡◌};

use crate::kind::Kind;

/// Returns the kind of the sign that is this character alone, or `None` where it is none.
#[tactic(auto, unfolding(crate::specs::Signs::sign_of_char))]
fn sign_of_char(byte: u8) -> Option<Kind>
    ensures { result ≡ sign_of_char byte }
{
    match byte {
        b'{' => Some(Kind::OpenBrace),
        b'}' => Some(Kind::CloseBrace),
        b'(' => Some(Kind::OpenParen),
        b')' => Some(Kind::CloseParen),
        b'[' => Some(Kind::OpenBracket),
        b']' => Some(Kind::CloseBracket),
        b',' => Some(Kind::Comma),
        b';' => Some(Kind::Semicolon),
        b':' => Some(Kind::Colon),
        b'.' => Some(Kind::Point),
        b'|' => Some(Kind::Bar),
        b'^' => Some(Kind::Caret),
        b'<' => Some(Kind::Less),
        b'>' => Some(Kind::Greater),
        b'@' => Some(Kind::At),
        b'!' => Some(Kind::Exclamation),
        b'&' => Some(Kind::Ampersand),
        b'*' => Some(Kind::Asterisk),
        b'/' => Some(Kind::Slash),
        b'+' => Some(Kind::Plus),
        b'=' => Some(Kind::Equals),
        b'-' => Some(Kind::Minus),
        _ => None,
    }
}

/// Returns the kind of the longest sign at the front of the text, and what follows it, or `None`
/// where there is none.
#[tactic(auto, unfolding(crate::specs::Signs::sign_at))]
pub fn sign_at(text: &[u8]) -> Option<(Kind, &[u8])>
    ensures { option_map (λ found. (found.0, found.1.now)) result ≡ sign_at text.now }
{
    if let Some(rest) = text.strip_prefix(b"::=".as_slice()) {
        return Some((Kind::Assignment, rest));
    }
    if let Some(rest) = text.strip_prefix(b"...".as_slice()) {
        return Some((Kind::Ellipsis, rest));
    }
    if let Some(rest) = text.strip_prefix(b"..".as_slice()) {
        return Some((Kind::Range, rest));
    }
    if let Some(rest) = text.strip_prefix(b"[[".as_slice()) {
        return Some((Kind::OpenVersion, rest));
    }
    if let Some(rest) = text.strip_prefix(b"]]".as_slice()) {
        return Some((Kind::CloseVersion, rest));
    }
    match text {
        [first, rest @ ..] => match sign_of_char(*first) {
            Some(kind) => Some((kind, rest)),
            None => None,
        },
        [] => None,
    }
}
