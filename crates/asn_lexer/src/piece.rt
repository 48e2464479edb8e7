//! Reads what stands at the front of a text.
ghost use Rattle.asn_lexer.specs.Pieces.{initial_of, piece_at, word_kind};
ghost use Rattle.std.specs.Option.{option_map};
ghost use Rattle.std.specs.Prelude.{◌≡◌};

use crate::comment::{past_block_comment, past_line_comment};
use crate::keyword::Keyword;
use crate::kind::{Initial, Kind};
use crate::run::{NO_BREAK_SPACE, Run, passes, past_spaced};
use crate::sign::sign_at;
use crate::word::{number_at, past_string, quoted_at, word_at};

/// States what a part of a text is.
#[derive(Clone, Copy, Drop, PartialEq, Eq)]
pub enum Piece {
    /// Is white space or a comment.
    Blank,
    /// Is a token of the kind.
    Token(Kind),
}

/// Returns how the word begins.
fn initial_of(word: &str) -> Initial
    ensures { result ≡ initial_of word.now }
{
    match word.as_bytes() {
        [b'A'..=b'Z', ..] => Initial::Capital,
        _ => Initial::Small,
    }
}

/// Returns the kind of the word: a reserved word, or a name.
fn word_kind(word: &str) -> Kind
    ensures { result ≡ word_kind word.now }
{
    match Keyword::named(word) {
        Some(keyword) => Kind::Reserved(keyword),
        None => Kind::Name(initial_of(word)),
    }
}

/// Returns what stands at the front of the text, and what follows it, or `None` where there is
/// nothing that is a token, white space or a comment.
#[tactic(auto, unfolding(crate::specs::Pieces::piece_at))]
pub fn piece_at(text: &[u8]) -> Option<(Piece, &[u8])>
    ensures { option_map (λ p. (p.0, p.1.now)) result ≡ piece_at text.now }
{
    let [first, ..] = text else {
        return None;
    };
    let first = *first;
    if passes(Run::Whites, first) || text.starts_with(NO_BREAK_SPACE.as_slice()) {
        return Some((Piece::Blank, past_spaced(Run::Whites, text)));
    }
    if first.is_ascii_alphabetic() {
        let (word, rest) = word_at(text);
        return Some((Piece::Token(word_kind(word)), rest));
    }
    if passes(Run::Digits, first) {
        let (kind, rest) = number_at(text);
        return Some((Piece::Token(kind), rest));
    }
    if let Some(rest) = text.strip_prefix(b"--".as_slice()) {
        return Some((Piece::Blank, past_line_comment(rest)));
    }
    if let Some(rest) = text.strip_prefix(b"/*".as_slice()) {
        return Some((Piece::Blank, past_block_comment(rest)?));
    }
    let (kind, rest) = match first {
        b'"' => (Kind::Cstring, past_string(&text[1..])?),
        b'\'' => quoted_at(&text[1..])?,
        _ => sign_at(text)?,
    };
    Some((Piece::Token(kind), rest))
}
