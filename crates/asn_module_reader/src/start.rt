//! Defines what the first word of a notation stands for.
ghost use Rattle.asn_module_reader.specs.StartView.{start_view};
ghost use Rattle.asn_notation.specs.Starts.{start_of, word_start};
ghost use Rattle.std.specs.Prelude.{◌≡◌, string_bytes};

use asn_model::{Alphabet, SeqKind};
use asn_notation::{Keyword, Notation, begins_with_capital};

/// States what the first word of a notation stands for.
#[derive(Drop)]
pub enum Start {
    /// The word is the whole notation.
    Whole(Notation),
    /// With this word behind it, it is this notation.
    Pair(Keyword, Notation),
    /// It is SEQUENCE or SET.
    Members(SeqKind),
    /// It is CHOICE.
    Choice,
    /// It is ENUMERATED.
    Enumerated,
    /// No notation begins with it.
    Nothing,
}

/// Returns what a reserved word stands for.
fn start_of(keyword: Keyword) -> Start
    ensures { start_view result ≡ start_of keyword }
{
    match keyword {
        Keyword::Boolean => Start::Whole(Notation::Boolean),
        Keyword::Null => Start::Whole(Notation::Null),
        Keyword::Integer => Start::Whole(Notation::Integer),
        Keyword::Octet => Start::Pair(Keyword::String, Notation::OctetString),
        Keyword::Bit => Start::Pair(Keyword::String, Notation::BitString),
        Keyword::Object => Start::Pair(Keyword::Identifier, Notation::ObjectIdentifier),
        Keyword::Utf8String => Start::Whole(Notation::Text(Alphabet::Utf8)),
        Keyword::NumericString => Start::Whole(Notation::Text(Alphabet::Numeric)),
        Keyword::PrintableString => Start::Whole(Notation::Text(Alphabet::Printable)),
        Keyword::VisibleString => Start::Whole(Notation::Text(Alphabet::Visible)),
        Keyword::Ia5String => Start::Whole(Notation::Text(Alphabet::Ia5)),
        Keyword::UniversalString => Start::Whole(Notation::Text(Alphabet::Universal)),
        Keyword::GeneralString => Start::Whole(Notation::Text(Alphabet::General)),
        Keyword::GraphicString => Start::Whole(Notation::Text(Alphabet::Graphic)),
        Keyword::BmpString => Start::Whole(Notation::Bmp),
        Keyword::Sequence => Start::Members(SeqKind::Sequence),
        Keyword::Set => Start::Members(SeqKind::Set),
        Keyword::Choice => Start::Choice,
        Keyword::Enumerated => Start::Enumerated,
        Keyword::String | Keyword::Identifier | Keyword::Of | Keyword::Optional => Start::Nothing,
    }
}

/// Returns what a word stands for.
pub fn start_of_word(word: String) -> Start
    ensures { start_view result ≡ word_start (string_bytes word) }
{
    match Keyword::named(&word) {
        Some(keyword) => start_of(keyword),
        None => {
            if begins_with_capital(&word) {
                Start::Whole(Notation::Reference(word))
            } else {
                Start::Nothing
            }
        }
    }
}
