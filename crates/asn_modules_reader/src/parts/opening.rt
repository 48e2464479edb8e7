//! Tells what reserved words are where a type may begin.
ghost use Rattle.asn_modules_reader.specs.parts.Starts.{opening_view, other_by, plain_by, text_by};
ghost use Rattle.asn_modules_grammar.specs.notation.Starts.{opening_of};
ghost use Rattle.std.specs.Prelude.{◌≡◌};

use crate::parts::mark::Mark;
use crate::parts::start::Start;
use asn_lexer::Keyword;
use asn_model::{Alphabet, SeqKind};
use asn_modules_grammar::notation::{Closed, Leaf};

/// States what a reserved word is where a type may begin.
#[derive(Clone, Copy, Drop)]
pub(crate) enum Opening {
    /// It stands for this alone.
    Whole(Start),
    /// It stands for this with this word after it.
    Pair(Mark, Start),
    /// It is ANY.
    Any,
    /// It is CLASS.
    ClassBody,
    /// It is INSTANCE.
    InstanceOf,
    /// It is the name of a class.
    NamedClass,
    /// No type begins with it.
    Nothing,
}

/// Returns the type of character strings that the reserved word names.
fn text_of(keyword: Keyword) -> Option<Leaf>
    ensures { result ≡ text_by keyword }
{
    match keyword {
        Keyword::Utf8String => Some(Leaf::Text(Alphabet::Utf8)),
        Keyword::NumericString => Some(Leaf::Text(Alphabet::Numeric)),
        Keyword::PrintableString => Some(Leaf::Text(Alphabet::Printable)),
        Keyword::VisibleString | Keyword::Iso646String => Some(Leaf::Text(Alphabet::Visible)),
        Keyword::Ia5String => Some(Leaf::Text(Alphabet::Ia5)),
        Keyword::UniversalString => Some(Leaf::Text(Alphabet::Universal)),
        Keyword::GeneralString => Some(Leaf::Text(Alphabet::General)),
        Keyword::GraphicString => Some(Leaf::Text(Alphabet::Graphic)),
        Keyword::BmpString => Some(Leaf::Bmp),
        Keyword::TeletexString | Keyword::T61String => Some(Leaf::Teletex),
        Keyword::VideotexString => Some(Leaf::Closed(Closed::Videotex)),
        _ => None,
    }
}

/// Returns the other type without parts that the reserved word names alone.
fn plain_of(keyword: Keyword) -> Option<Leaf>
    ensures { result ≡ plain_by keyword }
{
    match keyword {
        Keyword::Boolean => Some(Leaf::Boolean),
        Keyword::Null => Some(Leaf::Null),
        Keyword::Real => Some(Leaf::Closed(Closed::Real)),
        Keyword::External => Some(Leaf::Closed(Closed::External)),
        Keyword::RelativeOid => Some(Leaf::Closed(Closed::RelativeOid)),
        Keyword::ObjectDescriptor => Some(Leaf::Closed(Closed::ObjectDescriptor)),
        Keyword::UtcTime => Some(Leaf::UtcTime),
        Keyword::GeneralizedTime => Some(Leaf::GeneralizedTime),
        Keyword::Date => Some(Leaf::Date),
        Keyword::Time => Some(Leaf::Closed(Closed::Time)),
        Keyword::TimeOfDay => Some(Leaf::Closed(Closed::TimeOfDay)),
        Keyword::DateTime => Some(Leaf::Closed(Closed::DateTime)),
        Keyword::Duration => Some(Leaf::Closed(Closed::Duration)),
        _ => None,
    }
}

/// Returns what the reserved word is where a type may begin, if it names no type without parts
/// alone.
fn other_of(keyword: Keyword) -> Opening
    ensures { opening_view result ≡ other_by keyword }
{
    match keyword {
        Keyword::Integer => Opening::Whole(Start::Integer),
        Keyword::Octet => Opening::Pair(Mark::String, Start::Leaf(Leaf::OctetString)),
        Keyword::Bit => Opening::Pair(Mark::String, Start::BitString),
        Keyword::Object => Opening::Pair(Mark::Identifier, Start::Leaf(Leaf::ObjectIdentifier)),
        Keyword::Enumerated => Opening::Whole(Start::Enumerated),
        Keyword::Sequence => Opening::Whole(Start::Members(SeqKind::Sequence)),
        Keyword::Set => Opening::Whole(Start::Members(SeqKind::Set)),
        Keyword::Choice => Opening::Whole(Start::Choice),
        Keyword::Any => Opening::Any,
        Keyword::Embedded => {
            Opening::Pair(Mark::Pdv, Start::Leaf(Leaf::Closed(Closed::EmbeddedPdv)))
        }
        Keyword::Character => {
            Opening::Pair(
                Mark::String,
                Start::Leaf(Leaf::Closed(Closed::CharacterString)),
            )
        }
        Keyword::Class => Opening::ClassBody,
        Keyword::Instance => Opening::InstanceOf,
        Keyword::TypeIdentifier | Keyword::AbstractSyntax => Opening::NamedClass,
        _ => Opening::Nothing,
    }
}

/// Returns what the reserved word is where a type may begin.
#[tactic(auto, using(crate::proofs::parts::Openings::opening_steps))]
pub(crate) fn opening_of(keyword: Keyword) -> Opening
    ensures { opening_view result ≡ opening_of keyword }
{
    if let Some(leaf) = text_of(keyword) {
        return Opening::Whole(Start::Leaf(leaf));
    }
    match plain_of(keyword) {
        Some(leaf) => Opening::Whole(Start::Leaf(leaf)),
        None => other_of(keyword),
    }
}
