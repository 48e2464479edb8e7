//! Names kinds.
ghost use Rattle.asn_model.specs.ShapeView.{alphabet_view, shape_view};
ghost use Rattle.asn_type_printing.specs.words.Words.{kind_word, string_word};
ghost use Rattle.std.specs.Prelude.{◌≡◌};

use asn_model::{Alphabet, SeqKind, Shape};

/// Returns the name of the type of character strings that has these characters.
pub fn string_word(alphabet: Alphabet) -> &'static str
    ensures { result.now ≡ string_word (alphabet_view alphabet) }
{
    match alphabet {
        Alphabet::Utf8 => "UTF8String",
        Alphabet::Numeric => "NumericString",
        Alphabet::Printable => "PrintableString",
        Alphabet::Visible => "VisibleString",
        Alphabet::Ia5 => "IA5String",
        Alphabet::General => "GeneralString",
        Alphabet::Graphic => "GraphicString",
        Alphabet::Universal => "UniversalString",
    }
}

/// Returns the words that name the kind of a type, as `SEQUENCE OF`. A name of another type has
/// none of its own.
pub fn kind_word(shape: &Shape) -> &'static str
    ensures { result.now ≡ kind_word (shape_view shape.now) }
{
    match shape {
        Shape::Null => "NULL",
        Shape::Bool => "BOOLEAN",
        Shape::Int { .. } => "INTEGER",
        Shape::Bits { .. } => "BIT STRING",
        Shape::Octets => "OCTET STRING",
        Shape::Any => "ANY",
        Shape::Oid => "OBJECT IDENTIFIER",
        Shape::Str { alphabet } => string_word(*alphabet),
        Shape::Bmp => "BMPString",
        Shape::Utc => "UTCTime",
        Shape::Gen => "GeneralizedTime",
        Shape::Day => "DATE",
        Shape::Decimal => "INTEGER",
        Shape::Enum { .. } => "ENUMERATED",
        Shape::Seq {
            kind: SeqKind::Sequence,
            ..
        } => "SEQUENCE",
        Shape::Seq {
            kind: SeqKind::Set,
            ..
        } => "SET",
        Shape::ListOf(_) => "SEQUENCE OF",
        Shape::SetOf(_) => "SET OF",
        Shape::Table(_) => "SEQUENCE OF",
        Shape::Choice { .. } => "CHOICE",
        Shape::Loop(body) => kind_word(body),
        Shape::Back(_) => "",
    }
}
