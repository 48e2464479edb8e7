//! Defines the shape of a type as a value that a program holds: what ASN.1 states of the type's
//! values. Contracts see it as the `Shape` of `specs/Shape.antt` (`shape_view`).
use asn_core::Tag;

/// Names the characters of a string type (X.680, section 41).
#[derive(Clone, Copy)]
pub enum Alphabet {
    /// NumericString has digits and space.
    Numeric,
    /// PrintableString has letters, digits, space and eleven signs.
    Printable,
    /// VisibleString has the printing characters of ASCII, and space.
    Visible,
    /// IA5String has the characters of ASCII.
    Ia5,
    /// UTF8String has every character.
    Utf8,
    /// UniversalString has every character.
    Universal,
    /// GeneralString has every character.
    General,
    /// GraphicString has all but the control characters of ASCII.
    Graphic,
}

/// States whether fields come in their order or by their tags (X.680, sections 25 and 27).
#[derive(Clone, Copy)]
pub enum SeqKind {
    /// A SEQUENCE has its fields in their order.
    Sequence,
    /// A SET has its fields by their tags.
    Set,
}

/// Holds the value that a DEFAULT names.
#[derive(Drop)]
pub enum Plain {
    /// Is of BOOLEAN.
    Bool(bool),
    /// Is of INTEGER.
    Int(i128),
    /// Is of a character string type.
    Text(String),
    /// Is the identifier of an ENUMERATED type's item.
    Item(String),
}

/// States whether a field may be absent, and what then stands for it.
#[derive(Drop)]
pub enum PresenceShape {
    /// The field has to be present.
    Required,
    /// The field may be absent, and nothing stands for it.
    Optional,
    /// The field may be absent, and this value stands for it.
    Default(Plain),
}

/// Describes a field of a SEQUENCE or SET.
#[cycle(shape)]
#[derive(Drop)]
pub struct FieldShape {
    /// Holds the field's name, an identifier.
    pub name: String,
    /// Holds the smallest tag that its value may begin with.
    pub tag: Tag,
    /// States whether it may be absent.
    pub presence: PresenceShape,
    /// Describes the type of its value.
    pub shape: Shape,
}

/// Describes an alternative of a CHOICE.
#[cycle(shape)]
#[derive(Drop)]
pub struct AlternativeShape {
    /// Holds the identifier that stands before the payload.
    pub identifier: String,
    /// Holds the smallest tag that its value may begin with.
    pub tag: Tag,
    /// Describes the type of its payload.
    pub shape: Shape,
}

/// Describes a type by its kind, with its parts. Each `added` has what stands after the extension
/// marker, and is `None` where there is no marker. It owns its parts, and dropping it frees them.
#[cycle(shape)]
#[derive(Drop)]
pub enum Shape {
    /// Is NULL.
    Null,
    /// Is BOOLEAN.
    Bool,
    /// Is INTEGER, from the least to the greatest number, in a number of bits.
    Int {
        /// Holds the least number.
        least: i128,
        /// Holds the greatest number.
        greatest: u128,
        /// Counts the bits of the Rust type, which an overflow states.
        width: u32,
    },
    /// Is BIT STRING.
    Bits {
        /// Holds the number of bits, where the type fixes it.
        fixed: Option<usize>,
    },
    /// Is OCTET STRING.
    Octets,
    /// Is a value of any type, which is held as octets.
    Any,
    /// Is OBJECT IDENTIFIER.
    Oid,
    /// Is a character string type other than BMPString.
    Str {
        /// Names its characters.
        alphabet: Alphabet,
    },
    /// Is BMPString.
    Bmp,
    /// Is UTCTime.
    Utc,
    /// Is GeneralizedTime.
    Gen,
    /// Is DATE.
    Day,
    /// Is a number from 2^63 to 2^64-1, as its digits.
    Decimal,
    /// Is ENUMERATED.
    Enum {
        /// Lists the identifiers of its items.
        items: Vec<String>,
        /// Lists those after the extension marker.
        added: Option<Vec<String>>,
    },
    /// Is SEQUENCE or SET.
    Seq {
        /// States which of the two it is.
        kind: SeqKind,
        /// Lists the fields of the root, in order.
        fields: Vec<FieldShape>,
        /// Lists the extension additions, in order.
        added: Option<Vec<FieldShape>>,
    },
    /// Is SEQUENCE OF.
    ListOf(Box<Shape>),
    /// Is SET OF.
    SetOf(Box<Shape>),
    /// Is a list of entries in which the last one of a key counts.
    Table(Box<Shape>),
    /// Is CHOICE.
    Choice {
        /// Lists the alternatives of the root, in order.
        alternatives: Vec<AlternativeShape>,
        /// Lists those after the extension marker.
        added: Option<Vec<AlternativeShape>>,
    },
    /// Is a type that its own parts name by `Back`: SEQUENCE OF itself is
    /// `Loop(ListOf(Back(0)))`.
    Loop(Box<Shape>),
    /// Is the loop around it with this number, where 0 is the innermost.
    Back(u32),
}
