//! Defines type assignments as a program holds them. Contracts see a notation as the `Notation` of
//! `specs/Notation.antt` (`notation_view`).
use asn_model::Alphabet;

/// Holds type assignments, in the order of their text.
#[derive(Drop)]
pub struct Module {
    /// Lists the assignments.
    pub assignments: Vec<Assignment>,
}

/// Assigns a notation to a name (X.680, section 16).
#[derive(Drop)]
pub struct Assignment {
    /// Holds the name of the type.
    pub name: String,
    /// Describes the type.
    pub notation: Notation,
}

/// Describes a type by what its notation is. Each `added` has what stands after the extension
/// marker, and is `None` where there is no marker.
#[cycle(notation)]
#[derive(Drop)]
pub enum Notation {
    /// Is BOOLEAN.
    Boolean,
    /// Is NULL.
    Null,
    /// Is INTEGER.
    Integer,
    /// Is OCTET STRING.
    OctetString,
    /// Is BIT STRING.
    BitString,
    /// Is OBJECT IDENTIFIER.
    ObjectIdentifier,
    /// Is a character string type other than BMPString.
    Text(Alphabet),
    /// Is BMPString.
    Bmp,
    /// Is SEQUENCE.
    Sequence(Components),
    /// Is SET.
    Set(Components),
    /// Is SEQUENCE OF.
    SequenceOf(Box<Notation>),
    /// Is SET OF.
    SetOf(Box<Notation>),
    /// Is CHOICE, whose alternatives are components none of which is optional.
    Choice(Components),
    /// Is ENUMERATED.
    Enumerated {
        /// Lists the identifiers of its items.
        items: Vec<String>,
        /// Lists those after the extension marker.
        added: Option<Vec<String>>,
    },
    /// Is the name of a type.
    Reference(String),
}

/// Lists the components of a SEQUENCE or SET, or the alternatives of a CHOICE.
#[cycle(notation)]
#[derive(Drop)]
pub struct Components {
    /// Lists those of the root, in order.
    pub root: Vec<Component>,
    /// Lists the extension additions, in order.
    pub added: Option<Vec<Component>>,
}

/// Describes a component of a SEQUENCE or SET, or an alternative of a CHOICE.
#[cycle(notation)]
#[derive(Drop)]
pub struct Component {
    /// Holds its name.
    pub name: String,
    /// Describes its type.
    pub notation: Notation,
    /// States whether it may be absent.
    pub optional: bool,
}
