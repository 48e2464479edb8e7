//! Defines types as they stand in a text. Contracts see a type as the `Notation` of
//! `specs/Notation.antt` (`notation_view`).
use crate::notation::leaf::Leaf;
use crate::notation::number::{Item, NamedNumber};
use crate::notation::size::Size;
use crate::notation::tag::TagNotation;
use crate::notation::value::Value;
use asn_lexer::Token;

/// Describes a type.
#[cycle(notation)]
#[derive(Drop)]
pub struct Notation {
    /// Lists its tags, the outermost first.
    pub tags: Vec<TagNotation>,
    /// Describes what is tagged.
    pub base: Base,
    /// Lists the sizes that its constraints state, each alone and without an extension marker.
    pub sizes: Vec<Size>,
}

/// Describes a type without its tags and constraints.
#[cycle(notation)]
#[derive(Drop)]
pub enum Base {
    /// Is a type without parts.
    Leaf(Leaf),
    /// Is INTEGER, with its named numbers.
    Integer(Vec<NamedNumber>),
    /// Is BIT STRING, with its named bits.
    BitString(Vec<NamedNumber>),
    /// Is ENUMERATED.
    Enumerated {
        /// Lists its items before the extension marker.
        items: Vec<Item>,
        /// Lists those after it; `None` where there is no marker.
        added: Option<Vec<Item>>,
    },
    /// Is SEQUENCE.
    Sequence(Members),
    /// Is SET.
    Set(Members),
    /// Is SEQUENCE OF.
    SequenceOf(Box<Notation>),
    /// Is SET OF.
    SetOf(Box<Notation>),
    /// Is CHOICE, with its alternatives.
    Choice(Members),
    /// Is the name of a type.
    Reference {
        /// Is the name of its module, where it is stated.
        module: Option<Token>,
        /// Is its name.
        name: Token,
    },
    /// Is the name of a type with parameters, and the types that stand for them (X.683).
    Instance {
        /// Is the name of its module, where it is stated.
        module: Option<Token>,
        /// Is its name.
        name: Token,
        /// Lists the actual parameters.
        arguments: Vec<Notation>,
    },
}

/// Lists what stands between the braces of SEQUENCE, SET and CHOICE.
#[cycle(notation)]
#[derive(Drop)]
pub struct Members {
    /// Lists what stands before the extension marker.
    pub root: Vec<Member>,
    /// Holds what stands after it; `None` where there is no marker.
    pub extension: Option<Extension>,
}

/// Holds what stands after an extension marker.
#[cycle(notation)]
#[derive(Drop)]
pub struct Extension {
    /// Lists the extension additions.
    pub additions: Vec<Member>,
    /// Lists what stands after the second marker, and belongs to the root; `None` where there is
    /// no second marker.
    pub tail: Option<Vec<Member>>,
}

/// Is an entry between the braces of SEQUENCE, SET and CHOICE.
#[cycle(notation)]
#[derive(Drop)]
pub enum Member {
    /// Is a component or alternative.
    One(Component),
    /// Is those between version brackets.
    Group(Vec<Component>),
}

/// Is a component of a SEQUENCE or SET, or an alternative of a CHOICE.
#[cycle(notation)]
#[derive(Drop)]
pub enum Component {
    /// Has a name.
    Named {
        /// Is the name.
        name: Token,
        /// Describes the type.
        notation: Notation,
        /// States whether it may be absent.
        presence: Presence,
    },
    /// Is COMPONENTS OF: the components of this type.
    ComponentsOf(Notation),
}

/// States whether a component may be absent.
#[derive(Clone, Copy, Drop, PartialEq, Eq)]
pub enum Presence {
    /// It may not. So it is with each alternative of a CHOICE.
    Required,
    /// It is OPTIONAL.
    Optional,
    /// It has this DEFAULT.
    Default(Value),
}
