//! Defines tags as they stand in a text.
use asn_core::Class;
use asn_lexer::Token;

/// States how a tag is encoded.
#[derive(Clone, Copy, Drop, PartialEq, Eq)]
pub enum TagMode {
    /// Stands in place of the tag of what it tags.
    Implicit,
    /// Stands around what it tags.
    Explicit,
}

/// Is a tag before a type (X.680, section 31).
#[derive(Clone, Copy, Drop, PartialEq, Eq)]
pub struct TagNotation {
    /// Is its class.
    pub class: Class,
    /// Is its number, or the name of a value.
    pub number: Token,
    /// States how it is encoded; `None` leaves that to the module.
    pub mode: Option<TagMode>,
}
