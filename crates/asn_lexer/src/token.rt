//! Defines tokens.
use crate::kind::Kind;

/// Is a token of a text: its kind, and where it stands.
#[derive(Clone, Copy, Drop, PartialEq, Eq)]
pub struct Token {
    /// Is its kind.
    pub kind: Kind,
    /// Is where it begins, in bytes from the beginning of the text.
    pub start: usize,
    /// Is where it has ended, in bytes from the beginning of the text.
    pub end: usize,
}
