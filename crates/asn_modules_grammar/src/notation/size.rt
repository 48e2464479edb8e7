//! Defines sizes.
use asn_lexer::Token;

/// Is the size that a constraint states, from its low end to its high end. Each end is a number or
/// a name; a single one is both.
#[derive(Clone, Copy, Drop, PartialEq, Eq)]
pub struct Size {
    /// Is the low end.
    pub low: Token,
    /// Is the high end.
    pub high: Token,
}
