//! Defines values as they stand in a text.
use crate::notation::number::SignedNumber;
use asn_lexer::Token;

/// Is a value, as far as its first token and what it names tell.
#[derive(Clone, Copy, Drop, PartialEq, Eq)]
pub enum Value {
    /// Is a number.
    Number(SignedNumber),
    /// Is a string between quotes.
    Cstring(Token),
    /// Is binary digits.
    Bstring(Token),
    /// Is hexadecimal digits.
    Hstring(Token),
    /// Is a word: the name of a value, number or item, `TRUE`, `FALSE` or `NULL`.
    Word(Token),
    /// Is the name of a value in another module.
    Qualified {
        /// Is the name of the module.
        module: Token,
        /// Is the name of the value.
        name: Token,
    },
    /// Is any other value: a real number, one of a CHOICE, or one between braces. The token is its
    /// first.
    Other(Token),
}
