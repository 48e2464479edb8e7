//! Lists the kinds of tokens.
use crate::keyword::Keyword;

/// Tells how a name begins. X.680 tells names of types from names of values by it (sections 12.2 to
/// 12.4).
#[derive(Clone, Copy, Drop, PartialEq, Eq)]
pub enum Initial {
    /// With a capital letter.
    Capital,
    /// With a small letter.
    Small,
}

/// Names a kind of token (X.680, section 12).
#[derive(Clone, Copy, Drop, PartialEq, Eq)]
pub enum Kind {
    /// Is a word that isn't reserved: a letter, then letters, digits, `_`, and single `-` which one
    /// of these follows.
    Name(Initial),
    /// Is the reserved word.
    Reserved(Keyword),
    /// Is a number: digits, or `0x` and hexadecimal digits.
    Number,
    /// Is a real number (X.680, section 12.9): digits and a point, digits after it or none, and an
    /// exponent or none, as `1.5`, `1.` and `1.5e-3`; or digits and an exponent, as `15E2`.
    RealNumber,
    /// Is a string between quotes, in which a quote is written twice.
    Cstring,
    /// Is binary digits, as `'0110'B`.
    Bstring,
    /// Is hexadecimal digits, as `'6F'H`.
    Hstring,
    /// Is `::=`.
    Assignment,
    /// Is `...`.
    Ellipsis,
    /// Is `..`.
    Range,
    /// Is `[[`.
    OpenVersion,
    /// Is `]]`.
    CloseVersion,
    /// Is `{`.
    OpenBrace,
    /// Is `}`.
    CloseBrace,
    /// Is `(`.
    OpenParen,
    /// Is `)`.
    CloseParen,
    /// Is `[`.
    OpenBracket,
    /// Is `]`.
    CloseBracket,
    /// Is `,`.
    Comma,
    /// Is `;`.
    Semicolon,
    /// Is `:`.
    Colon,
    /// Is `.`.
    Point,
    /// Is `|`.
    Bar,
    /// Is `^`.
    Caret,
    /// Is `<`.
    Less,
    /// Is `>`.
    Greater,
    /// Is `@`.
    At,
    /// Is `!`.
    Exclamation,
    /// Is `&`.
    Ampersand,
    /// Is `*`.
    Asterisk,
    /// Is `/`.
    Slash,
    /// Is `+`.
    Plus,
    /// Is `=`.
    Equals,
    /// Is `-`.
    Minus,
}
