//! Defines numbers, named numbers and items as they stand in a text.
use asn_lexer::Token;

/// Is a number with its sign.
#[derive(Clone, Copy, Drop, PartialEq, Eq)]
pub struct SignedNumber {
    /// States whether `-` stands before it.
    pub negative: bool,
    /// Is its digits.
    pub digits: Token,
}

/// Is what stands for a number.
#[derive(Clone, Copy, Drop, PartialEq, Eq)]
pub enum Constant {
    /// Is the number.
    Number(SignedNumber),
    /// Is the name of a value.
    Name(Token),
}

/// Names a number of an INTEGER (X.680, section 19) or a bit of a BIT STRING (section 22).
#[derive(Clone, Copy, Drop, PartialEq, Eq)]
pub struct NamedNumber {
    /// Is the name.
    pub name: Token,
    /// Is the number.
    pub number: Constant,
}

/// Is an item of an ENUMERATED (X.680, section 20).
#[derive(Clone, Copy, Drop, PartialEq, Eq)]
pub struct Item {
    /// Is its identifier.
    pub name: Token,
    /// Is its number, where it is stated.
    pub number: Option<Constant>,
}
