//! Defines modules as they stand in a text.
use crate::headers::Header;
use crate::notation::notation::Notation;
use crate::notation::value::Value;
use asn_lexer::Token;

/// Assigns a type or a value to a name (X.680, section 16), perhaps with parameters (X.683).
#[derive(Drop)]
pub enum Assignment {
    /// Assigns a type.
    Type {
        /// Is the name.
        name: Token,
        /// Describes the type.
        notation: Notation,
    },
    /// Assigns a value.
    Value {
        /// Is the name.
        name: Token,
        /// Describes the type of the value.
        notation: Notation,
        /// Is the value.
        value: Value,
    },
    /// Assigns a type with parameters.
    Template {
        /// Is the name.
        name: Token,
        /// Lists the names of the parameters.
        parameters: Vec<Token>,
        /// Describes the type, in which the names of the parameters stand for types.
        notation: Notation,
    },
}

/// Holds a module.
#[derive(Drop)]
pub struct Module {
    /// Holds what stands before its assignments; `None` where a text has assignments alone.
    pub header: Option<Header>,
    /// Lists its assignments, in the order of the text.
    pub assignments: Vec<Assignment>,
}
