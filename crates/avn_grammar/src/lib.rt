//! Defines the ASN.1 value notation (X.680) as trees: its grammar, its printed text, and the laws
//! that join them. It has definitions for contracts and no reader or printer of its own: those
//! are `avn_value`'s, which cites the definitions of `specs/`.
#![tactic(auto)]

pub mod chars;
pub mod laws;
pub mod limits;
pub mod names;
