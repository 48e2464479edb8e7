//! Defines the integer types of the language as numbers of a range, and the laws by which values of
//! plain types are equal exactly where the values that they stand for are (`specs/SetElements`).
//! It names no trait of types, so that it waits for none.
#![tactic(auto)]

mod integer_type;

pub use integer_type::{IntegerType, beyond_128_bits};
