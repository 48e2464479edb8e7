//! Finds the numbers that words name in types that modules assign, by a table of all of them. It is
//! made once, and a look at it takes no longer where a type has many named numbers.

mod entries;
mod numbers;

pub use entries::StatedType;
pub use numbers::{NamedNumbers, named_numbers};
