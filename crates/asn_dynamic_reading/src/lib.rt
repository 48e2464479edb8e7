//! Reads values by a type that a program holds as data, in either notation.
#![tactic(auto)]

mod fields;
pub mod fitting;
mod leaves;
mod numbers;
mod reading;
mod texts;
mod told;
mod values;

pub use leaves::read_leaf;
pub use numbers::is_between;
pub use reading::read_value;
