//! Finds out whether a value that a program holds is one of a type that it holds.
#![tactic(auto)]

mod contents;
mod defaults;
mod leaves;
mod membership;
mod order;
mod texts;

pub use membership::{fits, fits_part};
