//! Finds the place at which a text is no value notation (X.680), so that a reader can be shown it.
#![tactic(auto)]

mod braces;
#[cfg(test)]
mod rows;
mod scan;
mod tokens;
mod turn;

pub use scan::fault_offset;
