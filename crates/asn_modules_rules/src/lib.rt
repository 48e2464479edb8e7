//! Checks what X.680 demands of modules beyond their grammar and their names: lists, numbers,
//! values, and types that include others.
#![tactic(auto)]

pub mod checks;
pub mod included;
pub mod lists;
pub mod numbers;
pub mod sizes;
pub mod values;
