//! Checks all rules on the names and numbers of modules.

mod check;

pub use check::check_all;
