//! Checks what modules import from each other.

mod check;
mod entries;
mod index;
mod rule;

pub use check::check_imports;
