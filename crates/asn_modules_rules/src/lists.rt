//! Checks the names in the lists of types: of components, alternatives, items, named numbers and
//! bits. The types that stand in modules are collected with those within them, in the order of the
//! texts.

mod check;
mod listed;
mod members;
mod within;
mod written;

pub use check::check_lists;
pub use listed::mentions_of;
pub use written::{WrittenType, written_types};
