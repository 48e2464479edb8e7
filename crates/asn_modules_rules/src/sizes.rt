//! Measures what stands in the types of modules, in bytes: about what a copy of it takes.

mod sizes;

pub use sizes::{ENTRY_SIZE, take_items, take_name, take_numbers};
