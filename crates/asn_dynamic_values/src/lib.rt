//! Defines values that a program holds by a shape and not by a Rust type of their own, their one
//! total order, and copies of them.
#![tactic(auto)]

mod copies;
mod entries;
mod order;
mod plain;
mod value;

pub use copies::bag;
pub use entries::{key_of, table};
pub use plain::is_plain;
pub use value::DynValue;
