//! Reports why a value isn't read by a shape that a program holds. Such a shape has names of its
//! own, so an error owns the names that it states.
#![tactic(auto)]

mod errors;
mod printing;

pub use errors::{DynError, DynKind, Step};
