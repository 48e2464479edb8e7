//! Expands the names of types: gives the shape of a type that a module assigns.
#![tactic(auto)]

mod fault;
pub mod limits;
mod names;
mod opened;
mod parts;

pub use fault::ExpansionFault;
pub use names::{Places, expand};
