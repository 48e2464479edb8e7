//! Reads type assignments (X.680, section 16) into modules, prints them, and gives the shape of
//! each type, so that types are known that no Rust code describes.
#![tactic(auto)]

mod fault;
mod names;
mod read;
mod shape;

pub use asn_module_text::{is_proper, print_module};
pub use asn_notation::{Assignment, Component, Components, Module, Notation};
pub use fault::ModuleFault;
pub use read::read_module;
pub use shape::module_shape;
