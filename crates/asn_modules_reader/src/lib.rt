//! Reads the modules of published files: one function for each production of the grammar of
//! `asn_modules_grammar`, over tokens that it goes over once and never back. One token decides
//! what stands at a place.
#![tactic(auto)]

mod assignment;
mod bases;
pub mod limits;
mod macros;
mod members;
mod module;
mod notation;
pub mod parts;
pub mod text;
mod version;

pub use assignment::{read_assignment, read_assignments};
pub use module::{read_module, read_text};
pub use notation::read_notation;
