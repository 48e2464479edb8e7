//! Decodes texts of one version of a type by a reader of another. The calls are `decode_from_str`;
//! their clauses say what follows for its answer from the laws of versions.
#![tactic(auto)]

pub mod agreement;
mod versions;

pub use versions::{decode_as_newer, decode_as_older};
