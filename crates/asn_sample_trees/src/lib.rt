//! Describes sample types by hand, each with the laws of the traits, where the traits of a kind
//! don't serve: types that hold themselves, and types that hand on to another. What contracts cite
//! of a type stands in its file of `specs/`: its shape, and the value of each Rust value.
//! `asn_samples` gives the names by which the program knows the types.
#![tactic(auto, using(asn_coding::proofs::Passing::field_steps))]

mod nest;
mod new_tree;
mod old_tree;
mod tree;
mod tree_additions;
mod wrap;

pub use nest::Nest;
pub use new_tree::{NewTree, NewTreeAdditions};
pub use old_tree::{OldTree, OldTreeAdditions};
pub use tree::Tree;
pub use tree_additions::TreeAdditions;
pub use wrap::{Wrap1, Wrap2};
