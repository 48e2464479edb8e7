//! Defines type assignments (X.680, section 16) as a program holds them, their tokens, and which
//! text stands for which assignments. Most of it is in `specs/`: the tokens, the grammar as a
//! relation between texts and notations, and what contracts see of the types here.
#![tactic(auto)]

mod keyword;
pub mod laws;
pub mod limits;
mod names;
mod notation;

pub use keyword::Keyword;
pub use names::{begins_with_capital, is_type_name};
pub use notation::{Assignment, Component, Components, Module, Notation};
