//! Makes values of a type: the smallest one, and one with every part that may be absent. The
//! definitions are in `specs/`.
#![tactic(auto)]

mod leaves;
mod parts;

pub use parts::{Extent, example};
