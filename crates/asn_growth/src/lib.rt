//! Defines when a type is a later version of another, states what texts of one version are to
//! readers of the other, and tests at run time whether a shape is a later version of another. The
//! definitions are in `specs/`, the laws in `laws`.
#![tactic(auto)]

mod check;
mod collect;
mod compare;
pub mod laws;
mod lists;
mod nodes;
mod parts;
mod reasons;
mod ways;

pub use check::grows_check;
pub use collect::differences;
pub use nodes::few_nodes;
pub use reasons::{Growth, Reason};
pub use ways::place_path;
