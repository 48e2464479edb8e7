//! Defines what types mean that name each other by number, and tests whether they can be read. A
//! module is held so: a list of shapes, in which `Shape::Back` of a number means the type of that
//! number. What a type means is its expansion, which is never built.
#![tactic(auto)]

mod closed;
pub mod expander;
mod limits;
mod readable;

pub use closed::no_values;
pub use limits::{TYPE_LIMIT, stated_limits};
pub use readable::are_linked;
