//! Shows types that name each other by number as parts, by which values are read and written: a
//! type is opened where a value reaches its name, and what it means is never built.
#![tactic(auto)]

mod place;

pub use place::Place;
