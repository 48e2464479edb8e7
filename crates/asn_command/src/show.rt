//! Does the work of the command `asn show`: shows a type of published modules with those that it
//! names, in one layout, and a value of it.

mod example;
mod names;
mod show;

pub use asn_example_values::Extent;
pub use example::example_reply;
pub use show::show_reply;
