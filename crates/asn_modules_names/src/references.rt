//! Checks the names of types and values that modules refer to.

mod check;
mod value_names;
mod walk;

pub use check::check_references;
pub use value_names::value_name;
