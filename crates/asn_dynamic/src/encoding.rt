//! Writes values that a program holds, by the calls of an encoder. A value has all names that are
//! written, so no type is needed for it.

mod leaves;
mod names;
mod writing;

pub use writing::write_value;
