//! States that what a text decodes to is a value of the shape. A tree may hold what no Rust value
//! holds, as a string that is not UTF-8, so the law is of the values that are held.

mod laws;

pub use laws::decoded_values_fit;
