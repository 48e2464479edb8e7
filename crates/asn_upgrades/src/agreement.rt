//! States that two readers of one shape agree, and two writers: the typed one and the one by a type
//! that a program holds, whose contracts speak of the same relations between texts, values and
//! refusals. Each law is the contract of a function that does nothing.

mod reading;
mod writing;

pub use reading::one_reading;
pub use writing::one_writing;
