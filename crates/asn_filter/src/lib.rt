//! Cuts messages of a newer version of a type to what an older version knows: texts in, one a
//! line, and JSON texts out, one a line. A line that the older version can't take is listed with
//! its number and the reason.
#![tactic(auto)]

mod cutting;
mod fault;
mod keeping;
mod lines;

pub use cutting::cut;
pub use fault::{FilterFault, LineFault};
pub use keeping::{Kept, keep};
