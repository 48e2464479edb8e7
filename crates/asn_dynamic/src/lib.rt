//! Reads, writes and converts values by a shape that a program holds as data, in either text
//! notation, with the promises of the typed calls. A shape is one way to hold a type: each call has
//! a form over `Part`, by which a type may be held in any other way.
#![tactic(auto)]

mod conversion;
pub mod encoding;
mod reading;
mod writing;

pub use asn_dynamic_faults::{DynError, DynKind, Step};
pub use asn_dynamic_fits::{fits, fits_part};
pub use asn_dynamic_values::{DynValue, bag};
pub use asn_parts::Part;
pub use conversion::{ConvertError, convert, convert_part};
pub use reading::{read, read_part};
pub use writing::{write, write_part};
