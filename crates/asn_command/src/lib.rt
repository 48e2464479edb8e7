//! Does the work of the command `asn` over texts of published modules and of values: what goes to
//! standard output where it is done, and what goes to standard error where it is refused. The
//! program (`asn_command_main`) reads the command line and opens the files.
#![tactic(auto)]

mod checking;
mod conversion;
mod lines;
mod listing;
mod one_line;
mod reading;
mod reports;
mod running;
pub mod show;
mod types;
pub mod versions;
mod whole;

pub use conversion::{Conversion, conversion_reply};
pub use lines::ConvertLines;
pub use reading::types_of;
pub use reports::{check_reply, types_reply};
pub use running::answer_lines;
pub use whole::convert_whole;
