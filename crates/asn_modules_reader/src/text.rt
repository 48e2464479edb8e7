//! Reads texts of modules whole: their tokens, and the modules that these stand for. What is
//! refused is reported with its line and column. The names in them are not compared.

mod read;
mod source;

pub use asn_modules_errors::{Cause, LeftOut, ModuleError, NameRule, NoToken};
pub use read::read_source;
pub use source::Source;
