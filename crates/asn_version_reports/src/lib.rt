//! Reports on versions of a type in words: where and why a type is no later version of another,
//! which parts of a type have no values, and that these aren't compared.
#![tactic(auto)]

mod differences;
mod path;
mod uncompared;
mod valueless;
mod words;

pub use differences::differences_report;
pub use uncompared::uncompared_report;
pub use valueless::parts_without_values;
