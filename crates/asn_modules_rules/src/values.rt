//! Checks that the names of values lead to values. Values are numbered as `asn_modules_names`
//! does.

mod check;
mod leads;
mod links;

pub use check::check_values;
