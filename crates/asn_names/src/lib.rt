//! Lists of names, by which a codec finds and writes the fields of a SEQUENCE or SET and the
//! alternatives of a CHOICE. A name is a constant, as in the tables of a type, or a text that a
//! program holds at run time.
#![tactic(auto)]

mod list;
mod name;

pub use list::NameList;
pub use name::Name;
