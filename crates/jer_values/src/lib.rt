//! Holds the JSON values that JER's encoder makes. They differ from those of `serde_json` in that
//! an object is a list of members, which takes the room of these alone, and that a name
//! that is a constant of a type isn't copied.
#![tactic(auto)]

mod integer;
mod members;
mod name;
mod text;
mod tree;
mod value;

pub use integer::JsonInteger;
pub use members::{one_member, put_member};
pub use name::JerName;
pub use value::JerValue;
