//! Defines the modules of published files (X.680, section 13) as a program holds them, and which
//! tokens stand for which modules. Names and numbers stay tokens of the text. Most of it is in
//! `specs/`: the grammar as a relation between tokens and modules, and what contracts see of the
//! types here.

pub mod laws;
mod leaf;
mod module;
mod notation;
mod number;
mod size;
mod tag;
mod value;

pub use leaf::{Closed, Leaf};
pub use module::{Assignment, Module};
pub use notation::{Base, Component, Extension, Member, Members, Notation, Presence};
pub use number::{Constant, Item, NamedNumber, SignedNumber};
pub use size::Size;
pub use tag::{TagMode, TagNotation};
pub use value::Value;
