//! Defines what ASN.1 types and their values are, what a tree of either notation decodes to by a
//! type, the tree and the text that are canonical for a value, and the laws on all of these. Most
//! of it is in `specs/`; the code here is what a program holds of it: shapes as values
//! (`shape_type`), the test of shapes (`readable`), values without parts (`leaves`) and the words
//! of refusals (`words`).
#![tactic(auto)]

mod arcs;
mod distinct;
mod fixed;
pub mod laws;
mod leaves;
mod names;
mod readable;
mod shape_type;
mod tags;
pub mod words;

pub use arcs::{arc_of, joined_arcs};
pub use fixed::fixed_size;
pub use leaves::{Leaf, LeafKind, OwnedLeaf, are_arcs, are_octets};
pub use readable::{
    is_of_shape, is_readable, is_readable_with, is_readable_within, is_readable_within_with,
};
pub use shape_type::{
    Alphabet, AlternativeShape, FieldShape, Plain, PresenceShape, SeqKind, Shape,
};
pub use tags::same_tag;
