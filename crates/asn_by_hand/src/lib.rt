//! Describes types in other ways than the samples. Two are decoded by hand: a SET by `decode_set`,
//! a field at a time, and a SEQUENCE by `decode_sequence`. A SEQUENCE of nine fields, more than one
//! function is proved with, is described as groups of fields (`Wide`), and a SET has an extension
//! marker (`GrowingSet`).
#![tactic(auto, using(asn_coding::proofs::Passing::field_steps))]

mod groups;
mod growing_set;
mod mark_fields;
mod wide;
mod with_null_opt;

pub use groups::{Flags, Names, Numbers};
pub use growing_set::GrowingSet;
pub use mark_fields::{MarkField, read_mark_set};
pub use wide::{Rest, Wide};
pub use with_null_opt::read_with_null_opt;
