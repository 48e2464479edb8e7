//! Says what calls that encode and decode do, without a trait: `specs/` has the words of their
//! contracts, relations on the slots that a decoder has pending and on the frames that an encoder
//! has open, and `proofs/` the laws that join the calls for parts to that for a whole. The code is
//! the lists of names and the tables of constants by which fields and alternatives are found.
#![tactic(auto)]

mod field;
mod field_names;
mod look_up;
mod name_tables;
mod opening;
mod shapes;
mod tables;

pub use asn_names::{Name, NameList};
pub use field::{Field, Fields, Presence};
pub use field_names::FieldNames;
pub use look_up::{place_of, place_of_field};
pub use name_tables::{Identifiers, TableNames};
pub use opening::Opened;
pub use shapes::enumerated_shape;
pub use tables::{
    fields_as_read, fields_by_tag, identifier_of, listed, listed_fields, place_and_tag,
    place_of_tag, tag_at,
};
