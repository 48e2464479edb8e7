//! Encodes, decodes and describes the parts of a type: one call for each field of a SEQUENCE or
//! SET, and for each part of a shape. A type's own description is made of
//! these calls.
#![tactic(auto)]

mod fields;
mod group;
mod shape_parts;

pub use fields::{
    read_addition, read_default_field, read_field, read_optional_field, within_field,
    write_default_field, write_field, write_optional_field,
};
pub use group::{FieldGroup, read_groups, write_groups};
pub use shape_parts::{AlternativeShapes, FieldShapes};
