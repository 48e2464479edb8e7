//! Makes an ASN.1 type of a JSON document. `Document` is a CHOICE of what a JSON value can be, and
//! `DocumentMap` is its object alone; both are encoded and decoded in the text notations like every
//! other type.
#![tactic(auto)]

mod document;
mod document_map;
mod equality;
mod impls;
mod reading;
mod writing;

pub use document::Document;
pub use document_map::DocumentMap;
