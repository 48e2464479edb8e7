//! Gives the sample types the names by which the program knows them. The types stand in the crates
//! `asn_sample_fields`, `asn_sample_choices` and `asn_sample_trees`, whose names this crate passes
//! on; `docs/FROM-A-PROGRAM.md` goes through the files to copy.
#![tactic(auto)]

mod sample;
mod visitor;

pub use asn_sample_choices::{
    ExtChoice, Inner, NewPart, NewReport, OldPart, OldReport, SimpleChoice, TestTypeA,
};
pub use asn_sample_fields::{
    Blank, ConstrainedBitString, Defaulted, ExtEnum, ExtensibleBitString, ExtensibleBitStringField,
    MarkSet, MarkedBitString, Nested, NewMode, OldMode, Renamed, SimpleEnum, Struct, Very,
    WithNullOpt,
};
pub use asn_sample_trees::{
    Nest, NewTree, NewTreeAdditions, OldTree, OldTreeAdditions, Tree, TreeAdditions, Wrap1, Wrap2,
};
pub use sample::{Sample, is_sample_name, shape_of};
pub use visitor::SampleVisitor;
