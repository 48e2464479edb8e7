//! Defines `SetOf`, the values of SET OF (X.680, section 28): multisets, seen as the list of their
//! elements, each as often as it is there. Their counts are kept in a map of `indexmap`, which no
//! interface of the traits and codecs names: these are over any multiset of `asn_multisets`.
#![tactic(auto)]

pub mod indexed;

pub use indexed::{Indexed, SetOf};
