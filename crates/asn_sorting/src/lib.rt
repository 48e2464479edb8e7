//! Sorts values by texts that stand beside them. A codec writes the elements of a SET OF in the
//! order that this gives.
#![tactic(auto)]

mod by_text;

pub use by_text::ByText;
