//! Prints types that name each other by number (`asn_linked_types`) as assignments of ASN.1
//! (X.680), in one layout: two blanks a level, and a line for each component and alternative.
#![tactic(auto)]

mod level;
mod print;
mod reached;
mod values;
pub mod words;
mod write;

pub use print::printed_types;
