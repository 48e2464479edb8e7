//! Reads type assignments by descent: one function for each production of the grammar of
//! `asn_notation`, over a cursor that goes over the text once and never back. One token decides
//! what stands at a place.
#![tactic(auto)]

mod entries;
mod fault;
mod read;
mod start;
mod token;

pub use fault::ReadFault;
pub use read::read_assignments;
