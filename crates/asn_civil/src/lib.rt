//! Makes the times of `asn_times` of `jiff`'s civil values, and gives these back. The times hold
//! numbers, and this crate stands apart, so that a crate that needs no civil value carries no
//! statement of `jiff`.
#![tactic(auto)]

pub mod civil_times;

pub use civil_times::{CivilDate, CivilGeneralizedTime, CivilUtcTime};
