//! Defines the grammar of modules (X.680) over their tokens: the headers of modules, and the
//! notation of types and values.
#![tactic(auto)]

pub mod headers;
pub mod notation;
