//! Encodes values of ASN.1 types as JSON text, and decodes them from it, by the JSON Encoding
//! Rules of X.697. Text is read and written by `serde_json`; this crate takes its `Value` apart,
//! and puts values of `jer_values` together.
#![tactic(auto)]

pub mod jer;
