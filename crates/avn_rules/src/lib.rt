//! Encodes values of ASN.1 types as text of the value notation of X.680 (AVN), and decodes them
//! from it. Text is read by `avn_value` into a table of nodes, of which this crate takes values;
//! it writes into the node frames of `avn_frames`, which print them.
#![tactic(auto)]

pub mod avn;
