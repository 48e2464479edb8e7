//! Defines decoding: `Decoder`, which a codec implements by a few primitive calls, and `Decode` and
//! `DecodeChoice`, which a type implements, or has from its kind (`DecodeKind`,
//! `DecodeChoiceKind`), with the laws that each implementation keeps. The types of the language and
//! of the crates below are decoded here.
#![tactic(auto)]

mod decode;
mod decoder;
mod kinds;
mod numbers;
mod plain;

pub use decode::{Decode, DecodeChoice};
pub use decoder::Decoder;
pub use kinds::{DecodeChoiceKind, DecodeKind};
