//! Defines encoding: `Encoder`, which a codec implements by a few primitive calls, and `Encode`,
//! which a type implements, or has from its kind (`EncodeKind`), with the laws that each
//! implementation keeps. The types of the language and of the crates below are encoded here.
#![tactic(auto)]

mod encoder;
mod kinds;
mod plain;
mod strings;
mod times;

pub use encoder::{Encode, Encoder};
pub use kinds::{EncodeKind, EncodeText};
