//! Keeps the slots of both codecs: those that a decoder has still to read, and those that an
//! encoder has written. A slot is a value of a notation, or the absence of one: a field of a
//! SEQUENCE takes one slot, whether it is present or not. Everything here is generic in the value
//! that a codec stores, and the lemmas on it stand in `proofs/`, where both codecs cite them.
#![tactic(auto)]

mod frames;
mod pending;
mod slots;

pub use frames::Frames;
pub use pending::Pending;
