//! Reads texts of modules together, each by its name: what comes of all of them, or the first that
//! is refused.

pub mod laws;
mod sources;

pub use sources::read_sources;
