//! Prints modules as texts, and tests whether a module can be read from a text.
#![tactic(auto)]

mod print;
mod proper;
mod write;

pub use print::print_module;
pub use proper::is_proper;
