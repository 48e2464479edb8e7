//! Reads bytes from where they come from, and writes them to where they go: an input whole, up to a
//! limit, and an output whole. Programs are generic in both, so that tests run them over memory and
//! their contracts count which calls failed.
#![tactic(auto)]

mod io;
mod io_all;
mod limits;
mod memory;
mod standard;

pub use io::{Failed, Sink, Source};
pub use io_all::{Stopped, read_to_end, write_all};
pub use limits::{MOST_BYTES, stated_limit};
pub use memory::{MemorySink, MemorySource, SteadySink, SteadySource};
pub use standard::{StdSink, StdSource};
