//! Does the work of the program `asn_convert`: a request line and a text go in, and the text's
//! value in canonical form comes out, or the module that the text stands for, or what is kept of a
//! stream, or the line of the error; or a document is made, and the report on it comes out. All of
//! it is generic in where bytes come from and where they go, so tests run it over memory, and the
//! program (`asn_convert_main`) over standard input and output.
#![tactic(auto)]

mod kept;
mod limits;
mod lines;
mod made;
mod program;
mod report;
mod request;
mod status;

pub use asn_streams::{
    Failed, MemorySink, MemorySource, Sink, Source, StdSink, StdSource, SteadySink, SteadySource,
};
pub use limits::stated_limits;
pub use program::{convert_as, convert_within, run};
pub use status::Status;
