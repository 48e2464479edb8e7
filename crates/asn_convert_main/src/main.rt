//! Converts a value between the text notations, and prints and compares types: a request line and a
//! text on standard input, what is answered or the line of an error on standard output, and the
//! status as the exit status. All of the work, and its contract, is `asn_convert::run`.
#![tactic(auto)]

use asn_convert::{StdSink, StdSource, run};
use std::process::ExitCode;

/// Runs the program over standard input and output. Standard error stays silent.
fn main(rt: HostRuntime) -> ExitCode {
    let mut source = StdSource::new(rt.stdin());
    let mut sink = StdSink::new(rt.stdout());
    let status = run(rt.alloc(), &mut source, &mut sink);
    ExitCode::from(status.number())
}
