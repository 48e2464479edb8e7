//! Runs the program over the source and the sink that never fail. Other inputs of it are rows of
//! `.ci/rows/requests.tsv`.
use asn_convert::{Status, SteadySink, SteadySource, run};
use std::test::Fail;

/// A request that can be done is done: the status is what the contract of `run` leaves for it,
/// out of memory aside.
#[test]
fn a_steady_source_and_sink(rt: HostRuntime) -> Result<(), Fail> {
    // The request line, a line feed, and the text.
    let mut source = SteadySource::new(b"jer avn bool\ntrue".to_vec(rt.alloc())?);
    let mut sink = SteadySink::new();
    // What was written is not kept by this sink.
    assert_eq!(rt; run(rt.alloc(), &mut source, &mut sink), Status::Done);
    Ok(())
}
