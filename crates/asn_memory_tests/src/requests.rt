//! Runs the program over the request to make a document, where memory may be refused. Each test is
//! there for a share of the pieces that the run takes.
use crate::pieces::{REFUSED, Share, take_pieces_before};
use asn_convert::{MemorySink, MemorySource, Status, run};
use asn_core::OutOfMemory;
use std::alloc::Global;
use std::process::Abort;
use std::test::Fail;

/// Runs the program over the request `make 4`, and returns the status and what was written.
///
/// # Errors
///
/// `OutOfMemory` where the source, the sink or the copy of what was written is refused it.
fn make_four(alloc: Global) -> Result<(Status, Vec<u8>), OutOfMemory> {
    let mut source = MemorySource::new(b"make 4".to_vec(alloc)?, 4, Vec::new(alloc));
    let mut sink = MemorySink::new(alloc, 100, 8, Vec::new(alloc))?;
    let status = run(alloc, &mut source, &mut sink);
    Ok((status, sink.bytes().to_vec(alloc)?))
}

/// Checks that a document of four entries is made and its lengths are written, or that memory was
/// refused and nothing is written.
fn assert_made(rt: &impl Abort, alloc: Global, share: Share) -> Result<(), Fail> {
    take_pieces_before(alloc, share)?;
    let Ok((status, written)) = make_four(alloc) else {
        return Err(Fail::from(REFUSED));
    };
    if status == Status::WantOfMemory {
        assert_eq!(rt; written.len(), 0);
        return Err(Fail::from(REFUSED));
    }
    assert_eq!(rt; status, Status::Done);
    let due = b"entries 4\njer 204\navn 258\nback 204\n";
    assert!(rt; written.as_slice() == due.as_slice());
    Ok(())
}

/// A piece of the first share.
#[test]
fn first_share(rt: HostRuntime) -> Result<(), Fail> {
    assert_made(&rt, rt.alloc(), Share::First)
}

/// A piece of the second share.
#[test]
fn second_share(rt: HostRuntime) -> Result<(), Fail> {
    assert_made(&rt, rt.alloc(), Share::Second)
}

/// A piece of the third share.
#[test]
fn third_share(rt: HostRuntime) -> Result<(), Fail> {
    assert_made(&rt, rt.alloc(), Share::Third)
}

/// A piece of the fourth share.
#[test]
fn fourth_share(rt: HostRuntime) -> Result<(), Fail> {
    assert_made(&rt, rt.alloc(), Share::Fourth)
}

/// A piece of the fifth share.
#[test]
fn fifth_share(rt: HostRuntime) -> Result<(), Fail> {
    assert_made(&rt, rt.alloc(), Share::Fifth)
}

/// A piece of the sixth share.
#[test]
fn sixth_share(rt: HostRuntime) -> Result<(), Fail> {
    assert_made(&rt, rt.alloc(), Share::Sixth)
}

/// A piece of the seventh share.
#[test]
fn seventh_share(rt: HostRuntime) -> Result<(), Fail> {
    assert_made(&rt, rt.alloc(), Share::Seventh)
}

/// A piece of the eighth share.
#[test]
fn eighth_share(rt: HostRuntime) -> Result<(), Fail> {
    assert_made(&rt, rt.alloc(), Share::Eighth)
}
