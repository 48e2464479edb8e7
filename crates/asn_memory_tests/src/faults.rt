//! Runs the program over a source of which a read fails, or over a sink of which a write fails or
//! that has too little room. What was written before stays.
use asn_convert::{MemorySink, MemorySource, run};
use asn_core::OutOfMemory;
use std::alloc::Global;
use std::test::Fail;

/// Limits the bytes that the source gives in one read: few, so that each run reads several times.
const READ_PIECE: usize = 7;

/// Limits the bytes that the sink takes in one write: few, for the same reason.
const WRITE_PIECE: usize = 5;

/// Is more room than any run here needs.
const ROOM: usize = 1_000;

/// Names what fails in a run.
#[derive(Clone, Copy, Drop)]
enum Fault {
    /// The read of this number fails, counted from 1.
    Read(u64),
    /// The write of this number fails, counted from 1.
    Write(u64),
    /// The sink takes so many bytes and no more.
    Room(usize),
}

const NUMBER: &str = "jer jer u64\n 18446744073709551615 ";

const RENAMED: &str = "jer jer Renamed\n{\"so-very\":1,\"re_named\":true}";

/// What goes in, what fails, the status, and what is written.
const ROWS: [(&str, Fault, u8, &str); 25] = [
    (NUMBER, Fault::Read(1), 3, ""),
    (NUMBER, Fault::Read(2), 3, ""),
    (NUMBER, Fault::Read(6), 3, ""),
    (NUMBER, Fault::Read(7), 0, "18446744073709551615\n"),
    (NUMBER, Fault::Write(1), 4, ""),
    (NUMBER, Fault::Write(3), 4, "1844674407"),
    (NUMBER, Fault::Room(7), 4, "1844674"),
    (NUMBER, Fault::Room(21), 0, "18446744073709551615\n"),
    ("jer jer u64\n-1", Fault::Write(2), 4, "refus"),
    (RENAMED, Fault::Read(1), 3, ""),
    (RENAMED, Fault::Read(5), 3, ""),
    (RENAMED, Fault::Read(8), 3, ""),
    (
        RENAMED,
        Fault::Read(9),
        0,
        "{\"re_named\":true,\"so-very\":1}\n",
    ),
    (RENAMED, Fault::Write(1), 4, ""),
    (RENAMED, Fault::Write(3), 4, "{\"re_named"),
    (RENAMED, Fault::Room(7), 4, "{\"re_na"),
    (
        RENAMED,
        Fault::Room(29),
        4,
        "{\"re_named\":true,\"so-very\":1}",
    ),
    (
        RENAMED,
        Fault::Room(30),
        0,
        "{\"re_named\":true,\"so-very\":1}\n",
    ),
    (
        "avn jer Renamed\n{ so-very 1, so-very 2 }",
        Fault::Room(6),
        4,
        "refuse",
    ),
    ("module\nA::=NULL", Fault::Write(1), 4, ""),
    ("module\nA::=NULL", Fault::Room(7), 4, "A ::= N"),
    ("grows A A\nA::=NULL", Fault::Room(5), 4, "grows"),
    ("grows A A\nA::=A", Fault::Room(7), 4, "refused"),
    ("module\n}", Fault::Read(2), 3, ""),
    ("keep jer u8 u8\n1\n300", Fault::Room(6), 4, "1\nline"),
];

/// Runs the program on the input, in small pieces, and returns the status and what was written.
///
/// # Errors
///
/// `OutOfMemory` where there is no memory for the source, the sink or what was written.
fn outcome(alloc: Global, input: &str, fault: Fault) -> Result<(u8, Vec<u8>), OutOfMemory> {
    let mut reads = Vec::new(alloc);
    let mut writes = Vec::new(alloc);
    let mut room = ROOM;
    match fault {
        Fault::Read(number) => reads.push(number)?,
        Fault::Write(number) => writes.push(number)?,
        Fault::Room(bytes) => room = bytes,
    }
    let mut source = MemorySource::new(input.as_bytes().to_vec(alloc)?, READ_PIECE, reads);
    let mut sink = MemorySink::new(alloc, room, WRITE_PIECE, writes)?;
    let status = run(alloc, &mut source, &mut sink);
    Ok((status.number(), sink.bytes().to_vec(alloc)?))
}

/// Each run ends with its status, and what was written before the fault stays.
#[test]
fn runs_with_a_fault(rt: HostRuntime) -> Result<(), Fail> {
    for (input, fault, status, written) in ROWS {
        let found = outcome(rt.alloc(), input, fault)?;
        assert_eq!(rt; found.0, status);
        assert!(rt; found.1.as_slice() == written.as_bytes());
    }
    Ok(())
}
