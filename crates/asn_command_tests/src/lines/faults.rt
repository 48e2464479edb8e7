//! Reads and writes that fail.
use crate::lines::capitals::{Calls, run_over};
use asn_lines::LinesEnd;
use std::test::Fail;

/// Is read three bytes at a time: a line in each read, and the end in the fourth.
const INPUT: &str = "ab\nxc\nde";

/// Lists the read that fails, and what is written to the output and to the errors then.
const READS: [(u64, &str, &str); 4] = [
    (1, "", ""),
    (2, "AB\n", ""),
    (3, "AB\n", "2: xc\n"),
    // The line without a line feed isn't whole.
    (4, "AB\n", "2: xc\n"),
];

/// Each line that was read whole is answered before a read that fails.
#[test]
fn reads_fail(rt: HostRuntime) -> Result<(), Fail> {
    let writes = Calls {
        piece: 1_000,
        failing: &[],
    };
    for row in READS.iter() {
        let reads = Calls {
            piece: 3,
            failing: &[row.0],
        };
        let ran = run_over(rt.alloc(), INPUT.as_bytes(), reads, writes, writes)?;
        assert_eq!(rt; ran.output.bytes(), row.1.as_bytes());
        assert_eq!(rt; ran.errors.bytes(), row.2.as_bytes());
        assert_eq!(rt; ran.end, LinesEnd::ReadFault);
    }
    Ok(())
}

/// Lists the write of two bytes to the output that fails, and what is written then.
const WRITES: [(u64, &str, &str); 4] = [
    (1, "", ""),
    (2, "AB", ""),
    (3, "AB\n", "2: xc\n"),
    (4, "AB\nDE", "2: xc\n"),
];

/// A write of an answer that fails ends the run, and the refusals before it are written.
#[test]
fn writes_fail(rt: HostRuntime) -> Result<(), Fail> {
    let reads = Calls {
        piece: 3,
        failing: &[],
    };
    for row in WRITES.iter() {
        let writes = Calls {
            piece: 2,
            failing: &[row.0],
        };
        let ran = run_over(rt.alloc(), INPUT.as_bytes(), reads, writes, reads)?;
        assert_eq!(rt; ran.output.bytes(), row.1.as_bytes());
        assert_eq!(rt; ran.errors.bytes(), row.2.as_bytes());
        assert_eq!(rt; ran.end, LinesEnd::WriteFault);
    }
    Ok(())
}

/// Lists the write of three bytes to the errors that fails, and what is written then.
const REPORTS: [(u64, &str, &str); 2] = [(1, "AB\n", ""), (2, "AB\n", "2: ")];

/// A write of a refusal that fails ends the run, and the answers of that piece are written.
#[test]
fn reports_fail(rt: HostRuntime) -> Result<(), Fail> {
    let calls = Calls {
        piece: 3,
        failing: &[],
    };
    for row in REPORTS.iter() {
        let reports = Calls {
            piece: 3,
            failing: &[row.0],
        };
        let ran = run_over(rt.alloc(), INPUT.as_bytes(), calls, calls, reports)?;
        assert_eq!(rt; ran.output.bytes(), row.1.as_bytes());
        assert_eq!(rt; ran.errors.bytes(), row.2.as_bytes());
        assert_eq!(rt; ran.end, LinesEnd::WriteFault);
    }
    Ok(())
}
