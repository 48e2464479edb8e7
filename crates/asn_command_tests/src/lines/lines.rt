//! Lines of each form, in pieces of each length.
use crate::lines::capitals::{Calls, run_over};
use asn_lines::LinesEnd;
use std::test::Fail;

/// Lists inputs, what is written to the output and to the errors, and how many lines they have.
const ROWS: [(&str, &str, &str, u64); 12] = [
    ("", "", "", 0),
    ("a\n", "A\n", "", 1),
    ("ab\ncd\n", "AB\nCD\n", "", 2),
    // The last line has no line feed.
    ("a", "A\n", "", 1),
    ("ab\ncd", "AB\nCD\n", "", 2),
    // Empty lines are lines, and nothing after the last line feed is none.
    ("\n", "\n", "", 1),
    ("\n\na\n\n", "\n\nA\n\n", "", 4),
    // A carriage return stays part of its line.
    ("ab\r\ncd\r\n", "AB\r\nCD\r\n", "", 2),
    ("\r", "\r\n", "", 1),
    // Lines that are refused are reported by their numbers.
    ("x", "", "1: x\n", 1),
    ("ab\nxc\n\nxyz\nde", "AB\n\nDE\n", "2: xc\n4: xyz\n", 5),
    ("xa\nxb\n", "", "1: xa\n2: xb\n", 2),
];

/// Lists the most bytes of one call.
const PIECES: [usize; 4] = [1, 2, 3, 1_000];

/// The same is written whatever the pieces are.
#[test]
fn lines_are_answered(rt: HostRuntime) -> Result<(), Fail> {
    for row in ROWS.iter() {
        for piece in PIECES.iter() {
            let calls = Calls {
                piece: *piece,
                failing: &[],
            };
            let ran = run_over(rt.alloc(), row.0.as_bytes(), calls, calls, calls)?;
            assert_eq!(rt; ran.output.bytes(), row.1.as_bytes());
            assert_eq!(rt; ran.errors.bytes(), row.2.as_bytes());
            assert_eq!(rt; ran.shown.lines, row.3);
            let refused = ran.shown.refused > 0;
            assert_eq!(rt; refused, !row.2.is_empty());
            assert_eq!(rt; ran.end == LinesEnd::Refused, refused);
            assert_eq!(rt; ran.end == LinesEnd::Done, !refused);
        }
    }
    Ok(())
}

/// A line that isn't UTF-8 reaches the work, and those around it are answered.
#[test]
fn bytes_are_lines_too(rt: HostRuntime) -> Result<(), Fail> {
    let calls = Calls {
        piece: 2,
        failing: &[],
    };
    let ran = run_over(rt.alloc(), b"a\n\xff\xfe\nb\n", calls, calls, calls)?;
    assert_eq!(rt; ran.output.bytes(), b"A\nB\n".as_slice());
    assert_eq!(rt; ran.errors.bytes(), b"2: no text\n".as_slice());
    assert_eq!(rt; ran.end, LinesEnd::Refused);
    Ok(())
}
