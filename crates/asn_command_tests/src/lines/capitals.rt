//! Answers lines in capitals, and runs that over memory.
ghost use Rattle.std.specs.Prelude.{⊤};

use asn_core::OutOfMemory;
use asn_lines::{LineReply, LineWork, LinesEnd, Progress, run_lines};
use asn_streams::{MemorySink, MemorySource};
use std::alloc::Global;
use std::test::Fail;

/// Answers a line in capitals, or refuses one that begins with `x` or is no text.
#[derive(Clone, Copy)]
struct Capitals;

impl LineWork for Capitals {
    ghost answers = { λ _ _ _ _. ⊤ };

    fn answer(&self, alloc: Global, number: u64, line: &[u8]) -> Result<LineReply, OutOfMemory> {
        match str::from_utf8(line) {
            Ok(text) if text.starts_with('x') => {
                Ok(LineReply::Refusal(format!(in alloc; "{number}: {text}\n")?))
            }
            Ok(text) => {
                let capitals = text.to_ascii_uppercase(alloc)?;
                Ok(LineReply::Answer(format!(in alloc; "{capitals}\n")?))
            }
            Err(_) => Ok(LineReply::Refusal(format!(in alloc; "{number}: no text\n")?)),
        }
    }
}

/// Keeps what it was shown last.
#[derive(Clone, Copy, Debug)]
pub struct Shown {
    /// Counts the lines.
    pub lines: u64,
    /// Counts those that are refused.
    pub refused: u64,
}

impl Progress for Shown {
    fn show(&mut self, lines: u64, refused: u64) {
        *self = Shown { lines, refused };
    }
}

/// Says how many bytes one call takes or gives at most, and which calls fail.
#[derive(Clone, Copy)]
pub struct Calls<'a> {
    /// Limits the bytes of one call.
    pub piece: usize,
    /// Lists the numbers of the calls that fail.
    pub failing: &'a [u64],
}

/// Holds how a run ended, and what it left.
#[derive(Drop)]
pub struct Ran {
    /// States how it ended.
    pub end: LinesEnd,
    /// Took the answers.
    pub output: MemorySink,
    /// Took the refusals.
    pub errors: MemorySink,
    /// Was shown how far it was.
    pub shown: Shown,
}

/// Returns a sink with room for 100 bytes.
fn sink(alloc: Global, calls: Calls<'_>) -> Result<MemorySink, Fail> {
    let failing = calls.failing.to_vec(alloc)?;
    Ok(MemorySink::new(alloc, 100, calls.piece.max(1), failing)?)
}

/// Runs over the bytes.
pub fn run_over(
    alloc: Global,
    input: &[u8],
    reads: Calls<'_>,
    writes: Calls<'_>,
    reports: Calls<'_>,
) -> Result<Ran, Fail> {
    let bytes = input.to_vec(alloc)?;
    let failing = reads.failing.to_vec(alloc)?;
    let mut source = MemorySource::new(bytes, reads.piece.max(1), failing);
    let mut output = sink(alloc, writes)?;
    let mut errors = sink(alloc, reports)?;
    let mut shown = Shown {
        lines: 0,
        refused: 0,
    };
    let end = run_lines(
        alloc,
        &Capitals,
        &mut source,
        &mut output,
        &mut errors,
        &mut shown,
    );
    Ok(Ran {
        end,
        output,
        errors,
        shown,
    })
}
