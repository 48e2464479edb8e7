//! Runs a work over the lines of a source.
ghost use Rattle.std.specs.Prelude.{◌≡◌, ◌⊎◌, ◌<◌, ℕ, List, Some, ⊤};
ghost use Rattle.asn_lines.specs.Lines.{IsWithinLimits, text_lines, whole_lines};
ghost use Rattle.asn_lines.specs.Run.{Answered, AnsweredFront, CutShort, ReadSoFar, ReadToEnd};
ghost use Rattle.asn_lines.specs.Run.{StoppedAt};
ghost use Rattle.asn_streams.specs.Faults.{Increased};
ghost use Rattle.asn_streams.specs.Transfer.{transfer_of};

use crate::gathered::{Gathered, Stop};
use crate::limits::PIECE;
use crate::work::{LineWork, Progress};
use asn_streams::{Sink, Source};
use std::alloc::Global;

/// States how a run ended.
#[derive(Clone, Copy, Debug, PartialEq, Eq, Drop)]
pub enum LinesEnd {
    /// Each line is answered.
    Done,
    /// Each line is answered or refused, and at least one is refused.
    Refused,
    /// A read failed.
    ReadFault,
    /// A write failed.
    WriteFault,
    /// There was no memory.
    OutOfMemory,
    /// A line has more bytes than the limit, or a number above the limit.
    TooLong {
        /// Holds the number of that line, counted from 1.
        number: u64,
    },
}

/// Answers each line of the source: its answer goes to `output`, and its refusal to `errors`. A
/// line ends at a line feed, and what stands after the last one is a line unless it is empty. What
/// the lines of a piece come to is written before the next piece is read, the answers first; so an
/// answer doesn't wait for more of the input. Memory is that of the longest line and of what the
/// lines of one piece come to.
pub fn run_lines<S: Source, K: Sink, E: Sink, W: LineWork, P: Progress>(
    alloc: Global,
    work: &W,
    source: &mut S,
    output: &mut K,
    errors: &mut E,
    progress: &mut P,
) -> LinesEnd
    // The whole input was read, and what its lines come to was written, in order and nothing else.
    // No line is refused exactly where the end is `Done`.
    ensures done { result ≡ LinesEnd.Done
        → ReadToEnd (transfer_of S.left S.faults source.old source.new) (λ input.
        Answered (W.answers work.now) (transfer_of K.written K.faults output.old output.new)
        (transfer_of E.written E.faults errors.old errors.new) (λ n. n ≡ 0) (text_lines input)) }
    ensures refused { result ≡ LinesEnd.Refused
        → ReadToEnd (transfer_of S.left S.faults source.old source.new) (λ input.
        Answered (W.answers work.now) (transfer_of K.written K.faults output.old output.new)
        (transfer_of E.written E.faults errors.old errors.new) (λ n. 0 < n) (text_lines input)) }
    // A read failed, and each line that was read up to its line feed is answered.
    ensures read_fault { result ≡ LinesEnd.ReadFault
        → Increased (S.faults source.old) (S.faults source.new) }
    ensures unread { result ≡ LinesEnd.ReadFault
        → ReadSoFar (transfer_of S.left S.faults source.old source.new) (λ input.
        Answered (W.answers work.now) (transfer_of K.written K.faults output.old output.new)
        (transfer_of E.written E.faults errors.old errors.new) (λ n. ⊤) (whole_lines input)) }
    // A write failed, and what was written is a front part of what was due for lines that were
    // read.
    ensures write_fault { result ≡ LinesEnd.WriteFault
        → Increased (K.faults output.old) (K.faults output.new)
        ⊎ Increased (E.faults errors.old) (E.faults errors.new) }
    ensures cut { result ≡ LinesEnd.WriteFault
        → ReadSoFar (transfer_of S.left S.faults source.old source.new) (λ input.
        CutShort (W.answers work.now) (transfer_of K.written K.faults output.old output.new)
        (transfer_of E.written E.faults errors.old errors.new) (text_lines input)) }
    // Some of the lines that were read are answered, the first of them.
    ensures out_of_memory { result ≡ LinesEnd.OutOfMemory
        → ReadSoFar (transfer_of S.left S.faults source.old source.new) (λ input.
        AnsweredFront (W.answers work.now) (transfer_of K.written K.faults output.old output.new)
        (transfer_of E.written E.faults errors.old errors.new) (text_lines input)) }
    // A line that was read is past the limits, and those before it are answered.
    ensures too_long { (number : ℕ) → result ≡ LinesEnd.TooLong number
        → ReadSoFar (transfer_of S.left S.faults source.old source.new) (λ input.
        StoppedAt (W.answers work.now) (transfer_of K.written K.faults output.old output.new)
        (transfer_of E.written E.faults errors.old errors.new) number (text_lines input)) }

    // Where contracts see the source's bytes and no count of faults rises, all lines are answered
    // or refused if they are within the limits, or memory runs out.
    ensures answers { (input : List ℕ) → S.left source.old ≡ Some input
        → IsWithinLimits (text_lines input)
        → ¬ Increased (S.faults source.old) (S.faults source.new)
        → ¬ Increased (K.faults output.old) (K.faults output.new)
        → ¬ Increased (E.faults errors.old) (E.faults errors.new)
        → (result ≡ LinesEnd.Done) ⊎ (result ≡ LinesEnd.Refused)
        ⊎ (result ≡ LinesEnd.OutOfMemory) }
{
    let mut gathered = Gathered::new(alloc);
    // The buffer is reused for each read.
    let mut piece = [0u8; PIECE];
    'pieces: loop {
        let Ok(count) = source.read(&mut piece) else {
            return LinesEnd::ReadFault;
        };
        let taken = gathered.take(alloc, work, &piece[..count]);
        // What was gathered is written also where no more lines are answered.
        if gathered.write_out(output, errors).is_err() {
            return LinesEnd::WriteFault;
        }
        let refused = gathered.refused();
        progress.show(gathered.lines(), refused);
        match taken {
            Ok(()) if count > 0 => {}
            Ok(()) if refused == 0 => return LinesEnd::Done,
            Ok(()) => return LinesEnd::Refused,
            Err(Stop::OutOfMemory) => return LinesEnd::OutOfMemory,
            Err(Stop::TooLong) => {
                let number = gathered.lines() + 1;
                return LinesEnd::TooLong { number };
            }
        }
    }
}
