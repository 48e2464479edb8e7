//! Answers the lines of a file.
ghost use Rattle.asn_command.specs.Streams.{IsUnreadAfter, long_line};
ghost use Rattle.asn_lines.specs.Lines.{IsWithinLimits, text_lines};
ghost use Rattle.asn_lines.specs.Run.{Answered, AnsweredFront, CutShort, ReadSoFar, ReadToEnd};
ghost use Rattle.asn_replies.specs.Reading.{IsRefusal};
ghost use Rattle.asn_replies.specs.declared.status.Status.TheVariants as status;
ghost use Rattle.asn_streams.specs.Faults.{Increased};
ghost use Rattle.asn_streams.specs.Transfer.{transfer_of};
ghost use Rattle.std.specs.Prelude.{◌≡◌, ◌⊎◌, ◌<◌, ℕ, IfErr, IfOk, List, Ok, Some};

use asn_core::OutOfMemory;
use asn_lines::{LineWork, LinesEnd, Progress, run_lines};
use asn_replies::{Reply, Status, Unread, unread_reply};
use asn_streams::{Sink, Source};
use std::alloc::Global;

/// Returns the refusal of a file whose line of this number has more bytes than the limit.
///
/// # Errors
///
/// `OutOfMemory` alone.
fn long_line_reply(alloc: Global, file: &str, number: u64) -> Result<Reply, OutOfMemory>
    ensures { IfOk result (IsRefusal status.TooLong (long_line file.now number)) }
{
    let line = format!(in alloc; "{file}:{number}")?;
    unread_reply(alloc, &line, Unread::TooLong)
}

/// Answers each line of the file, which the source is: each answer goes to `output` and each
/// refusal to `errors`, in the order of the lines. Returns `Done` or `Refused` where the file was
/// read to its end, `WriteFault` or `WantOfMemory`.
///
/// # Errors
///
/// The reply that is still to be written where a read failed or a line is too long.
pub fn answer_lines<S: Source, K: Sink, E: Sink, W: LineWork, P: Progress>(
    alloc: Global,
    work: &W,
    file: &str,
    source: &mut S,
    output: &mut K,
    errors: &mut E,
    progress: &mut P,
) -> Result<Status, Result<Reply, OutOfMemory>>
    // The whole file was read, and what its lines come to was written, in order and nothing else.
    ensures done { result ≡ Ok status.Done
        → ReadToEnd (transfer_of S.left S.faults source.old source.new) (λ input.
        Answered (W.answers work.now) (transfer_of K.written K.faults output.old output.new)
        (transfer_of E.written E.faults errors.old errors.new) (λ n. n ≡ 0) (text_lines input)) }
    ensures refused { result ≡ Ok status.Refused
        → ReadToEnd (transfer_of S.left S.faults source.old source.new) (λ input.
        Answered (W.answers work.now) (transfer_of K.written K.faults output.old output.new)
        (transfer_of E.written E.faults errors.old errors.new) (λ n. 0 < n) (text_lines input)) }
    // A write failed, and what was written is a front part of what was due.
    ensures write_fault { result ≡ Ok status.WriteFault
        → Increased (K.faults output.old) (K.faults output.new)
        ⊎ Increased (E.faults errors.old) (E.faults errors.new) }
    ensures cut { result ≡ Ok status.WriteFault
        → ReadSoFar (transfer_of S.left S.faults source.old source.new) (λ input.
        CutShort (W.answers work.now) (transfer_of K.written K.faults output.old output.new)
        (transfer_of E.written E.faults errors.old errors.new) (text_lines input)) }
    // The first of the lines are answered.
    ensures memory { result ≡ Ok status.WantOfMemory
        → ReadSoFar (transfer_of S.left S.faults source.old source.new) (λ input.
        AnsweredFront (W.answers work.now) (transfer_of K.written K.faults output.old output.new)
        (transfer_of E.written E.faults errors.old errors.new) (text_lines input)) }
    ensures no_other { IfOk result (λ s. (s ≡ status.Done) ⊎ (s ≡ status.Refused)
        ⊎ (s ≡ status.WriteFault) ⊎ (s ≡ status.WantOfMemory)) }
    // A read failed, or a line is too long. What was read before is answered, and the reply says
    // so.
    ensures unread { IfErr result (IsUnreadAfter (W.answers work.now) file.now
        (transfer_of S.left S.faults source.old source.new)
        (transfer_of K.written K.faults output.old output.new)
        (transfer_of E.written E.faults errors.old errors.new)) }
    // Where contracts see the source's bytes and no count of faults rises, all lines are answered
    // or refused if they are within the limits, or memory runs out.
    ensures answers { (input : List ℕ) → S.left source.old ≡ Some input
        → IsWithinLimits (text_lines input)
        → ¬ Increased (S.faults source.old) (S.faults source.new)
        → ¬ Increased (K.faults output.old) (K.faults output.new)
        → ¬ Increased (E.faults errors.old) (E.faults errors.new)
        → (result ≡ Ok status.Done) ⊎ (result ≡ Ok status.Refused)
        ⊎ (result ≡ Ok status.WantOfMemory) }
{
    match run_lines(alloc, work, source, output, errors, progress) {
        LinesEnd::Done => Ok(Status::Done),
        LinesEnd::Refused => Ok(Status::Refused),
        LinesEnd::WriteFault => Ok(Status::WriteFault),
        LinesEnd::OutOfMemory => Ok(Status::WantOfMemory),
        LinesEnd::ReadFault => Err(unread_reply(alloc, file, Unread::Fault)),
        LinesEnd::TooLong { number } => Err(long_line_reply(alloc, file, number)),
    }
}
