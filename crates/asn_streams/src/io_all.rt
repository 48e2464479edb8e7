//! Reads a whole input within the limit, and writes a whole output: the two loops that all reads
//! and writes of the program go through.
ghost use Rattle.std.specs.Prelude.{◌≡◌, ◌≤◌, IfOk, OnOk, OnErr, IsErrOf};
ghost use Rattle.std.specs.Io.KnownBytes.{Appends};
ghost use Rattle.asn_streams.specs.Faults.{Increased, HasCause, AppendsFront};
ghost use Rattle.asn_streams.specs.Input.{IsWholeInput, ReadPastLimit};
ghost use Rattle.asn_streams.specs.Transfer.{transfer_of};
ghost use Rattle.asn_streams.specs.declared.io_all.Stopped.TheVariants.{Fault, TooLong};
ghost use Rattle.asn_streams.specs.declared.io_all.Stopped.TheVariants.{OutOfMemory};

use crate::io::{Failed, Sink, Source};
use crate::limits::MOST_BYTES;
use std::alloc::{AllocError, Global};

/// Limits the bytes that one read asks for, which is also the length of the buffer on the stack.
const PIECE: usize = 65_536;

/// States why an input was not read to its end.
#[derive(Clone, Copy, Debug, PartialEq, Eq, Drop)]
pub enum Stopped {
    /// A read failed.
    Fault,
    /// The input has a byte more than the limit.
    TooLong,
    /// There was no memory for the bytes that were read.
    OutOfMemory,
}

/// Makes `?` turn a failed read into `Fault`.
impl From<Failed> for Stopped {
    ghost from_gives = { λ _ e. e ≡ Fault };

    fn from(_: Failed) -> Stopped {
        Stopped::Fault
    }
}

/// Makes `?` turn a refusal of memory into `OutOfMemory`.
impl From<AllocError> for Stopped {
    ghost from_gives = { λ _ e. e ≡ OutOfMemory };

    fn from(_: AllocError) -> Stopped {
        Stopped::OutOfMemory
    }
}

/// Reads to the end and returns all bytes. It takes no more from the source than one byte past
/// the limit, by which it knows that an input is too long.
///
/// # Errors
///
/// `Fault` where a read failed; `TooLong` where the input has more bytes than the limit;
/// `OutOfMemory`. What was read is dropped then.
pub fn read_to_end<S: Source>(alloc: Global, source: &mut S) -> Result<Vec<u8>, Stopped>
    ensures read { IfOk result
        (λ v. IsWholeInput (transfer_of S.left S.faults source.old source.new) v.items) }
    ensures later { S.faults source.old ≤ S.faults source.new }
    ensures fault { IsErrOf result Fault → Increased (S.faults source.old) (S.faults source.new) }
    ensures too_long { IsErrOf result TooLong
        → ReadPastLimit (transfer_of S.left S.faults source.old source.new) }
{
    let mut bytes = Vec::new(alloc);
    // The buffer is reused for each read, and what was read is appended to `bytes`.
    let mut piece = [0u8; PIECE];
    'pieces: while bytes.len() <= MOST_BYTES {
        // The loop's condition keeps the subtraction from going below 0.
        let room = (MOST_BYTES + 1 - bytes.len()).min(PIECE);
        let count = source.read(&mut piece[..room])?;
        // `room` is at least 1, so a read of nothing is the end of the input.
        if count == 0 {
            return Ok(bytes);
        }
        bytes.extend_from_slice(&piece[..count])?;
    }
    // One byte past the limit was read, whatever follows it.
    Err(Stopped::TooLong)
}

/// Writes all of the text, in as many pieces as the sink needs.
///
/// # Errors
///
/// `Failed` where a write failed, and then a front part of the text is written.
pub fn write_all<K: Sink>(sink: &mut K, text: &[u8]) -> Result<(), Failed>
    ensures written { OnOk result (Appends (K.written sink.old) (K.written sink.new) text.now) }
    ensures front { OnErr result (AppendsFront (K.written sink.old) (K.written sink.new) text.now) }
    ensures cause { HasCause (K.faults sink.old) (K.faults sink.new) result }
{
    let mut at = 0;
    'pieces: while at < text.len() {
        // Each piece begins where the one before it ended, and has at least one byte.
        at += sink.write(&text[at..])?;
    }
    Ok(())
}
