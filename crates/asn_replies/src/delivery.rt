//! Writes what a command comes to.
ghost use Rattle.asn_replies.specs.Delivered.{Delivered, Outcome};
ghost use Rattle.asn_streams.specs.Transfer.{transfer_of};

use crate::reply::Reply;
use crate::status::Status;
use asn_core::OutOfMemory;
use asn_streams::{Sink, write_all};

/// Writes the reply whole: an answer to the output, and the lines of a refusal to the errors.
/// Returns `Done` or the status of the refusal, `WriteFault` where a write failed, and
/// `WantOfMemory` where there is no reply; then nothing is written.
pub fn deliver<K: Sink, E: Sink>(
    reply: Result<Reply, OutOfMemory>,
    output: &mut K,
    errors: &mut E,
) -> Status
    ensures { Delivered reply (transfer_of K.written K.faults output.old output.new)
        (transfer_of E.written E.faults errors.old errors.new) result }
{
    match reply {
        Ok(Reply::Answer(text)) => write(output, text.as_bytes(), Status::Done),
        Ok(Reply::Refusal { status, line }) => write(errors, line.as_bytes(), status),
        Err(OutOfMemory) => Status::WantOfMemory,
    }
}

/// Writes the bytes, and returns the status where all of them are written, else `WriteFault`.
fn write<K: Sink>(sink: &mut K, bytes: &[u8], status: Status) -> Status
    ensures { Outcome bytes.now status (transfer_of K.written K.faults sink.old sink.new) result }
{
    match write_all(sink, bytes) {
        Ok(()) => status,
        Err(_) => Status::WriteFault,
    }
}
