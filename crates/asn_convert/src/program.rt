//! Runs the program: reads an input, decides what it asks for, does it, and writes the result. A
//! text is converted at the Rust type of the sample that the request names. Each step below `run`
//! is one function, and returns a `Status`.
ghost use Rattle.std.specs.Prelude.{◌≡◌, ◌≢◌, ◌≤◌, ◌<◌, ◌⊎◌, ◌++◌, ◌∷◌, [], ℕ, List, length, IsUtf8};
ghost use Rattle.std.specs.Prelude.{Some, None, true, string_bytes, IfOk};
ghost use Rattle.std.specs.Io.KnownBytes.{Keeps};
ghost use Rattle.asn_streams.specs.Faults.{Increased};
ghost use Rattle.asn_convert.specs.Made.{report};
ghost use Rattle.asn_convert.specs.RequestView.{request_view};
ghost use Rattle.asn_convert.specs.Requests.{KeepsLimits, request_of};
ghost use Rattle.asn_samples.specs.Samples.{sample_shape};
ghost use Rattle.asn_convert.specs.ExpectedOutput.{Answers, AnswersTo, IsAnswerTo, IsRefusalTo};
ghost use Rattle.asn_convert.specs.ExpectedOutput.{Outcome, RepliesTo, refusal_line};
ghost use Rattle.asn_streams.specs.Input.{ReadPastLimit, ReadWhole, input_limit};
ghost use Rattle.asn_streams.specs.Transfer.{transfer_of};
ghost use Rattle.asn_module_reports.specs.Replies.{IsAnswered};
ghost use Rattle.asn_codec.specs.Conversion.{IsConvertible, refusal_of, is_refusal_out_of_memory};
ghost use Rattle.asn_convert.specs.Run.{Answered, CutShort, IsAnswerable, IsRead, RequestsValue};
ghost use Rattle.avn_grammar.specs.declared.limits.TheConstants.{GREATEST_LEVEL_LIMIT};
ghost use Rattle.asn_convert.specs.declared.limits.TheConstants.{MOST_ENTRIES};
ghost use Rattle.asn_convert.specs.declared.status.Status.TheVariants.{Done, Refused, BadRequest};
ghost use Rattle.asn_convert.specs.declared.status.Status.TheVariants.{ReadFault, WriteFault};
ghost use Rattle.asn_convert.specs.declared.status.Status.TheVariants.{WantOfMemory, TooLong};
ghost use Rattle.asn_convert.specs.declared.status.Status.TheVariants.{NotText};

use crate::kept::keeping_reply;
use crate::lines::split_request;
use crate::made::report_on;
use crate::request::{Request, requested};
use crate::status::Status;
use asn_codec::{TranscodeError, transcode_within};
use asn_core::{Codec, OutOfMemory};
use asn_module_reports::{Reply, growth_reply, printing_reply};
use asn_samples::{Sample, SampleVisitor};
use asn_streams::{Sink, Source, Stopped, read_to_end, write_all};
use asn_traits::{Decode, Encode};
use avn_grammar::limits::LEVEL_LIMIT;
use simdutf8::basic::from_utf8;
use std::alloc::Global;

/// Reads the whole input, and writes the canonical text of the value that its text decodes to; or
/// makes a document, and writes the report on its texts; or prints the module that its text stands
/// for, or says whether one type of that module is a later version of another; or cuts a stream of
/// values to what an older type knows; or writes the line of an error. It looks for a request only
/// in an input that was read to its end.
///
/// Statuses are decided in the order `ReadFault`, `TooLong`, `NotText`, `BadRequest`, `Refused`,
/// `WriteFault`; `WantOfMemory` may come anywhere, and then nothing was written.
pub fn run<S: Source, K: Sink>(alloc: Global, source: &mut S, sink: &mut K) -> Status
    // Each status comes only under its cause. `Done` means that the input is a request, and that
    // what it asks for was written: the canonical text and a line feed, the report on the document,
    // the printed module, the line on two types of it, or the lines of the stream.
    ensures done { result ≡ Done
        → ReadWhole (transfer_of S.left S.faults source.old source.new)
        (Answered (transfer_of K.written K.faults sink.old sink.new) IsAnswerTo) }
    // The input is a request, and the line of an error by which its text is refused was written, or
    // the lines of a stream that are kept and why the others are not.
    ensures refused { result ≡ Refused
        → ReadWhole (transfer_of S.left S.faults source.old source.new)
        (Answered (transfer_of K.written K.faults sink.old sink.new) IsRefusalTo) }
    // The input is text and no request.
    ensures bad_request { result ≡ BadRequest
        → ReadWhole (transfer_of S.left S.faults source.old source.new)
        (λ input. IsUtf8 input × (request_of input ≡ None)) }
    // A read failed.
    ensures read_fault { result ≡ ReadFault
        → Increased (S.faults source.old) (S.faults source.new) }
    // A write failed, and what was written is a front part of what was due.
    ensures write_fault { result ≡ WriteFault → Increased (K.faults sink.old) (K.faults sink.new) }
    ensures cut { result ≡ WriteFault
        → ReadWhole (transfer_of S.left S.faults source.old source.new)
        (CutShort (transfer_of K.written K.faults sink.old sink.new)) }
    // One byte more than the limit was read, and none after it.
    ensures too_long { result ≡ TooLong
        → ReadPastLimit (transfer_of S.left S.faults source.old source.new) }
    // The input was read to its end, and is not UTF-8.
    ensures not_text { result ≡ NotText
        → ReadWhole (transfer_of S.left S.faults source.old source.new) (λ input. ¬ IsUtf8 input) }
    // Under these statuses nothing was written.
    ensures silent { (result ≡ BadRequest) ⊎ (result ≡ ReadFault) ⊎ (result ≡ WantOfMemory)
        ⊎ (result ≡ TooLong) ⊎ (result ≡ NotText)
        → Keeps (K.written sink.old) (K.written sink.new) }

    // Where contracts see the source's bytes and neither count of faults rises, each input has its
    // status, or memory runs out: a request is done or refused.
    ensures answers { (input : List ℕ)
        → IsRead (transfer_of S.left S.faults source.old source.new) input
        → IsUtf8 input → request_of input ≢ None → ¬ Increased (K.faults sink.old) (K.faults
        sink.new)
        → (result ≡ Done) ⊎ (result ≡ Refused) ⊎ (result ≡ WantOfMemory) }
    // A request whose text decodes to a value that can be encoded is done, and so is one to make a
    // document, one whose text stands for a module that has the types to compare, and one whose
    // stream can be kept whole.
    ensures answers_values { (input : List ℕ)
        → IsRead (transfer_of S.left S.faults source.old source.new) input
        → IsUtf8 input → RequestsValue input → ¬ Increased (K.faults sink.old) (K.faults sink.new)
        → (result ≡ Done) ⊎ (result ≡ WantOfMemory) }
    // Text that is no request is a bad one, and an input that isn't UTF-8 is no text.
    ensures rejects { (input : List ℕ)
        → IsRead (transfer_of S.left S.faults source.old source.new) input
        → IsUtf8 input → request_of input ≡ None → (result ≡ BadRequest) ⊎ (result ≡ WantOfMemory) }
    ensures rejects_bytes { (input : List ℕ)
        → IsRead (transfer_of S.left S.faults source.old source.new) input
        → ¬ IsUtf8 input → (result ≡ NotText) ⊎ (result ≡ WantOfMemory) }
    // An input that has more bytes than the limit is too long, whatever it holds.
    ensures stops { (input : List ℕ) → S.left source.old ≡ Some input → input_limit < length input
        → ¬ Increased (S.faults source.old) (S.faults source.new)
        → (result ≡ TooLong) ⊎ (result ≡ WantOfMemory) }
{
    // The first three statuses are those of reading.
    let input = match read_to_end(alloc, source) {
        Ok(bytes) => bytes,
        Err(Stopped::Fault) => return Status::ReadFault,
        Err(Stopped::TooLong) => return Status::TooLong,
        Err(Stopped::OutOfMemory) => return Status::WantOfMemory,
    };
    // The text borrows from the input, and so do the line and the text after it.
    let Ok(text) = from_utf8(&input) else {
        return Status::NotText;
    };
    let (line, text) = split_request(text);
    match requested(line, text) {
        Some(request) => respond(alloc, request, text, sink),
        None => Status::BadRequest,
    }
}

/// Does what a request asks for, with the text after it.
#[tactic(auto, using(crate::proofs::Answering::report_answers))]
fn respond<K: Sink>(alloc: Global, request: Request<'_>, text: &str, sink: &mut K) -> Status
    requires { KeepsLimits (request_view request) }
    ensures answer { AnswersTo (request_view request.entry) text.now
        (transfer_of K.written K.faults sink.old sink.new) result }
    ensures complete { IsAnswerable (request_view request.entry) text.now → result ≢ Refused }
{
    match request {
        Request::Convert {
            from,
            to,
            sample,
            limit,
        } => convert(alloc, from, to, sample, limit, text, sink),
        Request::Make { entries } => make(alloc, entries, sink),
        Request::Module => pass_on(printing_reply(alloc, text), sink),
        Request::Grows { old, new } => pass_on(growth_reply(alloc, old, new, text), sink),
        Request::Keep { from, old, new } => {
            pass_on(keeping_reply(alloc, from, old, new, text), sink)
        }
    }
}

/// Writes a reply. The status is `Done` where all of an answer is written, and `Refused` where all
/// of a refusal is.
fn pass_on<K: Sink>(reply: Result<Reply, OutOfMemory>, sink: &mut K) -> Status
    ensures answer { RepliesTo reply (transfer_of K.written K.faults sink.old sink.new) result }
    ensures complete { IfOk reply IsAnswered → result ≢ Refused }
{
    match reply {
        Ok(Reply::Answer(text)) => written(sink, text.as_bytes(), Status::Done),
        Ok(Reply::Refusal(line)) => written(sink, line.as_bytes(), Status::Refused),
        Err(OutOfMemory) => Status::WantOfMemory,
    }
}

/// Makes the document of so many entries, and writes the report on its texts. It is never refused.
fn make<K: Sink>(alloc: Global, entries: u32, sink: &mut K) -> Status
    requires { entries ≤ MOST_ENTRIES }
    ensures { Outcome (report entries) Done
        (transfer_of K.written K.faults sink.old sink.new) result }
{
    match report_on(alloc, entries) {
        Ok(lines) => written(sink, lines.as_bytes(), Status::Done),
        Err(OutOfMemory) => Status::WantOfMemory,
    }
}

/// Converts a text as a value of the request's sample type: runs `convert_within` at the Rust type
/// of that sample. A text that can be converted is not refused (`complete`).
fn convert<K: Sink>(
    alloc: Global,
    from: Codec,
    to: Codec,
    sample: Sample,
    limit: usize,
    text: &str,
    sink: &mut K,
) -> Status
    requires { limit ≤ GREATEST_LEVEL_LIMIT }
    ensures answer { Answers limit from to (sample_shape sample) text.now
        (transfer_of K.written K.faults sink.old sink.new) result }
    ensures complete { IsConvertible limit from to (sample_shape sample) text.now
        → result ≢ Refused }
{
    sample.accept(
        Conversion {
            alloc,
            from,
            to,
            limit,
            text,
        },
        sink,
    )
}

/// Holds a conversion as a visitor of sample types, which writes to a sink.
#[derive(Drop)]
struct Conversion<'a> {
    /// Allocates the values and texts on the way.
    alloc: Global,
    /// Names the notation of the text.
    from: Codec,
    /// Names the notation of the text that is written.
    to: Codec,
    /// Limits the levels of AVN that are read.
    limit: usize,
    /// Holds the text to convert, without the request line.
    text: &'a str,
    /// The limit is one that a request may name.
    ghost within: { limit ≤ GREATEST_LEVEL_LIMIT },
}

/// Converts the text at each sample type in the same way.
impl<K: Sink> SampleVisitor<K> for Conversion<'_> {
    type Output = Status;

    ghost visits = { λ c shape old new status.
        Answers c.limit c.from c.to shape c.text.now (transfer_of K.written K.faults old new) status
        × (IsConvertible c.limit c.from c.to shape c.text.now → status ≢ Refused) };

    fn visit<T: Encode + Decode>(self, sink: &mut K) -> Status {
        convert_within::<T, K>(self.alloc, self.from, self.to, self.limit, self.text, sink)
    }
}

/// Writes the canonical text under `to` of the value that a text decodes to under `from` as a T,
/// or the line of its error. The status is `Done`, `Refused`, `WriteFault` or `WantOfMemory`. It is
/// `convert_within` with the level limit `LEVEL_LIMIT`.
pub fn convert_as<T: Encode + Decode, K: Sink>(
    alloc: Global,
    from: Codec,
    to: Codec,
    input: &str,
    sink: &mut K,
) -> Status
    ensures answer { Answers LEVEL_LIMIT from to T.shape_of input.now
        (transfer_of K.written K.faults sink.old sink.new) result }
    ensures complete { IsConvertible LEVEL_LIMIT from to T.shape_of input.now
        → result ≢ Refused }
{
    convert_within::<T, K>(alloc, from, to, LEVEL_LIMIT, input, sink)
}

/// Does the same, where AVN is read with this limit on its levels.
pub fn convert_within<T: Encode + Decode, K: Sink>(
    alloc: Global,
    from: Codec,
    to: Codec,
    limit: usize,
    input: &str,
    sink: &mut K,
) -> Status
    requires { limit ≤ GREATEST_LEVEL_LIMIT }
    ensures answer { Answers limit from to T.shape_of input.now
        (transfer_of K.written K.faults sink.old sink.new) result }
    ensures complete { IsConvertible limit from to T.shape_of input.now → result ≢ Refused }
{
    match transcode_within::<T>(alloc, from, to, limit, input) {
        Ok(output) => answer(output, sink),
        Err(fault) => refuse(alloc, &fault, sink),
    }
}

/// Writes the text and a line feed after it, and returns `Done` where all of it is written.
fn answer<K: Sink>(mut text: String, sink: &mut K) -> Status
    ensures { Outcome (string_bytes text ++ 10 ∷ []) Done
        (transfer_of K.written K.faults sink.old sink.new) result }
{
    // The line feed goes into the text, so that a sink sees one piece.
    match text.push('\n') {
        Ok(()) => written(sink, text.as_bytes(), Status::Done),
        Err(_) => Status::WantOfMemory,
    }
}

/// Writes the line of an error, and returns `Refused` where all of it is written. Where the error
/// is that memory ran out, it writes nothing and returns `WantOfMemory`.
fn refuse<K: Sink>(alloc: Global, fault: &TranscodeError, sink: &mut K) -> Status
    ensures line { Outcome (refusal_line fault.now) Refused
        (transfer_of K.written K.faults sink.old sink.new) result }
    ensures memory { is_refusal_out_of_memory (refusal_of fault.now) ≡ true
        → result ≡ WantOfMemory }
{
    if fault.is_out_of_memory() {
        return Status::WantOfMemory;
    }
    match format!(in alloc; "refused: {fault}\n") {
        Ok(line) => written(sink, line.as_bytes(), Status::Refused),
        Err(_) => Status::WantOfMemory,
    }
}

/// Writes the bytes, and returns `status` where all of them are written, else `WriteFault`.
fn written<K: Sink>(sink: &mut K, bytes: &[u8], status: Status) -> Status
    ensures { Outcome bytes.now status (transfer_of K.written K.faults sink.old sink.new) result }
{
    match write_all(sink, bytes) {
        Ok(()) => status,
        Err(_) => Status::WriteFault,
    }
}
