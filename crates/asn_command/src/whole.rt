//! Converts the text of a whole file.
ghost use Rattle.asn_codec.specs.Conversion.{IsConvertible};
ghost use Rattle.asn_command.specs.Conversions.{IsAnswer, IsRefusal, file_origin};
ghost use Rattle.asn_command.specs.Whole.{IsKnown, IsTold, IsWholeReply, Wrote, WroteFront};
ghost use Rattle.asn_model.specs.Readable.{is_readable};
ghost use Rattle.asn_replies.specs.Delivered.{IsSilent};
ghost use Rattle.asn_replies.specs.declared.status.Status.TheVariants as status;
ghost use Rattle.asn_streams.specs.Faults.{Increased};
ghost use Rattle.asn_streams.specs.Input.{ReadPastLimit, ReadWhole};
ghost use Rattle.asn_streams.specs.Transfer.{transfer_of};
ghost use Rattle.avn_grammar.specs.declared.limits.TheConstants.{LEVEL_LIMIT};
ghost use Rattle.std.specs.Prelude.{◌≡◌, ◌≢◌, ◌⊎◌, [], ℕ, IfOk, IsUtf8, List, true};

use crate::conversion::{Conversion, conversion_reply};
use asn_core::OutOfMemory;
use asn_dynamic::Part;
use asn_replies::{Reply, Status, deliver, read_text, unread_reply};
use asn_streams::{Sink, Source};
use asn_value_refusals::Origin;
use std::alloc::Global;

/// Reads the file to its end, and returns the canonical text of the value that its text stands for,
/// with a line feed after it, or why there is none.
///
/// # Errors
///
/// `OutOfMemory` alone.
fn whole_reply<P: Part, S: Source>(
    alloc: Global,
    conversion: Conversion<P>,
    file: &str,
    source: &mut S,
) -> Result<Reply, OutOfMemory>
    requires { is_readable (P.shape [] conversion.part) ≡ true }
    ensures { IfOk result (IsWholeReply
        (IsAnswer conversion.from conversion.to (P.shape [] conversion.part))
        (IsRefusal conversion.from conversion.to (P.shape [] conversion.part)
        (file_origin file.entry) conversion.explain) file.now
        (transfer_of S.left S.faults source.old source.new)) }
{
    match read_text(alloc, source) {
        Ok(text) => conversion_reply(alloc, conversion, Origin { file, line: None }, &text),
        Err(why) => unread_reply(alloc, file, why),
    }
}

/// Reads the file to its end, and writes the canonical text of the value that its text stands for,
/// with a line feed after it, to the output, or to the errors the lines that say why there is
/// none.
pub fn convert_whole<P: Part, S: Source, K: Sink, E: Sink>(
    alloc: Global,
    conversion: Conversion<P>,
    file: &str,
    source: &mut S,
    output: &mut K,
    errors: &mut E,
) -> Status
    requires { is_readable (P.shape [] conversion.part) ≡ true }
    // Each status comes only under its cause.
    ensures done { result ≡ status.Done
        → ReadWhole (transfer_of S.left S.faults source.old source.new)
        (λ input. Wrote (transfer_of K.written K.faults output.old output.new)
        (IsAnswer conversion.from conversion.to (P.shape [] conversion.part) input)) }
    ensures refused { result ≡ status.Refused
        → ReadWhole (transfer_of S.left S.faults source.old source.new)
        (λ input. Wrote (transfer_of E.written E.faults errors.old errors.new)
        (IsRefusal conversion.from conversion.to (P.shape [] conversion.part)
        (file_origin file.entry) conversion.explain input)) }
    ensures read_fault { result ≡ status.ReadFault
        → Increased (S.faults source.old) (S.faults source.new) }
    ensures write_fault { result ≡ status.WriteFault
        → Increased (K.faults output.old) (K.faults output.new)
        ⊎ Increased (E.faults errors.old) (E.faults errors.new) }
    ensures too_long { result ≡ status.TooLong
        → ReadPastLimit (transfer_of S.left S.faults source.old source.new) }
    ensures not_text { result ≡ status.NotText
        → ReadWhole (transfer_of S.left S.faults source.old source.new) (λ input. ¬ IsUtf8 input) }
    ensures no_other { result ≢ status.BadCommand }
    // Where the file isn't read, a line says why.
    ensures told { IsTold file.now (transfer_of E.written E.faults errors.old errors.new) result }
    // Nothing is written to the errors where it is done, and nothing to the output unless it is. Of
    // a write that fails a front part of the answer may be there.
    ensures quiet { result ≡ status.Done
        → IsSilent (transfer_of E.written E.faults errors.old errors.new) }
    ensures silent { (result ≡ status.Refused) ⊎ (result ≡ status.ReadFault)
        ⊎ (result ≡ status.WantOfMemory) ⊎ (result ≡ status.TooLong) ⊎ (result ≡ status.NotText)
        → IsSilent (transfer_of K.written K.faults output.old output.new) }
    ensures cut { result ≡ status.WriteFault
        → IsSilent (transfer_of K.written K.faults output.old output.new)
        ⊎ ReadWhole (transfer_of S.left S.faults source.old source.new)
        (λ input. WroteFront (transfer_of K.written K.faults output.old output.new)
        (IsAnswer conversion.from conversion.to (P.shape [] conversion.part) input)) }
    // A text that stands for a value which can be written is answered.
    ensures complete { (input : List ℕ)
        → IsKnown (transfer_of S.left S.faults source.old source.new) input
        → IsConvertible LEVEL_LIMIT conversion.from conversion.to
        (P.shape [] conversion.part) input → result ≢ status.Refused }
{
    let reply = whole_reply(alloc, conversion, file, source);
    deliver(reply, output, errors)
}
