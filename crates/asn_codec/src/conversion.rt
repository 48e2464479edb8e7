//! Converts a text from one notation to another by way of a value of a Rust type. This is the
//! call that the library is for, and its contract joins those of all crates below.
ghost use Rattle.asn_codec.specs.Conversion.{Converts, IsConvertible, IsMemoryRefusal, Refuses};
ghost use Rattle.asn_codec.specs.Conversion.{is_refusal_out_of_memory, error_text, refusal_of};
ghost use Rattle.asn_codec.specs.Texts.{TextDecodesTo, DecodesOnlyTo, IsShallow, IsUnencodable};
ghost use Rattle.asn_core.specs.declared.codec.Codec.{Codec as CodecName};
ghost use Rattle.asn_core.specs.declared.codec.Codec.TheVariants.{Avn};
ghost use Rattle.asn_fault.specs.EncodeCause.{EncodeCause};
ghost use Rattle.asn_traits.specs.Canonical.{avn_tree, canonical_text};
ghost use Rattle.asn_traits.specs.Notation.{IsText, Notation, notation_of};
ghost use Rattle.asn_traits.specs.Shape.{Shape};
ghost use Rattle.asn_traits.specs.Value.{Value, Fits};
ghost use Rattle.asn_traits.specs.Writable.{Writable};
ghost use Rattle.avn_grammar.specs.Depth.{ExceedsDepth, deepest};
ghost use Rattle.std.specs.Str.{chars};
ghost use Rattle.std.specs.Prelude.{◌≡◌, ◌⊎◌, ◌↔◌, ◌≤◌, ◌<◌, ℕ, List, true, Some};
ghost use Rattle.std.specs.Prelude.{IfOk, IfErr, IsUtf8, string_bytes};

use crate::CodecCalls;
use crate::calls::decode_within;
use asn_core::Codec;
use asn_fault::{DecodeError, EncodeError};
use asn_traits::{Decode, Encode};
use avn_grammar::limits::{GREATEST_LEVEL_LIMIT, LEVEL_LIMIT};
use std::alloc::Global;
use std::error::Error;
use std::fmt;

/// States why a text is not converted: it was not decoded, or its value was not encoded.
#[derive(Debug, Drop)]
pub enum TranscodeError {
    /// The text was not decoded under the codec that it is in.
    Decode(DecodeError),
    /// The text was decoded, and its value is not encoded under the other codec.
    Encode(EncodeError),
}

/// Finds out what an error is of, whichever step it comes from.
impl TranscodeError {
    /// Returns whether memory ran out.
    pub fn is_out_of_memory(&self) -> bool
        ensures { result ≡ is_refusal_out_of_memory (refusal_of self.now) }
    {
        match self {
            TranscodeError::Decode(error) => error.is_out_of_memory(),
            TranscodeError::Encode(error) => error.is_out_of_memory(),
        }
    }
}

/// Prints the text of the inner error.
impl fmt::Display for TranscodeError {
    ghost output = { λ e. Some (error_text e) };

    fn fmt<W: fmt::Write>(&self, f: &mut fmt::Formatter<W>) -> fmt::Result {
        match self {
            TranscodeError::Decode(error) => error.fmt(f),
            TranscodeError::Encode(error) => error.fmt(f),
        }
    }
}

/// Has no source: its text is that of the inner error.
impl Error for TranscodeError {}

/// Returns the canonical text under `to` of the value that a text decodes to under `from` as a T.
/// The two codecs may be the same: then it makes the text canonical. It is `transcode_within` with
/// the level limit `LEVEL_LIMIT`.
///
/// # Errors
///
/// `Decode` with why the text is not decoded, `Encode` with why its value is not encoded. Either
/// may hold `OutOfMemory`.
pub fn transcode<T: Encode + Decode>(
    alloc: Global,
    from: Codec,
    to: Codec,
    input: &str,
) -> Result<String, TranscodeError>
    // Each clause is that of `transcode_within` with this limit.
    ensures converted { IfOk result
        (λ s. Converts LEVEL_LIMIT from to T.shape_of input.now (string_bytes s)) }
    ensures read_again { IfOk result (λ s. (v : Value)
        → TextDecodesTo LEVEL_LIMIT (notation_of from) T.shape_of input.now v
        → IsShallow LEVEL_LIMIT (notation_of from) (notation_of to) v
        → DecodesOnlyTo LEVEL_LIMIT (notation_of to) T.shape_of (string_bytes s) v) }
    ensures too_deep { IfOk result (λ s. (v : Value)
        → TextDecodesTo LEVEL_LIMIT (notation_of from) T.shape_of input.now v
        → to ≡ Avn → LEVEL_LIMIT < deepest 0 (avn_tree v)
        → ExceedsDepth LEVEL_LIMIT 0 (chars (string_bytes s))) }
    ensures equal { IfOk result (λ s. (v w : Value)
        → TextDecodesTo LEVEL_LIMIT (notation_of from) T.shape_of input.now v
        → Fits T.shape_of w → Writable (notation_of to) w
        → (canonical_text (notation_of to) w ≡ string_bytes s) ↔ (w ≡ v)) }
    ensures refused { IfErr result (λ e. IsMemoryRefusal from to (refusal_of e)
        ⊎ Refuses LEVEL_LIMIT from to T.shape_of input.now (refusal_of e)) }
    ensures complete { IsConvertible LEVEL_LIMIT from to T.shape_of input.now
        → IfErr result (λ e. is_refusal_out_of_memory (refusal_of e) ≡ true) }
{
    transcode_within::<T>(alloc, from, to, LEVEL_LIMIT, input)
}

/// Returns the canonical text under `to` of the value that a text decodes to under `from` as a T,
/// where AVN is read with this limit on its levels. From JER the limit changes nothing.
///
/// # Errors
///
/// Those of `transcode`.
pub fn transcode_within<T: Encode + Decode>(
    alloc: Global,
    from: Codec,
    to: Codec,
    limit: usize,
    input: &str,
) -> Result<String, TranscodeError>
    requires { limit ≤ GREATEST_LEVEL_LIMIT }
    // The result is the canonical text of the value that the input decodes to.
    ensures converted { IfOk result
        (λ s. Converts limit from to T.shape_of input.now (string_bytes s)) }
    // Read again with this limit, the result decodes to that value and no other, unless it nests
    // deeper than texts are read. In AVN it is refused for depth exactly there (`too_deep`), and
    // what was read from JSON is never too deep in JSON.
    ensures read_again { IfOk result (λ s. (v : Value)
        → TextDecodesTo limit (notation_of from) T.shape_of input.now v
        → IsShallow limit (notation_of from) (notation_of to) v
        → DecodesOnlyTo limit (notation_of to) T.shape_of (string_bytes s) v) }
    ensures too_deep { IfOk result (λ s. (v : Value)
        → TextDecodesTo limit (notation_of from) T.shape_of input.now v
        → to ≡ Avn → limit < deepest 0 (avn_tree v)
        → ExceedsDepth limit 0 (chars (string_bytes s))) }
    // Of the values that can be encoded under `to`, the result is the canonical text of that value
    // alone.
    ensures equal { IfOk result (λ s. (v w : Value)
        → TextDecodesTo limit (notation_of from) T.shape_of input.now v
        → Fits T.shape_of w → Writable (notation_of to) w
        → (canonical_text (notation_of to) w ≡ string_bytes s) ↔ (w ≡ v)) }
    // Each error is one that the definition of refusing gives for this input, or says that memory
    // ran out, under the codec of the step.
    ensures refused { IfErr result (λ e. IsMemoryRefusal from to (refusal_of e)
        ⊎ Refuses limit from to T.shape_of input.now (refusal_of e)) }
    // An input that decodes to a value which can be encoded gives a result, unless memory runs out.
    ensures complete { IsConvertible limit from to T.shape_of input.now
        → IfErr result (λ e. is_refusal_out_of_memory (refusal_of e) ≡ true) }
{
    // No tree of the input is left when the value is encoded: the decoder is let go before.
    match decode_within::<T>(alloc, from, limit, input) {
        Ok(value) => match to.encode_to_string(alloc, &value) {
            Ok(text) => Ok(text),
            Err(error) => Err(TranscodeError::Encode(error)),
        },
        Err(error) => Err(TranscodeError::Decode(error)),
    }
}

/// Both notations can write each value that a text in JER decodes to. So of such a text no refusal
/// of writing comes, lack of memory aside.
pub fn values_of_json_can_be_written()
    ensures written { (limit : ℕ) (n : Notation) (s : Shape) (text : List ℕ) (v : Value) → IsText n
        → IsUtf8 text → TextDecodesTo limit Notation.jer s text v → Writable n v }
    ensures refused { (limit : ℕ) (to : CodecName) (s : Shape) (text : List ℕ) (v : Value)
        (cause : EncodeCause) → IsText (notation_of to) → IsUtf8 text
        → TextDecodesTo limit Notation.jer s text v → ¬ IsUnencodable to v cause }
{}
