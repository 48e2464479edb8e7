//! Makes the errors of the calls that a codec refuses whatever the value or the text is, each with
//! its message and the codec.
ghost use Rattle.asn_codec.specs.Refused.{IsCustomEncodeError, IsCustomDecodeError};
ghost use Rattle.asn_codec.specs.Refused.{message_of, no_text};
ghost use Rattle.std.specs.Prelude.{◌≡◌, IfOk, codes, string_bytes};

use asn_core::Codec;
use asn_fault::{DecodeError, EncodeError};
use std::alloc::{AllocError, Global};

/// The refusal of every call of XER.
const NO_XER: &str = "XER is not supported.";

/// Names why a codec refuses a call.
#[derive(Clone, Copy)]
pub(crate) enum CodecRefusal {
    /// It encodes no text.
    NoTextEncoded,
    /// It decodes no text.
    NoTextDecoded,
    /// The bytes are no text in UTF-8.
    NoUtf8,
    /// It decodes whole inputs alone.
    NoRemainder,
    /// It is XER, of which nothing is built.
    NoXer,
    /// The rules that were handed in are `NoRules`.
    NoRules,
}

/// Returns the error that states the refusal, or that there was no memory to state it.
pub(crate) fn encode_refusal(alloc: Global, codec: Codec, refusal: CodecRefusal) -> EncodeError
    ensures { IsCustomEncodeError (message_of codec refusal) codec result }
{
    match message(alloc, codec, refusal) {
        Ok(msg) => EncodeError::custom(msg, codec),
        Err(_) => EncodeError::out_of_memory(codec),
    }
}

/// Returns the error that states the refusal, or that there was no memory to state it.
pub(crate) fn decode_refusal(alloc: Global, codec: Codec, refusal: CodecRefusal) -> DecodeError
    ensures { IsCustomDecodeError (message_of codec refusal) codec result }
{
    match message(alloc, codec, refusal) {
        Ok(msg) => DecodeError::custom(msg, codec),
        Err(_) => DecodeError::out_of_memory(codec),
    }
}

/// Returns the error by which a codec that is no text notation refuses to decode a text.
pub fn no_text_decoded(alloc: Global, codec: Codec) -> DecodeError
    ensures { IsCustomDecodeError (no_text codec (codes "decode_from_binary")) codec result }
{
    decode_refusal(alloc, codec, CodecRefusal::NoTextDecoded)
}

/// Returns the error by which a codec that is no text notation refuses to encode a text.
pub fn no_text_encoded(alloc: Global, codec: Codec) -> EncodeError
    ensures { IsCustomEncodeError (no_text codec (codes "encode_to_binary")) codec result }
{
    encode_refusal(alloc, codec, CodecRefusal::NoTextEncoded)
}

/// Returns the words of a refusal. Those of the crate `rasn` for a remainder end with a blank.
///
/// # Errors
///
/// `AllocError` alone.
fn message(alloc: Global, codec: Codec, refusal: CodecRefusal) -> Result<String, AllocError>
    ensures { IfOk result (λ s. string_bytes s ≡ message_of codec refusal) }
{
    match refusal {
        CodecRefusal::NoTextEncoded => other_call(alloc, codec, "encode_to_binary"),
        CodecRefusal::NoTextDecoded => other_call(alloc, codec, "decode_from_binary"),
        CodecRefusal::NoUtf8 => format!(in alloc; "Failed to decode {codec} from UTF8 bytes"),
        CodecRefusal::NoRemainder => {
            format!(in alloc; "{codec} does not support decoding with remainder. ")
        }
        CodecRefusal::NoXer => String::from_str(alloc, NO_XER),
        CodecRefusal::NoRules => String::from_str(alloc, "no binary rules"),
    }
}

/// Returns the words that name the binary call to make in place of a text call. XER has text, but
/// is not built, so its words name none.
///
/// # Errors
///
/// `AllocError` alone.
fn other_call(alloc: Global, codec: Codec, call: &str) -> Result<String, AllocError>
    ensures { IfOk result (λ s. string_bytes s ≡ no_text codec call.now) }
{
    match codec {
        Codec::Xer => String::from_str(alloc, NO_XER),
        _ => format!(in alloc; "{codec} is a binary-based encoding. Call `Codec::{call}` instead."),
    }
}
