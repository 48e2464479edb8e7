//! Defines the binary encoding rules that a program hands in. The library has none of its own:
//! what a binary call of a binary codec returns is what the rules return.
ghost use Rattle.asn_core.specs.declared.codec.Codec.{Codec as CodecName};
ghost use Rattle.asn_codec.specs.Refused.{IsCustomEncodeError, IsCustomDecodeError, no_rules};
ghost use Rattle.asn_codec.specs.Binary.{map_ok};
ghost use Rattle.asn_fault.specs.declared.decode.DecodeError.{DecodeError as DecodingError};
ghost use Rattle.asn_fault.specs.declared.encode.EncodeError.{EncodeError as EncodingError};
ghost use Rattle.asn_traits.specs.Shape.{Shape};
ghost use Rattle.asn_traits.specs.Value.{Value};
ghost use Rattle.std.specs.Prelude.{ℕ, List, Result, IsErrAnd};

use crate::refusals::{CodecRefusal, decode_refusal, encode_refusal};
use asn_core::Codec;
use asn_fault::{DecodeError, EncodeError};
use asn_traits::{Decode, Encode};
use std::alloc::Global;

/// Encodes and decodes by the binary rules of a codec: BER, CER and DER (X.690), the two PER
/// (X.691), OER and COER (X.696). The calls of `CodecCalls` hand it these seven codecs alone.
///
/// What it means is a relation between the rules as they stand before a call, the codec, what is
/// handed in and what is returned. A value of a Rust type counts there as the type's shape and the
/// value that it stands for.
pub trait BinaryRules {
    // What encoding the value of the shape may return: the bytes, or an error.
    ghost encodes: { Self → CodecName → Shape → Value → Result (List ℕ) EncodingError → Type 0 };

    // What decoding the bytes by the shape may return: the value, or an error.
    ghost decodes: { Self → CodecName → Shape → List ℕ → Result Value DecodingError → Type 0 };

    // The same of the bytes' front part: the value and the bytes after it, or an error.
    ghost decodes_front: { Self → CodecName → Shape → List ℕ
        → Result (Value × List ℕ) DecodingError → Type 0 };

    /// Encodes a value by the rules of the codec, and returns its bytes.
    ///
    /// # Errors
    ///
    /// Those that the rules state.
    fn encode<T: Encode>(
        &mut self,
        alloc: Global,
        codec: Codec,
        value: &T,
    ) -> Result<Vec<u8>, EncodeError>
        ensures { encodes self.old codec T.shape_of (T.value_of value.now)
            (map_ok (λ bytes. bytes.items) result) };

    /// Decodes all the bytes by the rules of the codec, and returns the value.
    ///
    /// # Errors
    ///
    /// Those that the rules state.
    fn decode<T: Decode>(
        &mut self,
        alloc: Global,
        codec: Codec,
        input: &[u8],
    ) -> Result<T, DecodeError>
        ensures { decodes self.old codec T.shape_of input.now (map_ok T.value_of result) };

    /// Decodes a value from the front of the bytes by the rules of the codec, and returns it with
    /// the bytes after it.
    ///
    /// # Errors
    ///
    /// Those that the rules state.
    fn decode_with_remainder<'i, T: Decode>(
        &mut self,
        alloc: Global,
        codec: Codec,
        input: &'i [u8],
    ) -> Result<(T, &'i [u8]), DecodeError>
        ensures { decodes_front self.old codec T.shape_of input.now
            (map_ok (λ found. (T.value_of found.0, found.1.now)) result) };
}

/// Has no rules: it refuses every call by the codec of the call, with `Custom`, or `OutOfMemory`
/// where there is no memory for the text.
#[derive(Clone, Copy, Debug, PartialEq, Eq, Drop)]
pub struct NoRules;

/// Refuses every call.
impl BinaryRules for NoRules {
    ghost encodes = { λ rules codec shape value answer.
        IsErrAnd answer (IsCustomEncodeError no_rules codec) };

    ghost decodes = { λ rules codec shape input answer.
        IsErrAnd answer (IsCustomDecodeError no_rules codec) };

    ghost decodes_front = { λ rules codec shape input answer.
        IsErrAnd answer (IsCustomDecodeError no_rules codec) };

    fn encode<T: Encode>(
        &mut self,
        alloc: Global,
        codec: Codec,
        value: &T,
    ) -> Result<Vec<u8>, EncodeError> {
        Err(encode_refusal(alloc, codec, CodecRefusal::NoRules))
    }

    fn decode<T: Decode>(
        &mut self,
        alloc: Global,
        codec: Codec,
        input: &[u8],
    ) -> Result<T, DecodeError> {
        Err(decode_refusal(alloc, codec, CodecRefusal::NoRules))
    }

    fn decode_with_remainder<'i, T: Decode>(
        &mut self,
        alloc: Global,
        codec: Codec,
        input: &'i [u8],
    ) -> Result<(T, &'i [u8]), DecodeError> {
        Err(decode_refusal(alloc, codec, CodecRefusal::NoRules))
    }
}
