//! Encodes and decodes texts and bytes by the name of a codec.
ghost use Rattle.asn_core.specs.declared.codec.Codec.{Codec as CodecName};
ghost use Rattle.asn_core.specs.declared.codec.Codec.TheVariants.{Xer};
ghost use Rattle.asn_fault.specs.Failure.{Cause, at_root, failure_of};
ghost use Rattle.asn_fault.specs.EncodeCause.{encode_cause, is_encode_out_of_memory};
ghost use Rattle.asn_traits.specs.Canonical.{canonical_text};
ghost use Rattle.asn_traits.specs.Notation.{IsText, notation_of};
ghost use Rattle.asn_coding.specs.Root.{Reads};
ghost use Rattle.asn_traits.specs.Value.{Value, Fits};
ghost use Rattle.asn_traits.specs.Writable.{Writable};
ghost use Rattle.asn_codec.specs.Binary.{IsBinary, IsBytesFailure, map_ok};
ghost use Rattle.asn_codec.specs.Refused.{IsCustomEncodeError, IsCustomDecodeError, no_xer};
ghost use Rattle.asn_codec.specs.Refused.{no_remainder};
ghost use Rattle.asn_codec.specs.Texts.{ReadsBack, TextDecodesTo, IsDecodeFailure, IsUnencodable};
ghost use Rattle.std.specs.Prelude.{◌≡◌, ◌≤◌, ◌⊎◌, ℕ, true, IfOk, IfErr, IsErrAnd, OnOk, string_bytes};
ghost use Rattle.std.specs.Prelude.{IsUtf8};

use crate::BinaryRules;
use crate::refusals::{CodecRefusal, decode_refusal, encode_refusal};
use asn_core::Codec;
use asn_fault::{DecodeError, EncodeError};
use asn_traits::{Decode, Encode};
use avn_grammar::limits::{GREATEST_LEVEL_LIMIT, LEVEL_LIMIT};
use avn_rules::avn;
use jer_rules::jer;
use simdutf8::basic::from_utf8;
use std::alloc::Global;

/// Provides the calls of a codec.
///
/// Of the text calls, those of JER and AVN encode and decode; XER is refused, and any other codec
/// returns an error that names the call to make in its place. Of the binary calls, those of JER and
/// AVN encode and decode the bytes of their texts, XER is refused, and each of the other seven
/// codecs returns what the rules return that are handed in, unchanged.
pub trait CodecCalls: Copy {
    // The codec's name, by which the clauses choose the notation.
    ghost codec_of: { Self → CodecName };

    /// Encodes a value, and returns its canonical text.
    ///
    /// # Errors
    ///
    /// `OutOfMemory`; `Custom` where the codec is no text notation; else the kind of the first part
    /// of the value that the notation cannot encode.
    fn encode_to_string<T: Encode>(self, alloc: Global, value: &T) -> Result<String, EncodeError>
        // The text is the canonical one, of the value that `value` stands for.
        ensures text { IfOk result (λ s. string_bytes s
            ≡ canonical_text (notation_of (codec_of self)) (T.value_of value.now)) }
        // The text is read as the tree that is written for the value, in AVN in normal form and
        // with every limit on its levels, unless it nests deeper than texts are read.
        ensures reads_back { IfOk result (λ s. (limit : ℕ) → ReadsBack limit
            (notation_of (codec_of self)) (T.value_of value.now) (string_bytes s)) }
        // A text comes from a text notation alone, of a value of the shape that it can encode.
        ensures notation { OnOk result (IsText (notation_of (codec_of self))) }
        ensures fits { OnOk result (Fits T.shape_of (T.value_of value.now)) }
        ensures writable { OnOk result
            (Writable (notation_of (codec_of self)) (T.value_of value.now)) }
        // An error states the first part that cannot be encoded, or that memory ran out; either
        // way it names this codec.
        ensures refused { IfErr result (λ e. ((is_encode_out_of_memory (encode_cause e.kind) ≡ true)
            ⊎ IsUnencodable (codec_of self) (T.value_of value.now) (encode_cause e.kind))
            × (e.codec ≡ codec_of self)) }
        // What can be encoded is encoded, unless memory runs out.
        ensures complete { IsText (notation_of (codec_of self))
            → Writable (notation_of (codec_of self)) (T.value_of value.now)
            → IfErr result (λ e. is_encode_out_of_memory (encode_cause e.kind) ≡ true) };

    /// Returns the value that a text decodes to as a T. AVN is read with the level limit
    /// `LEVEL_LIMIT`.
    ///
    /// # Errors
    ///
    /// `OutOfMemory`; `Custom` where the codec is no text notation; else why the text has no tree
    /// in the notation, or why its tree decodes to no value.
    fn decode_from_str<T: Decode>(&self, alloc: Global, input: &str) -> Result<T, DecodeError>
        // The text decodes to the value that the result stands for.
        ensures value { IfOk result (λ x. TextDecodesTo LEVEL_LIMIT
            (notation_of (codec_of self.now)) T.shape_of input.now (T.value_of x)) }
        // An error states where and why decoding stops, by the definition of the notation, or that
        // memory ran out under this codec.
        ensures refused { IfErr result (λ e.
            (failure_of e ≡ at_root Cause.out_of_memory (codec_of self.now))
            ⊎ IsDecodeFailure LEVEL_LIMIT (codec_of self.now) T.shape_of input.now
            (failure_of e)) }
        // A text that decodes to a value is read as that value, unless memory runs out.
        ensures complete { (v : Value)
            → TextDecodesTo LEVEL_LIMIT (notation_of (codec_of self.now)) T.shape_of input.now v
            → Reads T.value_of v result };

    /// Encodes a value, and returns its bytes: those of its canonical text under JER and AVN, and
    /// what the rules return under a codec that has binary rules.
    ///
    /// # Errors
    ///
    /// Under JER and AVN `OutOfMemory`, or the kind of the first part of the value that the
    /// notation cannot encode. `Custom` or `OutOfMemory` under XER. Else those of the rules.
    fn encode_to_binary<T: Encode, R: BinaryRules>(
        self,
        alloc: Global,
        value: &T,
        rules: &mut R,
    ) -> Result<Vec<u8>, EncodeError>
        // The bytes of JER and AVN are those of the canonical text, which is read as the tree that
        // is written for the value, unless it nests deeper than texts are read.
        ensures text { IsText (notation_of (codec_of self)) → IfOk result (λ bytes. bytes.items
            ≡ canonical_text (notation_of (codec_of self)) (T.value_of value.now)) }
        ensures reads_back { IfOk result (λ bytes. (limit : ℕ) → ReadsBack limit
            (notation_of (codec_of self)) (T.value_of value.now) bytes.items) }
        ensures fits { IsText (notation_of (codec_of self))
            → OnOk result (Fits T.shape_of (T.value_of value.now)) }
        ensures writable { IsText (notation_of (codec_of self))
            → OnOk result (Writable (notation_of (codec_of self)) (T.value_of value.now)) }
        // Their error states the first part that cannot be encoded, or that memory ran out, and
        // names this codec; and what can be encoded is encoded, unless memory runs out.
        ensures refused { IsText (notation_of (codec_of self)) → IfErr result
            (λ e. ((is_encode_out_of_memory (encode_cause e.kind) ≡ true)
            ⊎ IsUnencodable (codec_of self) (T.value_of value.now) (encode_cause e.kind))
            × (e.codec ≡ codec_of self)) }
        ensures complete { IsText (notation_of (codec_of self))
            → Writable (notation_of (codec_of self)) (T.value_of value.now)
            → IfErr result (λ e. is_encode_out_of_memory (encode_cause e.kind) ≡ true) }
        // XER is refused.
        ensures xer { codec_of self ≡ Xer
            → IsErrAnd result (IsCustomEncodeError no_xer Xer) }
        // Every other codec returns what the rules return, and these three leave them as they are.
        ensures rules { IsBinary (codec_of self) → R.encodes rules.old (codec_of self) T.shape_of
            (T.value_of value.now) (map_ok (λ bytes. bytes.items) result) }
        ensures unused { IsBinary (codec_of self) ⊎ (rules.new ≡ rules.old) };

    /// Returns the value that bytes decode to as a T: as a text in UTF-8 under JER and AVN, and by
    /// the rules under a codec that has binary rules.
    ///
    /// # Errors
    ///
    /// Under JER and AVN `OutOfMemory`, `Custom` where the bytes are no UTF-8, or the kinds of
    /// `decode_from_str`. `Custom` or `OutOfMemory` under XER. Else those of the rules.
    fn decode_from_binary<T: Decode, R: BinaryRules>(
        &self,
        alloc: Global,
        input: &[u8],
        rules: &mut R,
    ) -> Result<T, DecodeError>
        // Under JER and AVN the bytes are a text, which decodes to the value of the result.
        ensures value { IsText (notation_of (codec_of self.now)) → IfOk result
            (λ x. IsUtf8 input.now
            × TextDecodesTo LEVEL_LIMIT (notation_of (codec_of self.now)) T.shape_of input.now
            (T.value_of x)) }
        // Their error states that the bytes are no text, or where and why decoding stops, or that
        // memory ran out under this codec; and a text that decodes to a value is read as that
        // value, unless memory runs out.
        ensures refused { IsText (notation_of (codec_of self.now)) → IfErr result
            (λ e. (failure_of e ≡ at_root Cause.out_of_memory (codec_of self.now))
            ⊎ IsBytesFailure (codec_of self.now) T.shape_of input.now (failure_of e)) }
        ensures complete { IsUtf8 input.now → (v : Value)
            → TextDecodesTo LEVEL_LIMIT (notation_of (codec_of self.now)) T.shape_of input.now v
            → Reads T.value_of v result }
        // XER is refused.
        ensures xer { codec_of self.now ≡ Xer
            → IsErrAnd result (IsCustomDecodeError no_xer Xer) }
        // Every other codec returns what the rules return, and these three leave them as they are.
        ensures rules { IsBinary (codec_of self.now) → R.decodes rules.old (codec_of self.now)
            T.shape_of input.now (map_ok T.value_of result) }
        ensures unused { IsBinary (codec_of self.now) ⊎ (rules.new ≡ rules.old) };

    /// Returns the value that the front of the bytes decodes to as a T, with the bytes after it, by
    /// the rules of a codec that has binary rules.
    ///
    /// # Errors
    ///
    /// `Custom` or `OutOfMemory` under JER, AVN and XER. Else those of the rules.
    fn decode_from_binary_with_remainder<'i, T: Decode, R: BinaryRules>(
        &self,
        alloc: Global,
        input: &'i [u8],
        rules: &mut R,
    ) -> Result<(T, &'i [u8]), DecodeError>
        // JER, AVN and XER are refused, whatever the bytes are.
        ensures text { IsText (notation_of (codec_of self.now)) → IsErrAnd result
            (IsCustomDecodeError (no_remainder (codec_of self.now)) (codec_of self.now)) }
        ensures xer { codec_of self.now ≡ Xer
            → IsErrAnd result (IsCustomDecodeError no_xer Xer) }
        // Every other codec returns what the rules return, and these three leave them as they are.
        ensures rules { IsBinary (codec_of self.now)
            → R.decodes_front rules.old (codec_of self.now) T.shape_of input.now
            (map_ok (λ found. (T.value_of found.0, found.1.now)) result) }
        ensures unused { IsBinary (codec_of self.now) ⊎ (rules.new ≡ rules.old) };
}

/// Sends each call to the module of the notation, or to the rules that are handed in.
impl CodecCalls for Codec {
    ghost codec_of = { λ c. c };

    fn encode_to_string<T: Encode>(self, alloc: Global, value: &T) -> Result<String, EncodeError> {
        match self {
            Codec::Jer => jer::encode(alloc, value),
            Codec::Avn => avn::encode(alloc, value),
            _ => Err(encode_refusal(alloc, self, CodecRefusal::NoTextEncoded)),
        }
    }

    fn decode_from_str<T: Decode>(&self, alloc: Global, input: &str) -> Result<T, DecodeError> {
        decode_within(alloc, *self, LEVEL_LIMIT, input)
    }

    fn encode_to_binary<T: Encode, R: BinaryRules>(
        self,
        alloc: Global,
        value: &T,
        rules: &mut R,
    ) -> Result<Vec<u8>, EncodeError> {
        match self {
            Codec::Jer | Codec::Avn => match self.encode_to_string(alloc, value) {
                Ok(text) => Ok(text.into_bytes()),
                Err(error) => Err(error),
            },
            Codec::Xer => Err(encode_refusal(alloc, self, CodecRefusal::NoXer)),
            _ => rules.encode(alloc, self, value),
        }
    }

    fn decode_from_binary<T: Decode, R: BinaryRules>(
        &self,
        alloc: Global,
        input: &[u8],
        rules: &mut R,
    ) -> Result<T, DecodeError> {
        match self {
            Codec::Jer | Codec::Avn => match from_utf8(input) {
                Ok(text) => self.decode_from_str(alloc, text),
                Err(_) => Err(decode_refusal(alloc, *self, CodecRefusal::NoUtf8)),
            },
            Codec::Xer => Err(decode_refusal(alloc, *self, CodecRefusal::NoXer)),
            _ => rules.decode(alloc, *self, input),
        }
    }

    fn decode_from_binary_with_remainder<'i, T: Decode, R: BinaryRules>(
        &self,
        alloc: Global,
        input: &'i [u8],
        rules: &mut R,
    ) -> Result<(T, &'i [u8]), DecodeError> {
        match self {
            Codec::Jer | Codec::Avn => Err(decode_refusal(alloc, *self, CodecRefusal::NoRemainder)),
            Codec::Xer => Err(decode_refusal(alloc, *self, CodecRefusal::NoXer)),
            _ => rules.decode_with_remainder(alloc, *self, input),
        }
    }
}

/// Returns the value that a text decodes to as a T, with this limit on the levels of AVN. It is
/// `decode_from_str` where the limit is `LEVEL_LIMIT`.
///
/// # Errors
///
/// Those of `decode_from_str`.
pub(crate) fn decode_within<T: Decode>(
    alloc: Global,
    codec: Codec,
    limit: usize,
    input: &str,
) -> Result<T, DecodeError>
    requires { limit ≤ GREATEST_LEVEL_LIMIT }
    ensures value { IfOk result (λ x. TextDecodesTo limit (notation_of codec) T.shape_of input.now
        (T.value_of x)) }
    ensures refused { IfErr result (λ e. (failure_of e ≡ at_root Cause.out_of_memory codec)
        ⊎ IsDecodeFailure limit codec T.shape_of input.now (failure_of e)) }
    ensures complete { (v : Value)
        → TextDecodesTo limit (notation_of codec) T.shape_of input.now v
        → Reads T.value_of v result }
{
    match codec {
        Codec::Jer => jer::decode(alloc, input),
        Codec::Avn => avn::decode_within(alloc, input, limit),
        _ => Err(decode_refusal(alloc, codec, CodecRefusal::NoTextDecoded)),
    }
}
