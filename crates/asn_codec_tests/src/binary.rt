//! Makes the binary calls of codecs, with no rules and with rules of the test's own. The texts of
//! errors are those of the crate `rasn`, but for `no binary rules`, which is the library's own.
ghost use Rattle.std.specs.Prelude.{⊤};

use crate::checks::{assert_refused, assert_same, assert_true};
use asn_codec::{BinaryRules, CodecCalls, NoRules};
use asn_core::Codec;
use asn_fault::{DecodeError, EncodeError};
use asn_traits::{Decode, Encode};
use jer_rules::jer;
use std::alloc::Global;
use std::process::Abort;

/// Lists the codecs that have binary rules.
const BINARY: [Codec; 7] = [
    Codec::Aper,
    Codec::Ber,
    Codec::Cer,
    Codec::Der,
    Codec::Uper,
    Codec::Oer,
    Codec::Coer,
];

/// Lists codecs, each with the error of encoding `true` without rules.
const UNWRITTEN: [(Codec, &'static str); 2] = [
    (Codec::Ber, "Custom error: no binary rules (Codec: BER)"),
    (
        Codec::Xer,
        "Custom error: XER is not supported. (Codec: XER)",
    ),
];

/// Lists codecs, each with the error of decoding the byte FF without rules.
const UNREAD: [(Codec, &'static str); 4] = [
    (
        Codec::Jer,
        "Custom error: Failed to decode JER from UTF8 bytes (Codec: JER)",
    ),
    (
        Codec::Avn,
        "Custom error: Failed to decode AVN from UTF8 bytes (Codec: AVN)",
    ),
    (
        Codec::Xer,
        "Custom error: XER is not supported. (Codec: XER)",
    ),
    (Codec::Oer, "Custom error: no binary rules (Codec: OER)"),
];

/// Lists codecs, each with the error of decoding the front of a text without rules. The message of
/// JER and AVN ends with a blank.
const UNREAD_FRONT: [(Codec, &'static str); 4] = [
    (
        Codec::Jer,
        "Custom error: JER does not support decoding with remainder.  (Codec: JER)",
    ),
    (
        Codec::Avn,
        "Custom error: AVN does not support decoding with remainder.  (Codec: AVN)",
    ),
    (
        Codec::Xer,
        "Custom error: XER is not supported. (Codec: XER)",
    ),
    (Codec::Uper, "Custom error: no binary rules (Codec: UPER)"),
];

/// Encodes and decodes JSON under any codec, and keeps the codec of the last call. A value at the
/// front of bytes takes the first four, as `true` does.
#[derive(Drop)]
struct JsonRules {
    last: Codec,
}

/// Does what `jer` does. Its meaning is left open: the test looks at what comes out.
impl BinaryRules for JsonRules {
    ghost encodes = { λ rules codec shape value answer. ⊤ };

    ghost decodes = { λ rules codec shape input answer. ⊤ };

    ghost decodes_front = { λ rules codec shape input answer. ⊤ };

    fn encode<T: Encode>(
        &mut self,
        alloc: Global,
        codec: Codec,
        value: &T,
    ) -> Result<Vec<u8>, EncodeError> {
        self.last = codec;
        match jer::encode(alloc, value) {
            Ok(text) => Ok(text.into_bytes()),
            Err(error) => Err(error),
        }
    }

    fn decode<T: Decode>(
        &mut self,
        alloc: Global,
        codec: Codec,
        input: &[u8],
    ) -> Result<T, DecodeError> {
        self.last = codec;
        match str::from_utf8(input) {
            Ok(text) => jer::decode(alloc, text),
            Err(_) => Err(DecodeError::real_not_supported(codec)),
        }
    }

    fn decode_with_remainder<'i, T: Decode>(
        &mut self,
        alloc: Global,
        codec: Codec,
        input: &'i [u8],
    ) -> Result<(T, &'i [u8]), DecodeError> {
        if input.len() < 4 {
            return Err(DecodeError::real_not_supported(codec));
        }
        match self.decode(alloc, codec, &input[..4]) {
            Ok(value) => Ok((value, &input[4..])),
            Err(error) => Err(error),
        }
    }
}

/// Returns the bytes of `true`.
fn bytes_of_true<R: BinaryRules>(
    alloc: Global,
    codec: Codec,
    rules: &mut R,
) -> Result<Vec<u8>, EncodeError> {
    codec.encode_to_binary(alloc, &true, rules)
}

/// Returns the BOOLEAN of the bytes.
fn bool_of_bytes<R: BinaryRules>(
    alloc: Global,
    codec: Codec,
    bytes: &[u8],
    rules: &mut R,
) -> Result<bool, DecodeError> {
    codec.decode_from_binary(alloc, bytes, rules)
}

/// Returns the BOOLEAN at the front of the bytes, and the bytes after it.
fn bool_of_front<'i, R: BinaryRules>(
    alloc: Global,
    codec: Codec,
    bytes: &'i [u8],
    rules: &mut R,
) -> Result<(bool, &'i [u8]), DecodeError> {
    codec.decode_from_binary_with_remainder(alloc, bytes, rules)
}

/// Lists the text notations, each with the bytes of `true`.
const TEXTS: [(Codec, &'static [u8]); 2] = [(Codec::Jer, b"true"), (Codec::Avn, b"TRUE")];

/// Checks that the bytes of the codec are these, and are decoded again. No rules are asked.
fn assert_bytes(rt: &impl Abort, alloc: Global, codec: Codec, want: &[u8]) {
    let bytes = bytes_of_true(alloc, codec, &mut NoRules).expect(rt, "no bytes");
    assert_same(rt, bytes.as_slice(), want);
    let read = bool_of_bytes(alloc, codec, bytes.as_slice(), &mut NoRules);
    assert_true(rt, read.expect(rt, "no value"));
}

/// The bytes of JER and AVN are their texts, and are decoded again. No rules are asked.
#[test]
fn text_notations_have_the_bytes_of_their_texts(rt: HostRuntime) {
    for row in TEXTS.iter() {
        assert_bytes(&rt, rt.alloc(), row.0, row.1);
    }
}

/// XER encodes nothing, nor does a binary codec without rules.
#[test]
fn some_codecs_encode_no_bytes(rt: HostRuntime) {
    for row in UNWRITTEN.iter() {
        let written = bytes_of_true(rt.alloc(), row.0, &mut NoRules);
        assert_refused(&rt, rt.alloc(), written, row.1);
    }
}

/// Bytes that are no text are decoded by neither notation, and other codecs state what they lack.
#[test]
fn some_bytes_are_not_decoded(rt: HostRuntime) {
    for row in UNREAD.iter() {
        let read = bool_of_bytes(rt.alloc(), row.0, &[0xff], &mut NoRules);
        assert_refused(&rt, rt.alloc(), read, row.1);
    }
}

/// No codec decodes the front of a text without rules.
#[test]
fn a_remainder_needs_rules(rt: HostRuntime) {
    for row in UNREAD_FRONT.iter() {
        let read = bool_of_front(rt.alloc(), row.0, b"true".as_slice(), &mut NoRules);
        assert_refused(&rt, rt.alloc(), read, row.1);
    }
}

/// Checks that the codec hands its own name to the rules, and returns what they return.
fn assert_rules_answer(rt: &impl Abort, alloc: Global, codec: Codec) {
    // Each call begins with another codec than the one that is to be handed on.
    let mut rules = JsonRules { last: Codec::Xer };
    let bytes = bytes_of_true(alloc, codec, &mut rules).expect(rt, "no bytes");
    assert_same(rt, bytes.as_slice(), b"true".as_slice());
    assert_true(rt, rules.last == codec);
    let mut rules = JsonRules { last: Codec::Xer };
    let read = bool_of_bytes(alloc, codec, bytes.as_slice(), &mut rules);
    assert_true(rt, read.expect(rt, "no value"));
    assert_true(rt, rules.last == codec);
}

/// Each binary codec hands its own name to the rules, and returns what they return.
#[test]
fn rules_answer_for_each_binary_codec(rt: HostRuntime) {
    for codec in BINARY.iter() {
        assert_rules_answer(&rt, rt.alloc(), *codec);
    }
}

/// Checks that the codec hands a remainder on.
fn assert_remainder(rt: &impl Abort, alloc: Global, codec: Codec) {
    let mut rules = JsonRules { last: Codec::Xer };
    let front = bool_of_front(alloc, codec, b"true, and more".as_slice(), &mut rules);
    let (value, rest) = front.expect(rt, "no value");
    assert_true(rt, value);
    assert_same(rt, rest, b", and more".as_slice());
    assert_true(rt, rules.last == codec);
}

/// Each binary codec hands a remainder on.
#[test]
fn rules_return_a_remainder(rt: HostRuntime) {
    for codec in BINARY.iter() {
        assert_remainder(&rt, rt.alloc(), *codec);
    }
}

/// Lists codecs with bytes that are refused, and the error: an error of the rules, which is
/// returned as it is, and one of a text.
const PASSED_ON: [(Codec, &'static [u8], &'static str); 2] = [
    (
        Codec::Cer,
        b"\xFF",
        "Decoder doesn't support `REAL` type (Codec: CER)",
    ),
    (
        Codec::Jer,
        b"{",
        "Error in Parser: Error parsing JER JSON (Codec: JER)",
    ),
];

/// An error of the rules is returned as it is, and so is one of a text.
#[test]
fn errors_are_passed_on(rt: HostRuntime) {
    for row in PASSED_ON.iter() {
        let mut rules = JsonRules { last: Codec::Xer };
        let read = bool_of_bytes(rt.alloc(), row.0, row.1, &mut rules);
        assert_refused(&rt, rt.alloc(), read, row.2);
    }
}
