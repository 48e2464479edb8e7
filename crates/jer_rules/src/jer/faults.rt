//! Makes the refusals of the reader and the writer of JSON.
ghost use Rattle.asn_core.specs.declared.codec.Codec.TheVariants.{Jer};
ghost use Rattle.asn_fault.specs.Failure.{Cause, failure_of, at_root, codec_cause};
ghost use Rattle.asn_coding.specs.Answer.{RefusesLeaf};
ghost use Rattle.asn_coding.specs.Writing.{IsOutOfMemory};
ghost use Rattle.asn_traits.specs.BitLeaves.{another_length, held_bits, no_bits};
ghost use Rattle.asn_traits.specs.Leaf.{LeafFailure};
ghost use Rattle.asn_traits.specs.Notation.{Notation};
ghost use Rattle.asn_traits.specs.Tree.{Tree};
ghost use Rattle.jer_rules.specs.Identifiers.{no_identifier};
ghost use Rattle.serde_json.specs.View.{view};
ghost use Rattle.std.specs.Prelude.{◌≡◌, ◌⊎◌, Ok, IfOk, IfErr, string_bytes};
ghost use Rattle.asn_model.specs.declared.words.TheConstants.{JER_NO_JSON, JER_OBJECT, JER_UNKNOWN};

use asn_core::Codec;
use asn_fault::{
    CodecDecodeError, CodecEncodeError, DecodeError, DecodeErrorKind, EncodeError, EncodeErrorKind,
    JerDecodeErrorKind, JerEncodeErrorKind,
};
use asn_model::words::{JER_NO_BITS, JER_NO_JSON, JER_OBJECT, JER_UNKNOWN};
use serde_json::Value;
use std::alloc::Global;

/// Returns the refusal where a value is expected and there is none.
#[inline(never)]
pub fn end_of_input() -> DecodeError
    ensures { failure_of result ≡ at_root (Cause.end_of_input Jer) Jer }
{
    DecodeError::from_kind(
        DecodeErrorKind::CodecSpecific {
            inner: JerDecodeErrorKind::eoi(),
        },
        Codec::Jer,
    )
}

/// Returns the refusal of a JSON value that is of another kind than the one that is needed. Where
/// memory runs out, the refusal says that.
pub fn mismatch(alloc: Global, needed: &'static str, value: &Value) -> DecodeError
    ensures { RefusesLeaf Notation.jer (Tree.json (view value.now)) (LeafFailure.mismatch
        needed.now)
        (failure_of result) }
{
    match value.to_string(alloc) {
        Ok(found) => jer_error(JerDecodeErrorKind::TypeMismatch { needed, found }),
        Err(_) => DecodeError::out_of_memory(Codec::Jer),
    }
}

/// Returns the refusal of a JSON value that is no object where members are needed. Where memory
/// runs out, the refusal says that.
pub fn no_object(alloc: Global) -> DecodeError
    ensures { (failure_of result
        ≡ at_root (Cause.type_mismatch Jer JER_OBJECT.now JER_UNKNOWN.now) Jer)
        ⊎ (failure_of result ≡ at_root Cause.out_of_memory Jer) }
{
    match String::from_str(alloc, JER_UNKNOWN) {
        Ok(found) => jer_error(JerDecodeErrorKind::TypeMismatch {
            needed: JER_OBJECT,
            found,
        }),
        Err(_) => DecodeError::out_of_memory(Codec::Jer),
    }
}

/// Returns the refusal of a text that names no item of the type.
pub fn no_item(text: String) -> DecodeError
    ensures { failure_of result ≡ at_root
        (Cause.invalid_enum_discriminant Jer (string_bytes text)) Jer }
{
    jer_error(JerDecodeErrorKind::InvalidEnumDiscriminant { discriminant: text })
}

/// Returns the refusal of a text that is no hexadecimal of whole octets.
pub fn no_octets() -> DecodeError
    ensures { failure_of result ≡ at_root Cause.invalid_jer_octet_string Jer }
{
    jer_error(JerDecodeErrorKind::InvalidJerOctetString {})
}

/// Returns the refusal of digits beside a length that are no hexadecimal of whole octets. Where
/// memory runs out, the refusal says that.
pub fn no_digits(alloc: Global) -> DecodeError
    ensures { (failure_of result ≡ at_root no_bits Jer)
        ⊎ (failure_of result ≡ at_root Cause.out_of_memory Jer) }
{
    match String::from_str(alloc, JER_NO_BITS) {
        Ok(msg) => DecodeError::custom(msg, Codec::Jer),
        Err(_) => DecodeError::out_of_memory(Codec::Jer),
    }
}

/// Returns the refusal of octets that are not as many as a length takes. Where memory runs out, the
/// refusal says that.
pub fn other_length(alloc: Global, octets: usize, size: usize) -> DecodeError
    ensures { (failure_of result ≡ at_root (another_length octets size) Jer)
        ⊎ (failure_of result ≡ at_root Cause.out_of_memory Jer) }
{
    let held = bits_held(octets, size);
    match format!(in alloc; "{JER_NO_BITS}: invalid value length (was: {held}, expected: {size})") {
        Ok(msg) => DecodeError::custom(msg, Codec::Jer),
        Err(_) => DecodeError::out_of_memory(Codec::Jer),
    }
}

/// Returns how many bits so many octets hold, less those of the last octet that a length leaves
/// unused.
fn bits_held(octets: usize, size: usize) -> u128
    ensures { result ≡ held_bits octets size }
{
    let unused = (8 - size % 8) % 8;
    (octets as u128 * 8).saturating_sub(unused as u128)
}

/// Returns the refusal of a text that is no object identifier. Where memory runs out, the refusal
/// says that.
pub fn no_oid(alloc: Global, text: String) -> DecodeError
    ensures { (failure_of result ≡ at_root (no_identifier (string_bytes text)) Jer)
        ⊎ (failure_of result ≡ at_root Cause.out_of_memory Jer) }
{
    match Value::String(text).to_string(alloc) {
        Ok(value) => jer_error(JerDecodeErrorKind::InvalidOIDString { value }),
        Err(_) => DecodeError::out_of_memory(Codec::Jer),
    }
}

/// Returns the refusal of a text that is no JSON. Where memory runs out, the refusal says that.
pub fn no_json(alloc: Global) -> DecodeError
    ensures { (failure_of result ≡ at_root (Cause.parser JER_NO_JSON.now) Jer)
        ⊎ (failure_of result ≡ at_root Cause.out_of_memory Jer) }
{
    match String::from_str(alloc, JER_NO_JSON) {
        Ok(msg) => DecodeError::parser_fail(msg, Codec::Jer),
        Err(_) => DecodeError::out_of_memory(Codec::Jer),
    }
}

/// Returns the refusal of this kind.
fn jer_error(kind: JerDecodeErrorKind) -> DecodeError
    ensures { failure_of result ≡ at_root (codec_cause (CodecDecodeError.Jer kind)) Jer }
{
    DecodeError::from_kind(
        DecodeErrorKind::CodecSpecific {
            inner: CodecDecodeError::Jer(kind),
        },
        Codec::Jer,
    )
}

/// Returns the refusal to write of this kind.
pub fn encode_error(kind: JerEncodeErrorKind) -> EncodeError
    ensures { result ≡ record {
      kind = EncodeErrorKind.CodecSpecific
          (CodecEncodeError.Jer kind);
      codec = Jer;
    } }
{
    EncodeError::from_kind(
        EncodeErrorKind::CodecSpecific {
            inner: CodecEncodeError::Jer(kind),
        },
        Codec::Jer,
    )
}

/// Returns the want of memory as an error of this codec.
#[inline(never)]
pub fn out_of_memory() -> EncodeError
    ensures { IsOutOfMemory Notation.jer result }
{
    EncodeError::out_of_memory(Codec::Jer)
}

/// Returns an answer with the want of memory as an error of this codec.
///
/// # Errors
///
/// `OutOfMemory` alone.
#[inline(always)]
pub fn in_jer<T: Drop, E: Drop>(answer: Result<T, E>) -> Result<T, EncodeError>
    ensures same { IfOk result (λ x. answer ≡ Ok x) }
    ensures refused { IfErr result (IsOutOfMemory Notation.jer) }
{
    match answer {
        Ok(value) => Ok(value),
        Err(_) => Err(out_of_memory()),
    }
}
