//! Makes the refusals of the reader of AVN.
ghost use Rattle.asn_core.specs.declared.codec.Codec.TheVariants.{Avn};
ghost use Rattle.asn_fault.specs.Failure.{Cause, failure_of, at_root, codec_cause};
ghost use Rattle.asn_fault.specs.EncodeCause.{EncodeCause};
ghost use Rattle.asn_coding.specs.Answer.{RefusesLeaf};
ghost use Rattle.asn_traits.specs.Leaf.{LeafFailure, members_mismatch};
ghost use Rattle.asn_traits.specs.Notation.{Notation};
ghost use Rattle.asn_traits.specs.ShapeView.{kind_view};
ghost use Rattle.asn_traits.specs.TextTypes.{IsEncodeFailure};
ghost use Rattle.asn_traits.specs.Arcs.{listed_text};
ghost use Rattle.avn_grammar.specs.Print.{print};
ghost use Rattle.avn_rules.specs.LeafAnswer.{IsCause};
ghost use Rattle.avn_rules.specs.Parts.{list_failure};
ghost use Rattle.avn_rules.specs.Pending.{IsPresent, avn_or_null, value_at};
ghost use Rattle.avn_nodes.specs.Preorder.{tree_at};
ghost use Rattle.std.specs.Prelude.{◌≡◌, IfOk, string_bytes};
ghost use Rattle.asn_model.specs.declared.words.TheConstants.{AVN_ARC, AVN_NO_UNICODE};
ghost use Rattle.asn_model.specs.declared.words.TheConstants.{AVN_NO_UTF8};

use asn_core::{Codec, OutOfMemory};
use asn_fault::{
    AvnDecodeErrorKind, AvnEncodeErrorKind, CodecDecodeError, CodecEncodeError, DecodeError,
    DecodeErrorKind, EncodeError, EncodeErrorKind,
};
use asn_model::joined_arcs;
use asn_model::words::{
    AVN_ARC, AVN_LIST, AVN_MEMBERS, AVN_NO_UNICODE, AVN_NO_UTF8, AVN_SET, AVN_SET_OF,
};
use asn_traits::SeqKind;
use avn_value::NodeTable;
use std::alloc::Global;

/// Returns the refusal where a value is expected and there is none.
pub fn end_of_input() -> DecodeError
    ensures { failure_of result ≡ at_root (Cause.end_of_input Avn) Avn }
{
    DecodeError::from_kind(
        DecodeErrorKind::CodecSpecific {
            inner: AvnDecodeErrorKind::eoi(),
        },
        Codec::Avn,
    )
}

/// Returns the refusal of the value at the node, which is of another kind than the one that is
/// needed. Where memory runs out, the refusal says that.
pub fn mismatch(alloc: Global, table: &NodeTable, node: usize, needed: &'static str) -> DecodeError
    requires { IsPresent table.now node }
    ensures { RefusesLeaf Notation.avn (value_at table.now node) (LeafFailure.mismatch needed.now)
        (failure_of result) }
{
    match table.print(alloc, node) {
        Ok(found) => avn_error(AvnDecodeErrorKind::AvnTypeMismatch { needed, found }),
        Err(_) => DecodeError::out_of_memory(Codec::Avn),
    }
}

/// Returns the words by which a mismatch names SEQUENCE or SET.
pub fn needed_members(kind: SeqKind) -> &'static str
    ensures { LeafFailure.mismatch result.now ≡ members_mismatch Notation.avn (kind_view kind) }
{
    match kind {
        SeqKind::Sequence => AVN_MEMBERS,
        SeqKind::Set => AVN_SET,
    }
}

/// Returns the words by which a mismatch names SEQUENCE OF or SET OF.
pub fn needed_list(kind: SeqKind) -> &'static str
    ensures { LeafFailure.mismatch result.now ≡ list_failure (kind_view kind) }
{
    match kind {
        SeqKind::Sequence => AVN_LIST,
        SeqKind::Set => AVN_SET_OF,
    }
}

/// Returns the refusal of a text that names no item of the type.
pub fn no_item(text: String) -> DecodeError
    ensures { failure_of result ≡ at_root
        (Cause.invalid_enum_discriminant Avn (string_bytes text)) Avn }
{
    avn_error(AvnDecodeErrorKind::AvnInvalidEnumDiscriminant { discriminant: text })
}

/// Returns the refusal of a text that is no whole number. Where memory runs out, the refusal says
/// that.
pub fn no_number(alloc: Global, text: &str) -> DecodeError
    ensures { IsCause (Cause.integer_parse_error text.now) (failure_of result) }
{
    match String::from_str(alloc, text) {
        Ok(msg) => avn_error(AvnDecodeErrorKind::IntegerParseError { msg }),
        Err(_) => DecodeError::out_of_memory(Codec::Avn),
    }
}

/// Returns the refusal of the octets of a character string that are no UTF-8. Where memory runs
/// out, the refusal says that.
pub fn no_utf8(alloc: Global) -> DecodeError
    ensures { IsCause (Cause.custom AVN_NO_UTF8.now) (failure_of result) }
{
    match String::from_str(alloc, AVN_NO_UTF8) {
        Ok(msg) => DecodeError::custom(msg, Codec::Avn),
        Err(_) => DecodeError::out_of_memory(Codec::Avn),
    }
}

/// Returns the refusal to write a text that isn't Unicode. Where memory runs out, the refusal says
/// that.
pub fn no_unicode(alloc: Global) -> EncodeError
    ensures { IsEncodeFailure Notation.avn (EncodeCause.avn_encoder AVN_NO_UNICODE.now)
        result }
{
    let Ok(msg) = String::from_str(alloc, AVN_NO_UNICODE) else {
        return EncodeError::out_of_memory(Codec::Avn);
    };
    EncodeError::from_kind(
        EncodeErrorKind::CodecSpecific {
            inner: CodecEncodeError::Avn(AvnEncodeErrorKind::AvnEncoder { msg }),
        },
        Codec::Avn,
    )
}

/// Returns the refusal of the value at the node, which stands in the place of an arc and is no
/// integer. Where memory runs out, the refusal says that.
pub fn no_arc(alloc: Global, table: &NodeTable, node: usize) -> DecodeError
    requires { IsPresent table.now node }
    ensures { IsCause (Cause.type_mismatch Avn AVN_ARC.now
        (print 0 (avn_or_null (tree_at table.now node)))) (failure_of result) }
{
    match table.print(alloc, node) {
        Ok(found) => avn_error(AvnDecodeErrorKind::AvnTypeMismatch {
            needed: AVN_ARC,
            found,
        }),
        Err(_) => DecodeError::out_of_memory(Codec::Avn),
    }
}

/// Returns the refusal of the text of an integer that is no arc. Where memory runs out, the refusal
/// says that.
pub fn no_oid(alloc: Global, text: &str) -> DecodeError
    ensures { IsCause (Cause.invalid_oid text.now) (failure_of result) }
{
    match String::from_str(alloc, text) {
        Ok(value) => avn_error(AvnDecodeErrorKind::InvalidOid { value }),
        Err(_) => DecodeError::out_of_memory(Codec::Avn),
    }
}

/// Returns the refusal of arcs that are those of no object identifier. Where memory runs out, the
/// refusal says that.
pub fn other_arcs(alloc: Global, arcs: &[u32]) -> DecodeError
    ensures { IsCause (Cause.invalid_oid (listed_text arcs.now)) (failure_of result) }
{
    match list_of_arcs(alloc, arcs) {
        Ok(value) => avn_error(AvnDecodeErrorKind::InvalidOid { value }),
        Err(_) => DecodeError::out_of_memory(Codec::Avn),
    }
}

/// Returns the arcs in brackets.
///
/// # Errors
///
/// `OutOfMemory` alone.
fn list_of_arcs(alloc: Global, arcs: &[u32]) -> Result<String, OutOfMemory>
    ensures { IfOk result (λ text. string_bytes text ≡ listed_text arcs.now) }
{
    let joined = joined_arcs(alloc, arcs, ", ")?;
    Ok(format!(in alloc; "[{joined}]")?)
}

/// Returns the refusal of this kind.
fn avn_error(kind: AvnDecodeErrorKind) -> DecodeError
    ensures { failure_of result ≡ at_root (codec_cause (CodecDecodeError.Avn kind)) Avn }
{
    DecodeError::from_kind(
        DecodeErrorKind::CodecSpecific {
            inner: CodecDecodeError::Avn(kind),
        },
        Codec::Avn,
    )
}
