//! Writes and reads values without parts as JSON values.
ghost use Rattle.asn_fault.specs.Failure.{failure_of};
ghost use Rattle.asn_model.specs.declared.leaves.LeafKind.TheVariants.{Any, Octets};
ghost use Rattle.asn_model.specs.declared.leaves.OwnedLeaf.{OwnedLeaf};
ghost use Rattle.asn_traits.specs.Canonical.{jer_data};
ghost use Rattle.asn_traits.specs.Leaf.{leaf_value};
ghost use Rattle.asn_traits.specs.Notation.{Notation};
ghost use Rattle.asn_coding.specs.Opening.{IsTaken};
ghost use Rattle.asn_traits.specs.Writable.{Writable};
ghost use Rattle.asn_coding.specs.Writing.{FailsToEncode, IsOutOfMemory};
ghost use Rattle.jer_rules.specs.NoLeaves.{IsNoLeaf, TellsNoLeaf};
ghost use Rattle.jer_rules.specs.Pending.{tree_of};
ghost use Rattle.jer_values.specs.Views.{data_of};
ghost use Rattle.serde_json.specs.Data.{Data};
ghost use Rattle.std.specs.Str.{is_utf8};
ghost use Rattle.std.specs.Prelude.{◌≡◌, true, OnOk, IfOk, IfErr, MatchResult};

use super::bits::{counted_bits, fixed_bits, value_of_bits};
use super::build::integer_of;
use super::faults::{
    encode_error, in_jer, mismatch, no_digits, no_object, no_octets, no_oid, other_length,
};
use super::identifiers::identifier_of_json;
use super::take_apart::whole_number;
use asn_core::Codec;
use asn_fault::{DecodeError, EncodeError, JerEncodeErrorKind};
use asn_model::joined_arcs;
use asn_traits::{Leaf, LeafKind, OwnedLeaf};
use jer_values::JerValue;
use serde_json::Value;
use std::alloc::Global;

/// Returns the JSON value that is written for a value without parts.
///
/// # Errors
///
/// `ExceedsSupportedIntSize` where JSON doesn't have the number; `SizeConstraintNotSatisfied` where
/// bits are not as many as their fixed size; `OutOfMemory`.
#[inline(always)]
pub fn value_of_leaf(alloc: Global, leaf: Leaf<'_>) -> Result<JerValue, EncodeError>
    ensures json { IfOk result (λ v. data_of v ≡ jer_data (leaf_value leaf.entry)) }
    ensures writable { OnOk result (Writable Notation.jer (leaf_value leaf.entry)) }
    ensures refused { IfErr result (FailsToEncode Notation.jer (leaf_value leaf.entry)) }
{
    match leaf {
        Leaf::Null => Ok(JerValue::Null),
        Leaf::Boolean(flag) => Ok(JerValue::Boolean(flag)),
        Leaf::Number(value) => match integer_of(value.negative, value.magnitude) {
            Some(number) => Ok(JerValue::Integer(number)),
            None => Err(encode_error(JerEncodeErrorKind::ExceedsSupportedIntSize { value })),
        },
        Leaf::Text(text) => value_of_text(alloc, text),
        Leaf::OwnedText(text) => Ok(JerValue::Text(text)),
        Leaf::Item(name) => value_of_text(alloc, name),
        Leaf::Octets(octets) => Ok(JerValue::Text(in_jer(hex::encode_upper(alloc, octets))?)),
        Leaf::Arcs(arcs) => Ok(JerValue::Text(in_jer(joined_arcs(alloc, arcs, "."))?)),
        Leaf::Bits(bits, size) => value_of_bits(alloc, bits, size),
    }
}

/// Returns the JSON string of a text.
///
/// # Errors
///
/// `OutOfMemory` alone.
fn value_of_text(alloc: Global, text: &str) -> Result<JerValue, EncodeError>
    ensures json { IfOk result (λ v. data_of v ≡ Data.string text.now) }
    ensures text { is_utf8 text.now ≡ true }
    ensures refused { IfErr result (IsOutOfMemory Notation.jer) }
{
    Ok(JerValue::Text(in_jer(String::from_str(alloc, text))?))
}

/// Why a JSON value is no value of a kind.
#[derive(Drop)]
pub enum NoLeaf {
    /// It is of another kind.
    Kind(Value),
    /// Its text is no hexadecimal of whole octets.
    Octets,
    /// It is no object.
    Object,
    /// The digits of its bits are no hexadecimal of whole octets.
    Digits,
    /// Its bits are so many octets, and their size takes another number.
    Count {
        /// How many octets there are.
        octets: usize,
        /// The number of bits that the size takes.
        size: usize,
    },
    /// Its text is no object identifier.
    Arcs(String),
    /// Memory ran out.
    OutOfMemory,
}

/// Returns the value of this kind, without parts, that a JSON value is.
///
/// # Errors
///
/// Why the JSON value is none of this kind; `OutOfMemory`.
#[inline(always)]
pub fn leaf_of_json(alloc: Global, value: Value, kind: LeafKind) -> Result<OwnedLeaf, NoLeaf>
    ensures { MatchResult result (IsTaken Notation.jer kind (tree_of value))
        (IsNoLeaf kind value) }
{
    match kind {
        LeafKind::Null => match value {
            Value::Null => Ok(OwnedLeaf::Null),
            other => Err(NoLeaf::Kind(other)),
        },
        LeafKind::Boolean => match value {
            Value::Bool(flag) => Ok(OwnedLeaf::Boolean(flag)),
            other => Err(NoLeaf::Kind(other)),
        },
        LeafKind::Number => match value {
            Value::Number(number) => match whole_number(&number) {
                Some(whole) => Ok(OwnedLeaf::Number(Some(whole))),
                None => Err(NoLeaf::Kind(Value::Number(number))),
            },
            other => Err(NoLeaf::Kind(other)),
        },
        LeafKind::Text | LeafKind::Time | LeafKind::Date => match value {
            Value::String(text) => Ok(OwnedLeaf::Text(text)),
            other => Err(NoLeaf::Kind(other)),
        },
        LeafKind::Item => match value {
            Value::String(text) => Ok(OwnedLeaf::Item(text)),
            other => Err(NoLeaf::Kind(other)),
        },
        LeafKind::Octets => Ok(OwnedLeaf::Octets(octets_of_json(alloc, value)?)),
        LeafKind::Any => Ok(OwnedLeaf::Any(octets_of_json(alloc, value)?)),
        LeafKind::Oid => identifier_of_json(alloc, value),
        LeafKind::Bits(Some(size)) => fixed_bits(alloc, value, size),
        LeafKind::Bits(None) => counted_bits(alloc, value),
    }
}

/// Returns the refusal of a JSON value that is none of this kind, for this reason. Where memory
/// runs out, the refusal says that.
#[inline(never)]
pub fn refusal_of_leaf(alloc: Global, kind: LeafKind, why: NoLeaf) -> DecodeError
    ensures { TellsNoLeaf kind why (failure_of result) }
{
    match why {
        NoLeaf::Kind(other) => mismatch(alloc, kind.needed(Codec::Jer), &other),
        NoLeaf::Octets => no_octets(),
        NoLeaf::Object => no_object(alloc),
        NoLeaf::Digits => no_digits(alloc),
        NoLeaf::Count { octets, size } => other_length(alloc, octets, size),
        NoLeaf::Arcs(text) => no_oid(alloc, text),
        NoLeaf::OutOfMemory => DecodeError::out_of_memory(Codec::Jer),
    }
}

/// Returns the octets that a JSON value is: those that its digits say.
///
/// # Errors
///
/// `Kind` where the value is no string; `Octets` where its text is no hexadecimal of whole octets;
/// `OutOfMemory`.
fn octets_of_json(alloc: Global, value: Value) -> Result<Vec<u8>, NoLeaf>
    // They are the octets of an octet string, and those of a value of any type.
    ensures octets { MatchResult result
        (λ octets. IsTaken Notation.jer Octets (tree_of value) (OwnedLeaf.Octets octets))
        (IsNoLeaf Octets value) }
    ensures any { MatchResult result
        (λ octets. IsTaken Notation.jer Any (tree_of value) (OwnedLeaf.Any octets))
        (IsNoLeaf Any value) }
{
    match value {
        Value::String(text) => match hex::decode(alloc, text.as_bytes()) {
            Ok(octets) => Ok(octets),
            Err(hex::FromHexError::OutOfMemory) => Err(NoLeaf::OutOfMemory),
            Err(_error) => Err(NoLeaf::Octets),
        },
        other => Err(NoLeaf::Kind(other)),
    }
}
