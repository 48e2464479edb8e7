//! Encodes a value of a type as text of the value notation, and decodes one from it. `enc` and
//! `de` have the two halves of the codec: each is a few primitive calls, over which the traits of
//! `asn_traits` encode and decode every type.
ghost use Rattle.asn_fault.specs.Failure.{failure_of};
ghost use Rattle.asn_traits.specs.Canonical.{canonical_text};
ghost use Rattle.asn_traits.specs.Notation.{Notation};
ghost use Rattle.asn_coding.specs.Root.{Reads};
ghost use Rattle.asn_traits.specs.DecodesTo.{DecodesTo};
ghost use Rattle.asn_traits.specs.Tree.{Tree};
ghost use Rattle.asn_traits.specs.Value.{Value, Fits};
ghost use Rattle.asn_traits.specs.Writable.{Writable};
ghost use Rattle.asn_coding.specs.Writing.{FailsToEncode, IsOutOfMemory};
ghost use Rattle.avn_grammar.specs.Tree.{Tree as AvnTree};
ghost use Rattle.avn_rules.specs.Text.{IsAvn, ReadsBack, RefusesText};
ghost use Rattle.std.specs.Prelude.{◌≡◌, ℕ, ◌≤◌, Some, IfOk, IfErr, OnOk, string_bytes};

mod bits;
pub mod de;
pub mod enc;
mod faults;
mod identifiers;
mod leaf_nodes;
mod leaves;
mod numbers;
mod take_apart;

use asn_fault::{DecodeError, EncodeError};
use asn_traits::{Decode, Encode};
use avn_value::{GREATEST_LEVEL_LIMIT, LEVEL_LIMIT};
use std::alloc::Global;

/// Encodes a value as text of the value notation, with a line for each element and each field.
///
/// # Errors
///
/// `OutOfMemory`; else the kind of the first part that AVN cannot encode.
pub fn encode<T: Encode>(alloc: Global, value: &T) -> Result<String, EncodeError>
    // The text is the canonical one of the value, of the type's shape. It is read as the tree that
    // is written for the value, in normal form, within each limit that it nests no deeper than.
    ensures text { IfOk result (λ s. string_bytes s
        ≡ canonical_text Notation.avn (T.value_of value.now)) }
    ensures reads_back { IfOk result (λ s. (limit : ℕ)
        → ReadsBack limit (T.value_of value.now) (string_bytes s)) }
    ensures fits { OnOk result (Fits T.shape_of (T.value_of value.now)) }
    ensures writable { OnOk result (Writable Notation.avn (T.value_of value.now)) }
    // An error is that of the first part that can't be encoded, or that memory ran out.
    ensures refused { IfErr result (FailsToEncode Notation.avn (T.value_of value.now)) }
    // What can be encoded is encoded, unless memory runs out.
    ensures complete { Writable Notation.avn (T.value_of value.now)
        → IfErr result (IsOutOfMemory Notation.avn) }
{
    let mut encoder = enc::Encoder::new(alloc);
    value.encode(&mut encoder)?;
    encoder.to_string()
}

/// Returns the value that a text of the value notation decodes to, within the limit on levels.
///
/// # Errors
///
/// `OutOfMemory`; `UnexpectedToken` where the text is no value; `ExceedsMaxParseDepth` where it is
/// deeper than the limit; else why the value of the notation is no value of the type, within a
/// `FieldError` for each field on the way.
pub fn decode_within<T: Decode>(alloc: Global, input: &str, limit: usize) -> Result<T, DecodeError>
    requires { limit ≤ GREATEST_LEVEL_LIMIT }
    // The text is a value of the notation that decodes to the value of the result.
    ensures value { IfOk result (λ x. (t : AvnTree) × IsAvn limit input.now t
        × DecodesTo Notation.avn T.shape_of (Some (Tree.avn t)) (T.value_of x)) }
    // An error is why the text is no value of the notation, or that it is too deep, or where and
    // why its value decodes to none of the type, or that memory ran out.
    ensures refused { IfErr result (λ e. RefusesText limit T.shape_of input.now (failure_of e)) }
    // A text that decodes to a value is read as that value, unless memory runs out.
    ensures complete { (t : AvnTree) (v : Value) → IsAvn limit input.now t
        → DecodesTo Notation.avn T.shape_of (Some (Tree.avn t)) v → Reads T.value_of v result }
{
    let mut decoder = de::Decoder::new_within(alloc, input, limit)?;
    T::decode(&mut decoder)
}

/// Returns the value that a text of the value notation decodes to, as `decode_within` does with the
/// limit `LEVEL_LIMIT`.
///
/// # Errors
///
/// As `decode_within` has them.
pub fn decode<T: Decode>(alloc: Global, input: &str) -> Result<T, DecodeError>
    ensures value { IfOk result (λ x. (t : AvnTree) × IsAvn LEVEL_LIMIT input.now t
        × DecodesTo Notation.avn T.shape_of (Some (Tree.avn t)) (T.value_of x)) }
    ensures refused { IfErr result (λ e.
        RefusesText LEVEL_LIMIT T.shape_of input.now (failure_of e)) }
    ensures complete { (t : AvnTree) (v : Value) → IsAvn LEVEL_LIMIT input.now t
        → DecodesTo Notation.avn T.shape_of (Some (Tree.avn t)) v → Reads T.value_of v result }
{
    decode_within(alloc, input, LEVEL_LIMIT)
}
