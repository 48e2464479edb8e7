//! Decodes texts of one version of a type as another version. A type is a later version of another
//! where it has what that type has, and where that type has an extension marker, extension
//! additions may follow (X.680, section 52).
ghost use Rattle.asn_codec.specs.Texts.{HasTree, IsDecodeFailure, IsShallow, ReadsBack};
ghost use Rattle.asn_codec.specs.Texts.{TextDecodesTo};
ghost use Rattle.asn_fault.specs.Failure.{Cause, at_root, failure_of};
ghost use Rattle.asn_growth.specs.Adapted.{lift, project};
ghost use Rattle.asn_growth.specs.ComesUpon.{IsMissing, IsUnknown, Known};
ghost use Rattle.asn_growth.specs.Grows.{Grows};
ghost use Rattle.asn_model.specs.DecodesTo.{DecodesTo};
ghost use Rattle.asn_model.specs.Notation.{IsText, Notation, notation_of};
ghost use Rattle.asn_model.specs.Tree.{Tree};
ghost use Rattle.asn_model.specs.Value.{Fits, Value};
ghost use Rattle.asn_model.specs.Writable.{Writable};
ghost use Rattle.asn_coding.specs.Root.{Reads};
ghost use Rattle.asn_upgrades.specs.Apart.{IsApart};
ghost use Rattle.avn_grammar.specs.declared.limits.TheConstants.{LEVEL_LIMIT};
ghost use Rattle.std.specs.Prelude.{◌≡◌, ◌⊎◌, Some, true, IfErr, IfOk};

use asn_codec::CodecCalls;
use asn_core::Codec;
use asn_fault::DecodeError;
use asn_traits::{AsnType, Decode};
use std::alloc::Global;

/// Decodes a text as the older one of two versions of a type.
///
/// # Errors
///
/// Those of `decode_from_str`. Where the newer version decodes the text, `OutOfMemory`, or the
/// refusal of the first alternative or item that the older version lacks.
pub fn decode_as_older<Old: Decode, New: AsnType>(
    alloc: Global,
    codec: Codec,
    input: &str,
) -> Result<Old, DecodeError>
    requires { Grows Old.shape_of New.shape_of }
    // As by `decode_from_str` the text decodes to the value, or it is refused by a reason to fail,
    // whatever the newer version decodes it to.
    ensures value { IfOk result (λ x. TextDecodesTo LEVEL_LIMIT (notation_of codec) Old.shape_of
        input.now (Old.value_of x)) }
    ensures refused { IfErr result (λ e. (failure_of e ≡ at_root Cause.out_of_memory codec)
        ⊎ IsDecodeFailure LEVEL_LIMIT codec Old.shape_of input.now (failure_of e)) }
    // What the newer version decodes the text to is decoded, without what the older one lacks,
    // unless its reader looks at an alternative or item that it lacks, or memory runs out.
    ensures known { (t : Tree) (v : Value) → HasTree LEVEL_LIMIT (notation_of codec) input.now t
        → DecodesTo (notation_of codec) New.shape_of (Some t) v
        → Known (notation_of codec) Old.shape_of t
        → Reads Old.value_of (project Old.shape_of v) result }
    // It is decoded to nothing else.
    ensures projected { (t : Tree) (v : Value) → HasTree LEVEL_LIMIT (notation_of codec) input.now t
        → DecodesTo (notation_of codec) New.shape_of (Some t) v
        → IfOk result (λ x. Old.value_of x ≡ project Old.shape_of v) }
    // It is refused for an alternative or item that the older version lacks, with the path to it.
    ensures unknown { (t : Tree) (v : Value) → HasTree LEVEL_LIMIT (notation_of codec) input.now t
        → DecodesTo (notation_of codec) New.shape_of (Some t) v
        → IfErr result (λ e. (failure_of e ≡ at_root Cause.out_of_memory codec)
        ⊎ IsApart (notation_of codec) Old.shape_of t IsUnknown (failure_of e)) }
{
    codec.decode_from_str(alloc, input)
}

/// Decodes a text that was written for a value of the older one of two versions of a type, as the
/// newer one.
///
/// # Errors
///
/// Those of `decode_from_str`. For such a text, `OutOfMemory`, or `MissingField` for the first
/// extension addition that the newer version requires.
pub fn decode_as_newer<Old: AsnType, New: Decode>(
    alloc: Global,
    codec: Codec,
    text: &str,
) -> Result<New, DecodeError>
    requires { Grows Old.shape_of New.shape_of }
    // As by `decode_from_str` the text decodes to the value, or it is refused by a reason to fail,
    // whatever it was written for.
    ensures value { IfOk result (λ x. TextDecodesTo LEVEL_LIMIT (notation_of codec) New.shape_of
        text.now (New.value_of x)) }
    ensures refused { IfErr result (λ e. (failure_of e ≡ at_root Cause.out_of_memory codec)
        ⊎ IsDecodeFailure LEVEL_LIMIT codec New.shape_of text.now (failure_of e)) }
    // The value that the text was written for is decoded, with each addition absent, unless the
    // text nests deeper than texts are read.
    ensures lifted { (v : Value) → IsText (notation_of codec) → Fits Old.shape_of v
        → Writable (notation_of codec) v → ReadsBack LEVEL_LIMIT (notation_of codec) v text.now
        → IsShallow LEVEL_LIMIT Notation.avn (notation_of codec) v
        → IfOk result (λ x. New.value_of x ≡ lift New.shape_of v) }
    // It is refused for an addition that the newer version requires, with the path to it.
    ensures missing { (v : Value) → IsText (notation_of codec) → Fits Old.shape_of v
        → Writable (notation_of codec) v → ReadsBack LEVEL_LIMIT (notation_of codec) v text.now
        → IsShallow LEVEL_LIMIT Notation.avn (notation_of codec) v
        → IfErr result (λ e. (failure_of e ≡ at_root Cause.out_of_memory codec)
        ⊎ ((t : Tree) × HasTree LEVEL_LIMIT (notation_of codec) text.now t
        × IsApart (notation_of codec) New.shape_of t IsMissing (failure_of e))) }
{
    codec.decode_from_str(alloc, text)
}
