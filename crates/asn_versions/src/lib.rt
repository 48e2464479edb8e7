//! States which of the sample types are later versions of others, and what follows for their
//! readers and writers from the laws of versions. `docs/OLD-AND-NEW.md` goes through it.
#![tactic(auto)]

ghost use Rattle.asn_growth.specs.Adapted.{lift, project};
ghost use Rattle.asn_growth.specs.ComesUpon.{IsUnknown, Known};
ghost use Rattle.asn_growth.specs.Grows.{Grows};
ghost use Rattle.asn_model.specs.Canonical.{canonical_text};
ghost use Rattle.asn_model.specs.DecodesTo.{DecodesTo};
ghost use Rattle.asn_model.specs.Notation.{Notation, IsText, notation_of};
ghost use Rattle.asn_model.specs.Tree.{Tree};
ghost use Rattle.asn_model.specs.Value.{Fits, Value};
ghost use Rattle.asn_model.specs.Writable.{Writable};
ghost use Rattle.asn_sample_fields.specs.ExtEnum.{ext_enum_shape};
ghost use Rattle.asn_sample_fields.specs.NewMode.{new_mode_shape};
ghost use Rattle.asn_sample_choices.specs.NewPart.{new_part_shape};
ghost use Rattle.asn_sample_choices.specs.NewReport.{new_report_shape};
ghost use Rattle.asn_sample_trees.specs.NewTree.{new_tree_shape};
ghost use Rattle.asn_sample_fields.specs.OldMode.{old_mode_shape};
ghost use Rattle.asn_sample_choices.specs.OldPart.{old_part_shape, old_part_value};
ghost use Rattle.asn_sample_choices.specs.OldReport.{old_report_shape, old_report_value};
ghost use Rattle.asn_sample_trees.specs.OldTree.{old_tree_shape};
ghost use Rattle.asn_sample_fields.specs.SimpleEnum.{simple_enum_shape};
ghost use Rattle.asn_codec.specs.Texts.{HasTree, IsDecodeFailure, TextDecodesTo};
ghost use Rattle.asn_coding.specs.Root.{Reads};
ghost use Rattle.asn_fault.specs.Failure.{Cause, at_root, failure_of};
ghost use Rattle.asn_upgrades.specs.Apart.{IsApart};
ghost use Rattle.avn_grammar.specs.declared.limits.TheConstants.{LEVEL_LIMIT};
ghost use Rattle.std.specs.Prelude.{◌≡◌, ◌⊎◌, None, Ok, Some, IfErr, IfOk, IfSome};

use asn_core::Codec;
use asn_fault::DecodeError;
use asn_growth::{Growth, few_nodes, grows_check};
use asn_sample_choices::{NewPart, NewReport, OldPart, OldReport};
use asn_traits::AsnType;
use asn_upgrades::decode_as_older;
use std::alloc::Global;

/// States which samples are later versions of others. `ExtEnum` is none of `SimpleEnum`, which has
/// no extension marker.
pub fn later_versions()
    ensures mode { Grows old_mode_shape new_mode_shape }
    ensures part { Grows old_part_shape new_part_shape }
    ensures report { Grows old_report_shape new_report_shape }
    ensures tree { Grows old_tree_shape new_tree_shape }
    ensures no_marker { Grows simple_enum_shape ext_enum_shape → ⊥ }
{}

/// States what versions of `Part` are to each other: a reader of `OldPart` reads what a reader of
/// `NewPart` reads, where it is known to it, and a `NewPart` that was read from a text of an
/// `OldPart` is written as that text.
pub fn versions_of_part()
    ensures forward { (n : Notation) (t : Tree) (v : Value) → IsText n
        → DecodesTo n new_part_shape (Some t) v → Known n old_part_shape t
        → DecodesTo n old_part_shape (Some t) (project old_part_shape v) }
    ensures relay { (n : Notation) (v : Value) → IsText n → Fits old_part_shape v → Writable n v
        → canonical_text n (lift new_part_shape v) ≡ canonical_text n v }
{
    asn_growth::laws::older_readers_read_newer_texts();
    asn_growth::laws::relays_keep_texts();
}

/// Decodes a text as an `OldPart`, which may have been written for a `NewPart`.
///
/// # Errors
///
/// Those of `decode_from_str`. Where a `NewPart` decodes the text, `OutOfMemory`, or
/// `NoValidChoice` for the alternative that `OldPart` lacks.
pub fn decode_part(alloc: Global, codec: Codec, input: &str) -> Result<OldPart, DecodeError>
    ensures value { IfOk result (λ x. TextDecodesTo LEVEL_LIMIT (notation_of codec) old_part_shape
        input.now (old_part_value x)) }
    ensures refused { IfErr result (λ e. (failure_of e ≡ at_root Cause.out_of_memory codec)
        ⊎ IsDecodeFailure LEVEL_LIMIT codec old_part_shape input.now (failure_of e)) }
    ensures projected { (t : Tree) (v : Value) → HasTree LEVEL_LIMIT (notation_of codec) input.now t
        → DecodesTo (notation_of codec) new_part_shape (Some t) v
        → IfOk result (λ x. old_part_value x ≡ project old_part_shape v) }
    ensures unknown { (t : Tree) (v : Value) → HasTree LEVEL_LIMIT (notation_of codec) input.now t
        → DecodesTo (notation_of codec) new_part_shape (Some t) v
        → IfErr result (λ e. (failure_of e ≡ at_root Cause.out_of_memory codec)
        ⊎ IsApart (notation_of codec) old_part_shape t IsUnknown (failure_of e)) }
    ensures known { (t : Tree) (v : Value) → HasTree LEVEL_LIMIT (notation_of codec) input.now t
        → DecodesTo (notation_of codec) new_part_shape (Some t) v
        → Known (notation_of codec) old_part_shape t
        → Reads old_part_value (project old_part_shape v) result }
{
    decode_as_older::<OldPart, NewPart>(alloc, codec, input)
}

/// Decodes a text as an `OldReport`, which may have been written for a `NewReport`. That this is a
/// later version is found out at run time, where `decode_part` has a proof of it: `None` is
/// returned where it is none.
///
/// # Errors
///
/// Those of `decode_from_str`. Where a `NewReport` decodes the text, `OutOfMemory`, or
/// `NoValidChoice` for an alternative that `OldPart` lacks.
pub fn decode_report(
    alloc: Global,
    codec: Codec,
    input: &str,
) -> Result<Option<OldReport>, DecodeError>
    ensures none { result ≡ Ok None → Grows old_report_shape new_report_shape → ⊥ }
    ensures value { IfOk result (λ o. IfSome o (λ x. TextDecodesTo LEVEL_LIMIT (notation_of codec)
        old_report_shape input.now (old_report_value x))) }
    ensures projected { (t : Tree) (v : Value) → HasTree LEVEL_LIMIT (notation_of codec) input.now t
        → DecodesTo (notation_of codec) new_report_shape (Some t) v
        → IfOk result (λ o. IfSome o (λ x. old_report_value x ≡ project old_report_shape v)) }
    ensures unknown { (t : Tree) (v : Value) → HasTree LEVEL_LIMIT (notation_of codec) input.now t
        → DecodesTo (notation_of codec) new_report_shape (Some t) v
        → IfErr result (λ e. (failure_of e ≡ at_root Cause.out_of_memory codec)
        ⊎ IsApart (notation_of codec) old_report_shape t IsUnknown (failure_of e)) }
{
    let (Ok(old), Ok(new)) = (OldReport::shape(alloc), NewReport::shape(alloc)) else {
        return Err(DecodeError::out_of_memory(codec));
    };
    if !few_nodes(&old) || grows_check(&old, &new) != Growth::Grows {
        return Ok(None);
    }
    let report = decode_as_older::<OldReport, NewReport>(alloc, codec, input)?;
    Ok(Some(report))
}
