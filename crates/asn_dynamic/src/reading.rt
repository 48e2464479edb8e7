//! Reads the value of a text by a type that a program holds.
ghost use Rattle.asn_codec.specs.Texts.{IsDecodeFailure, TextDecodesTo};
ghost use Rattle.asn_coding.specs.Root.{ReadsBy};
ghost use Rattle.asn_core.specs.declared.codec.Codec.TheVariants.{Avn, Jer};
ghost use Rattle.asn_dynamic_reading.specs.fitting.HeldValue.{IsHeldValue};
ghost use Rattle.asn_dynamic_faults.specs.DynFailure.{dyn_failure};
ghost use Rattle.asn_dynamic_values.specs.DynView.{dyn_value};
ghost use Rattle.asn_fault.specs.Failure.{Cause, at_root};
ghost use Rattle.asn_model.specs.Notation.{Notation, notation_of};
ghost use Rattle.asn_model.specs.Readable.{is_readable};
ghost use Rattle.asn_model.specs.ShapeView.{shape_view};
ghost use Rattle.asn_model.specs.Value.{Fits, Value};
ghost use Rattle.avn_grammar.specs.declared.limits.TheConstants.{LEVEL_LIMIT};
ghost use Rattle.std.specs.Prelude.{◌≡◌, ◌⊎◌, [], IfErr, IfOk, true};

use asn_codec::{LEVEL_LIMIT, no_text_decoded};
use asn_core::Codec;
use asn_dynamic_faults::DynError;
use asn_dynamic_reading::fitting::decoded_values_fit;
use asn_dynamic_reading::read_value;
use asn_dynamic_values::DynValue;
use asn_model::Shape;
use asn_parts::{Loops, Part};
use avn_rules::avn;
use jer_rules::jer;
use std::alloc::Global;

/// Returns the value that a text decodes to by a shape. AVN is read with the level limit
/// `LEVEL_LIMIT`.
///
/// # Errors
///
/// `OutOfMemory`; `Custom` where the codec is no text notation; else why the text has no tree in
/// the notation, or where and why its tree decodes to no value. A CHOICE has the name `CHOICE` in
/// it.
pub fn read(
    alloc: Global,
    notation: Codec,
    shape: &Shape,
    input: &str,
) -> Result<DynValue, DynError>
    requires { is_readable (shape_view shape.now) ≡ true }
    // Each clause is that of `read_part` of this shape.
    ensures value { IfOk result (λ v. TextDecodesTo LEVEL_LIMIT (notation_of notation)
        (shape_view shape.now) input.now (dyn_value v)) }
    ensures fits { IfOk result (λ v. Fits (shape_view shape.now) (dyn_value v)) }
    ensures refused { IfErr result (λ e.
        (dyn_failure e ≡ at_root Cause.out_of_memory notation)
        ⊎ IsDecodeFailure LEVEL_LIMIT notation (shape_view shape.now) input.now
        (dyn_failure e)) }
    ensures complete { (v : Value)
        → TextDecodesTo LEVEL_LIMIT (notation_of notation) (shape_view shape.now) input.now v
        → ReadsBy dyn_failure dyn_value v result }
{
    read_part(alloc, notation, shape, input)
}

/// Returns the value that a text decodes to by a part of a type, around which no loop is open.
///
/// # Errors
///
/// Those of `read`.
pub fn read_part<P: Part>(
    alloc: Global,
    notation: Codec,
    part: P,
    input: &str,
) -> Result<DynValue, DynError>
    requires { is_readable (P.shape [] part) ≡ true }
    // The text decodes to the value of the result, which is a value of the shape.
    ensures value { IfOk result (λ v. TextDecodesTo LEVEL_LIMIT (notation_of notation)
        (P.shape [] part) input.now (dyn_value v)) }
    ensures fits { IfOk result (λ v. Fits (P.shape [] part) (dyn_value v)) }
    // An error states where and why reading stops, by the definition of the notation, or that
    // memory ran out under this codec.
    ensures refused { IfErr result (λ e.
        (dyn_failure e ≡ at_root Cause.out_of_memory notation)
        ⊎ IsDecodeFailure LEVEL_LIMIT notation (P.shape [] part) input.now (dyn_failure e)) }
    // A text that decodes to a value is read as that value, unless memory runs out.
    ensures complete { (v : Value)
        → TextDecodesTo LEVEL_LIMIT (notation_of notation) (P.shape [] part) input.now v
        → ReadsBy dyn_failure dyn_value v result }
{
    // A law: what a text decodes to is a value of the shape, as Rust values hold its parts.
    decoded_values_fit();
    match notation {
        Codec::Jer => read_jer(alloc, part, input),
        Codec::Avn => read_avn(alloc, part, input),
        _ => Err(DynError::of_decode(alloc, no_text_decoded(alloc, notation), notation)),
    }
}

/// Returns the value that a JSON text decodes to.
fn read_jer<P: Part>(alloc: Global, part: P, input: &str) -> Result<DynValue, DynError>
    requires { is_readable (P.shape [] part) ≡ true }
    ensures value { IfOk result (λ v. TextDecodesTo LEVEL_LIMIT Notation.jer (P.shape [] part)
        input.now (dyn_value v)) }
    ensures held { IfOk result (λ v. IsHeldValue (dyn_value v)) }
    ensures refused { IfErr result (λ e. (dyn_failure e ≡ at_root Cause.out_of_memory Jer)
        ⊎ IsDecodeFailure LEVEL_LIMIT Jer (P.shape [] part) input.now (dyn_failure e)) }
    ensures complete { (v : Value)
        → TextDecodesTo LEVEL_LIMIT Notation.jer (P.shape [] part) input.now v
        → ReadsBy dyn_failure dyn_value v result }
{
    match jer::de::Decoder::new(alloc, input) {
        Ok(mut decoder) => read_value(&mut decoder, part, &Loops::Outermost),
        Err(error) => Err(DynError::of_decode(alloc, error, Codec::Jer)),
    }
}

/// Returns the value that a text of the value notation decodes to.
fn read_avn<P: Part>(alloc: Global, part: P, input: &str) -> Result<DynValue, DynError>
    requires { is_readable (P.shape [] part) ≡ true }
    ensures value { IfOk result (λ v. TextDecodesTo LEVEL_LIMIT Notation.avn (P.shape [] part)
        input.now (dyn_value v)) }
    ensures held { IfOk result (λ v. IsHeldValue (dyn_value v)) }
    ensures refused { IfErr result (λ e. (dyn_failure e ≡ at_root Cause.out_of_memory Avn)
        ⊎ IsDecodeFailure LEVEL_LIMIT Avn (P.shape [] part) input.now (dyn_failure e)) }
    ensures complete { (v : Value)
        → TextDecodesTo LEVEL_LIMIT Notation.avn (P.shape [] part) input.now v
        → ReadsBy dyn_failure dyn_value v result }
{
    match avn::de::Decoder::new_within(alloc, input, LEVEL_LIMIT) {
        Ok(mut decoder) => read_value(&mut decoder, part, &Loops::Outermost),
        Err(error) => Err(DynError::of_decode(alloc, error, Codec::Avn)),
    }
}
