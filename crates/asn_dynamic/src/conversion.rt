//! Converts a text from one notation to another by a type that a program holds.
ghost use Rattle.asn_codec.specs.Conversion.{Converts, IsConvertible, IsMemoryRefusal, Refuses};
ghost use Rattle.asn_codec.specs.Conversion.{is_refusal_out_of_memory};
ghost use Rattle.asn_codec.specs.Texts.{DecodesOnlyTo, IsShallow, TextDecodesTo};
ghost use Rattle.asn_core.specs.declared.codec.Codec.TheVariants.{Avn};
ghost use Rattle.asn_dynamic.specs.Converting.{convert_error_text, convert_refusal_of};
ghost use Rattle.asn_model.specs.Canonical.{avn_tree, canonical_text};
ghost use Rattle.asn_model.specs.Notation.{notation_of};
ghost use Rattle.asn_model.specs.Readable.{is_readable};
ghost use Rattle.asn_model.specs.ShapeView.{shape_view};
ghost use Rattle.asn_model.specs.Value.{Fits, Value};
ghost use Rattle.asn_model.specs.Writable.{Writable};
ghost use Rattle.avn_grammar.specs.Depth.{ExceedsDepth, deepest};
ghost use Rattle.avn_grammar.specs.declared.limits.TheConstants.{LEVEL_LIMIT};
ghost use Rattle.std.specs.Prelude.{◌≡◌, ◌⊎◌, ◌↔◌, ◌<◌, [], IfErr, IfOk, Some, string_bytes, true};
ghost use Rattle.std.specs.Str.{chars};

use crate::reading::read_part;
use crate::writing::write_part;
use asn_codec::LEVEL_LIMIT;
use asn_core::Codec;
use asn_dynamic_faults::DynError;
use asn_fault::EncodeError;
use asn_model::Shape;
use asn_parts::Part;
use std::alloc::Global;
use std::error::Error;
use std::fmt;

/// States why a text is not converted: it was not read, or its value was not written.
#[derive(Debug, Drop)]
pub enum ConvertError {
    /// The text was not read in the notation that it is in.
    Read(DynError),
    /// The text was read, and its value is not written in the other notation.
    Write(EncodeError),
}

/// Finds out what an error is of, whichever step it comes from.
impl ConvertError {
    /// Returns whether memory ran out.
    pub fn is_out_of_memory(&self) -> bool
        ensures { result ≡ is_refusal_out_of_memory (convert_refusal_of self.now) }
    {
        match self {
            ConvertError::Read(error) => error.is_out_of_memory(),
            ConvertError::Write(error) => error.is_out_of_memory(),
        }
    }
}

/// Prints the text of the inner error.
impl fmt::Display for ConvertError {
    ghost output = { λ e. Some (convert_error_text e) };

    fn fmt<W: fmt::Write>(&self, f: &mut fmt::Formatter<W>) -> fmt::Result {
        match self {
            ConvertError::Read(error) => error.fmt(f),
            ConvertError::Write(error) => error.fmt(f),
        }
    }
}

/// Has no source: its text is that of the inner error.
impl Error for ConvertError {}

/// Returns the canonical text under `to` of the value that a text decodes to under `from` by a
/// shape. The two codecs may be the same: then it makes the text canonical.
///
/// # Errors
///
/// `Read` with why the text is not read, `Write` with why its value is not written. Either may hold
/// `OutOfMemory`.
pub fn convert(
    alloc: Global,
    from: Codec,
    to: Codec,
    shape: &Shape,
    input: &str,
) -> Result<String, ConvertError>
    requires { is_readable (shape_view shape.now) ≡ true }
    // Each clause is that of `convert_part` of this shape.
    ensures converted { IfOk result (λ s.
        Converts LEVEL_LIMIT from to (shape_view shape.now) input.now (string_bytes s)) }
    ensures read_again { IfOk result (λ s. (v : Value)
        → TextDecodesTo LEVEL_LIMIT (notation_of from) (shape_view shape.now) input.now v
        → IsShallow LEVEL_LIMIT (notation_of from) (notation_of to) v
        → DecodesOnlyTo LEVEL_LIMIT (notation_of to) (shape_view shape.now) (string_bytes s) v) }
    ensures too_deep { IfOk result (λ s. (v : Value)
        → TextDecodesTo LEVEL_LIMIT (notation_of from) (shape_view shape.now) input.now v
        → to ≡ Avn → LEVEL_LIMIT < deepest 0 (avn_tree v)
        → ExceedsDepth LEVEL_LIMIT 0 (chars (string_bytes s))) }
    ensures equal { IfOk result (λ s. (v w : Value)
        → TextDecodesTo LEVEL_LIMIT (notation_of from) (shape_view shape.now) input.now v
        → Fits (shape_view shape.now) w → Writable (notation_of to) w
        → (canonical_text (notation_of to) w ≡ string_bytes s) ↔ (w ≡ v)) }
    ensures refused { IfErr result (λ e. IsMemoryRefusal from to (convert_refusal_of e)
        ⊎ Refuses LEVEL_LIMIT from to (shape_view shape.now) input.now (convert_refusal_of e)) }
    ensures complete { IsConvertible LEVEL_LIMIT from to (shape_view shape.now) input.now
        → IfErr result (λ e. is_refusal_out_of_memory (convert_refusal_of e) ≡ true) }
{
    convert_part(alloc, from, to, shape, input)
}

/// Does the same by a part of a type, around which no loop is open.
///
/// # Errors
///
/// Those of `convert`.
pub fn convert_part<P: Part>(
    alloc: Global,
    from: Codec,
    to: Codec,
    part: P,
    input: &str,
) -> Result<String, ConvertError>
    requires { is_readable (P.shape [] part) ≡ true }
    // The result is the canonical text of the value that the input decodes to.
    ensures converted { IfOk result (λ s.
        Converts LEVEL_LIMIT from to (P.shape [] part) input.now (string_bytes s)) }
    // Read again, the result decodes to that value and no other, unless it nests deeper than texts
    // are read. In AVN it is refused for depth exactly there (`too_deep`), and what was read from
    // JSON is never too deep in JSON.
    ensures read_again { IfOk result (λ s. (v : Value)
        → TextDecodesTo LEVEL_LIMIT (notation_of from) (P.shape [] part) input.now v
        → IsShallow LEVEL_LIMIT (notation_of from) (notation_of to) v
        → DecodesOnlyTo LEVEL_LIMIT (notation_of to) (P.shape [] part) (string_bytes s) v) }
    ensures too_deep { IfOk result (λ s. (v : Value)
        → TextDecodesTo LEVEL_LIMIT (notation_of from) (P.shape [] part) input.now v
        → to ≡ Avn → LEVEL_LIMIT < deepest 0 (avn_tree v)
        → ExceedsDepth LEVEL_LIMIT 0 (chars (string_bytes s))) }
    // Of the values that can be written under `to`, the result is the canonical text of that value
    // alone.
    ensures equal { IfOk result (λ s. (v w : Value)
        → TextDecodesTo LEVEL_LIMIT (notation_of from) (P.shape [] part) input.now v
        → Fits (P.shape [] part) w → Writable (notation_of to) w
        → (canonical_text (notation_of to) w ≡ string_bytes s) ↔ (w ≡ v)) }
    // Each error is one that the definition of refusing gives for this input, or says that memory
    // ran out, under the codec of the step.
    ensures refused { IfErr result (λ e. IsMemoryRefusal from to (convert_refusal_of e)
        ⊎ Refuses LEVEL_LIMIT from to (P.shape [] part) input.now (convert_refusal_of e)) }
    // An input that decodes to a value which can be written gives a result, unless memory runs out.
    ensures complete { IsConvertible LEVEL_LIMIT from to (P.shape [] part) input.now
        → IfErr result (λ e. is_refusal_out_of_memory (convert_refusal_of e) ≡ true) }
{
    // No tree of the input is left when the value is written: the decoder is let go before.
    match read_part(alloc, from, part, input) {
        Ok(value) => match write_part(alloc, to, part, &value) {
            Ok(text) => Ok(text),
            Err(error) => Err(ConvertError::Write(error)),
        },
        Err(error) => Err(ConvertError::Read(error)),
    }
}
