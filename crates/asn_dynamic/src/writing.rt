//! Writes the text of a value that a program holds.
ghost use Rattle.asn_codec.specs.Texts.{IsUnencodable, ReadsBack};
ghost use Rattle.asn_coding.specs.Writing.{FailsToEncode, IsOutOfMemory};
ghost use Rattle.asn_dynamic_values.specs.DynView.{dyn_value};
ghost use Rattle.asn_fault.specs.EncodeCause.{encode_cause, is_encode_out_of_memory};
ghost use Rattle.asn_model.specs.Canonical.{canonical_text};
ghost use Rattle.asn_model.specs.Notation.{IsText, Notation, notation_of};
ghost use Rattle.asn_model.specs.Readable.{is_readable};
ghost use Rattle.avn_rules.specs.Text as avn;
ghost use Rattle.jer_rules.specs.Text as jer;
ghost use Rattle.asn_model.specs.ShapeView.{shape_view};
ghost use Rattle.asn_model.specs.Value.{Fits};
ghost use Rattle.asn_model.specs.Writable.{Writable};
ghost use Rattle.std.specs.Prelude.{◌≡◌, ◌⊎◌, [], ℕ, IfErr, IfOk, OnOk, string_bytes, true};

use crate::encoding::write_value;
use asn_codec::no_text_encoded;
use asn_core::Codec;
use asn_dynamic_values::DynValue;
use asn_fault::EncodeError;
use asn_model::Shape;
use asn_parts::Part;
use avn_rules::avn;
use jer_rules::jer;
use std::alloc::Global;

/// Returns the canonical text of a value of the shape.
///
/// # Errors
///
/// `OutOfMemory`; `Custom` where the codec is no text notation; else the kind of the first part of
/// the value that the notation cannot encode.
pub fn write(
    alloc: Global,
    notation: Codec,
    shape: &Shape,
    value: &DynValue,
) -> Result<String, EncodeError>
    requires readable { is_readable (shape_view shape.now) ≡ true }
    requires fits { Fits (shape_view shape.now) (dyn_value value.now) }
    // Each clause is that of `write_part` of this shape.
    ensures text { IfOk result (λ s. string_bytes s
        ≡ canonical_text (notation_of notation) (dyn_value value.now)) }
    ensures reads_back { IfOk result (λ s. (limit : ℕ)
        → ReadsBack limit (notation_of notation) (dyn_value value.now) (string_bytes s)) }
    ensures notation { OnOk result (IsText (notation_of notation)) }
    ensures writable { OnOk result (Writable (notation_of notation) (dyn_value value.now)) }
    ensures refused { IfErr result (λ e. ((is_encode_out_of_memory (encode_cause e.kind) ≡ true)
        ⊎ IsUnencodable notation (dyn_value value.now) (encode_cause e.kind))
        × (e.codec ≡ notation)) }
    ensures complete { IsText (notation_of notation)
        → Writable (notation_of notation) (dyn_value value.now)
        → IfErr result (λ e. is_encode_out_of_memory (encode_cause e.kind) ≡ true) }
{
    write_part(alloc, notation, shape, value)
}

/// Does the same by a part of a type, around which no loop is open. The value has all names that
/// are written, so the part is for the contract alone.
///
/// # Errors
///
/// Those of `write`.
pub fn write_part<P: Part>(
    alloc: Global,
    notation: Codec,
    part: P,
    value: &DynValue,
) -> Result<String, EncodeError>
    requires readable { is_readable (P.shape [] part) ≡ true }
    requires fits { Fits (P.shape [] part) (dyn_value value.now) }
    // The text is the canonical one of the value.
    ensures text { IfOk result (λ s. string_bytes s
        ≡ canonical_text (notation_of notation) (dyn_value value.now)) }
    // The text is read as the tree that is written for the value, in AVN in normal form and with
    // every limit on its levels, unless it nests deeper than texts are read.
    ensures reads_back { IfOk result (λ s. (limit : ℕ)
        → ReadsBack limit (notation_of notation) (dyn_value value.now) (string_bytes s)) }
    // A text comes from a text notation alone, of a value that it can encode.
    ensures notation { OnOk result (IsText (notation_of notation)) }
    ensures writable { OnOk result (Writable (notation_of notation) (dyn_value value.now)) }
    // An error states the first part that cannot be encoded, or that memory ran out; either way it
    // names this codec.
    ensures refused { IfErr result (λ e. ((is_encode_out_of_memory (encode_cause e.kind) ≡ true)
        ⊎ IsUnencodable notation (dyn_value value.now) (encode_cause e.kind))
        × (e.codec ≡ notation)) }
    // What can be encoded is encoded, unless memory runs out.
    ensures complete { IsText (notation_of notation)
        → Writable (notation_of notation) (dyn_value value.now)
        → IfErr result (λ e. is_encode_out_of_memory (encode_cause e.kind) ≡ true) }
{
    match notation {
        Codec::Jer => write_jer(alloc, value),
        Codec::Avn => write_avn(alloc, part, value),
        _ => Err(no_text_encoded(alloc, notation)),
    }
}

/// Returns the JSON text of a value.
fn write_jer(alloc: Global, value: &DynValue) -> Result<String, EncodeError>
    ensures text { IfOk result (λ s. string_bytes s
        ≡ canonical_text Notation.jer (dyn_value value.now)) }
    ensures reads_back { IfOk result (λ s. jer.ReadsBack (dyn_value value.now) (string_bytes s)) }
    ensures writable { OnOk result (Writable Notation.jer (dyn_value value.now)) }
    ensures refused { IfErr result (FailsToEncode Notation.jer (dyn_value value.now)) }
    ensures complete { Writable Notation.jer (dyn_value value.now)
        → IfErr result (IsOutOfMemory Notation.jer) }
{
    let mut encoder = jer::enc::Encoder::new(alloc);
    write_value(&mut encoder, value)?;
    encoder.to_string()
}

/// Returns the text of a value in the value notation.
fn write_avn<P: Part>(alloc: Global, part: P, value: &DynValue) -> Result<String, EncodeError>
    requires readable { is_readable (P.shape [] part) ≡ true }
    requires fits { Fits (P.shape [] part) (dyn_value value.now) }
    ensures text { IfOk result (λ s. string_bytes s
        ≡ canonical_text Notation.avn (dyn_value value.now)) }
    ensures reads_back { IfOk result (λ s. (limit : ℕ)
        → avn.ReadsBack limit (dyn_value value.now) (string_bytes s)) }
    ensures writable { OnOk result (Writable Notation.avn (dyn_value value.now)) }
    ensures refused { IfErr result (FailsToEncode Notation.avn (dyn_value value.now)) }
    ensures complete { Writable Notation.avn (dyn_value value.now)
        → IfErr result (IsOutOfMemory Notation.avn) }
{
    let mut encoder = avn::enc::Encoder::new(alloc);
    write_value(&mut encoder, value)?;
    encoder.to_string()
}
