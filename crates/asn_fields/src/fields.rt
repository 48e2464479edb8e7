//! Encodes and decodes the fields of a SEQUENCE or SET, one after another. A decoder has put a slot
//! for each field before, found by its name in the text; so a field is the first pending slot,
//! present or absent, and its name is the next of `FieldNames`.
ghost use Rattle.asn_core.specs.declared.codec.Codec.{Codec};
ghost use Rattle.asn_fault.specs.Failure.{Cause, at_root, failure_of, wrapped};
ghost use Rattle.asn_coding.specs.Answer.{OptionalFailsWith, Refuses};
ghost use Rattle.asn_coding.specs.FieldAnswer.{AdditionFailsWith, AddsSlot, TakesField};
ghost use Rattle.asn_coding.specs.FieldAnswer.{TakesDefault, WithinField};
ghost use Rattle.asn_coding.specs.FieldAnswer.Ahead.{ahead};
ghost use Rattle.asn_model.specs.Notation.{notation_of};
ghost use Rattle.asn_model.specs.FailsWith.{FailsWith};
ghost use Rattle.asn_model.specs.Tree.{head_slot};
ghost use Rattle.asn_coding.specs.Writing.{FailsToFill, head_name};
ghost use Rattle.std.specs.Prelude.{◌≡◌, ◌⊎◌, Some, None, [], ◌∷◌, option_map, IfOk, OnOk, IfErr};
ghost use Rattle.std.specs.Prelude.{if◌then◌else◌};

use asn_coding::FieldNames;
use asn_core::Identifier;
use asn_decode::{Decode, Decoder};
use asn_encode::{Encode, Encoder};
use asn_fault::{DecodeError, EncodeError};

/// Returns the error within `FieldError` with the field's name, and by the decoder's codec. Want of
/// memory stays as it is, and is returned where memory runs out here.
pub fn within_field<D: Decoder>(decoder: &D, name: &'static str, error: DecodeError) -> DecodeError
    ensures { (codec : Codec) × (notation_of codec ≡ D.notation)
        × ((failure_of result ≡ wrapped name.now codec (failure_of error))
        ⊎ (failure_of result ≡ at_root Cause.out_of_memory codec)) }
{
    DecodeError::field_error(decoder.allocator(), name, error, decoder.codec())
}

/// Decodes the first pending slot as a field that has to be present, and takes its name from
/// `names`.
///
/// # Errors
///
/// Those of the field's type within `FieldError` with that name; where the slot is absent or none
/// is pending, that is the end of input. `OutOfMemory` without the field.
pub fn read_field<T: Decode, D: Decoder>(
    decoder: &mut D,
    names: &mut FieldNames,
) -> Result<T, DecodeError>
    ensures read { IfOk result (λ x. TakesField D.notation T.shape_of
        (ahead names.old (D.pending decoder.old)) (ahead names.new (D.pending decoder.new))
        (Some (T.value_of x))) }
    ensures refused { IfErr result (λ e. Refuses D.notation (WithinField (head_name names.old)
        (FailsWith D.notation T.shape_of (head_slot (D.pending decoder.old)))) (failure_of e)) }
{
    // The name is taken first, since an error in the field names it too.
    let name = names.take_first();
    match T::decode(decoder) {
        Ok(value) => Ok(value),
        Err(error) => Err(within_field(decoder, name, error)),
    }
}

/// Decodes the first pending slot as a field that may be absent, `None` where it is, and takes its
/// name from `names`.
///
/// # Errors
///
/// Those of the field's type, or the end of input where no slot is pending, within `FieldError`
/// with that name; `OutOfMemory` without the field.
pub fn read_optional_field<T: Decode, D: Decoder>(
    decoder: &mut D,
    names: &mut FieldNames,
) -> Result<Option<T>, DecodeError>
    ensures read { IfOk result (λ x. TakesField D.notation T.shape_of
        (ahead names.old (D.pending decoder.old)) (ahead names.new (D.pending decoder.new))
        (option_map T.value_of x)) }
    ensures refused { IfErr result (λ e. Refuses D.notation (WithinField (head_name names.old)
        (OptionalFailsWith D.notation T.shape_of (D.pending decoder.old))) (failure_of e)) }
{
    // The name is taken where the slot is absent, too: names and slots go along together.
    let name = names.take_first();
    match decoder.decode_optional::<T>() {
        Ok(value) => Ok(value),
        Err(error) => Err(within_field(decoder, name, error)),
    }
}

/// Decodes the first pending slot as an extension addition that has to be present, and takes its
/// name from `names`.
///
/// # Errors
///
/// `MissingField` with that name where the slot is absent, without a `FieldError` of it; those of
/// the field's type, or the end of input where no slot is pending, within `FieldError` with that
/// name; `OutOfMemory` without the field.
pub fn read_addition<T: Decode, D: Decoder>(
    decoder: &mut D,
    names: &mut FieldNames,
) -> Result<T, DecodeError>
    ensures read { IfOk result (λ x. TakesField D.notation T.shape_of
        (ahead names.old (D.pending decoder.old)) (ahead names.new (D.pending decoder.new))
        (Some (T.value_of x))) }
    ensures refused { IfErr result (λ e. Refuses D.notation (AdditionFailsWith D.notation T.shape_of
        (head_name names.old) (D.pending decoder.old)) (failure_of e)) }
{
    let name = names.take_first();
    match decoder.decode_optional::<T>() {
        Ok(Some(value)) => Ok(value),
        Ok(None) => Err(DecodeError::missing_field(name, decoder.codec())),
        Err(error) => Err(within_field(decoder, name, error)),
    }
}

/// Decodes the first pending slot as a field with a default, which is returned where the slot is
/// absent, and takes its name from `names`.
///
/// # Errors
///
/// Those of the field's type, or the end of input where no slot is pending, within `FieldError`
/// with that name; `OutOfMemory` without the field.
pub fn read_default_field<T: Decode, D: Decoder>(
    decoder: &mut D,
    names: &mut FieldNames,
    default: T,
) -> Result<T, DecodeError>
    ensures read { IfOk result (λ x. TakesDefault D.notation T.shape_of
        (ahead names.old (D.pending decoder.old)) (ahead names.new (D.pending decoder.new))
        (T.value_of default) (T.value_of x)) }
    ensures refused { IfErr result (λ e. Refuses D.notation (WithinField (head_name names.old)
        (OptionalFailsWith D.notation T.shape_of (D.pending decoder.old))) (failure_of e)) }
{
    match read_optional_field::<T, D>(decoder, names) {
        Ok(Some(value)) => Ok(value),
        Ok(None) => Ok(default),
        Err(error) => Err(error),
    }
}

/// Encodes a field that has to be present: adds its value's slot to the open frame.
///
/// # Errors
///
/// Those of the field's type, without a `FieldError`.
pub fn write_field<T: Encode, E: Encoder>(encoder: &mut E, value: &T) -> Result<(), EncodeError>
    ensures written { OnOk result (AddsSlot E.holds E.notation T.shape_of encoder.old encoder.new
        (Some (T.value_of value.now))) }
    ensures refused { IfErr result (FailsToFill E.notation (Some (T.value_of value.now) ∷ [])) }
{
    encoder.encode_some::<T>(value, Identifier::EMPTY)
}

/// Encodes a field that may be absent: adds its value's slot to the open frame, or an absent one
/// where there is no value.
///
/// # Errors
///
/// Those of the field's type, without a `FieldError`; `OutOfMemory` alone for an absent value.
pub fn write_optional_field<T: Encode, E: Encoder>(
    encoder: &mut E,
    value: &Option<T>,
) -> Result<(), EncodeError>
    ensures written { OnOk result (AddsSlot E.holds E.notation T.shape_of encoder.old encoder.new
        (option_map T.value_of value.now)) }
    ensures refused { IfErr result (FailsToFill E.notation (option_map T.value_of value.now ∷ [])) }
{
    match value {
        Some(value) => encoder.encode_some::<T>(value, Identifier::EMPTY),
        None => encoder.encode_none::<T>(Identifier::EMPTY),
    }
}

/// Encodes a field with a default: adds its value's slot to the open frame, or an absent one where
/// `is_default` says that the value is the default.
///
/// # Errors
///
/// Those of the field's type, without a `FieldError`; `OutOfMemory` alone for a default.
pub fn write_default_field<T: Encode, E: Encoder>(
    encoder: &mut E,
    value: &T,
    is_default: bool,
) -> Result<(), EncodeError>
    ensures written { OnOk result (AddsSlot E.holds E.notation T.shape_of encoder.old encoder.new
        (if is_default then None else Some (T.value_of value.now))) }
    ensures refused { IfErr result (FailsToFill E.notation
        ((if is_default then None else Some (T.value_of value.now)) ∷ [])) }
{
    if is_default {
        encoder.encode_none::<T>(Identifier::EMPTY)
    } else {
        encoder.encode_some::<T>(value, Identifier::EMPTY)
    }
}
