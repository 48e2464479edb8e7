//! Describes groups of fields, for a SEQUENCE of more fields than one function is proved with: the
//! tactics find the proof of about eight calls in a row.
ghost use Rattle.asn_fault.specs.Failure.{failure_of};
ghost use Rattle.asn_coding.specs.FieldAnswer.Ahead.{ahead};
ghost use Rattle.asn_coding.specs.Passing.{AddsFields, RefusesAdding, RefusesFields, TakesFields};
ghost use Rattle.asn_model.specs.Components.{Standing, components};
ghost use Rattle.asn_model.specs.Shape.{Fields as AbstractFields, join_fields};
ghost use Rattle.asn_coding.specs.Writing.{Frame};
ghost use Rattle.std.specs.Prelude.{◌++◌, IfErr, IfOk, OnOk};

use asn_coding::FieldNames;
use asn_decode::Decoder;
use asn_encode::Encoder;
use asn_fault::{DecodeError, EncodeError};

/// Describes fields that stand one after another in a SEQUENCE, as COMPONENTS OF puts them
/// there.
///
/// A SEQUENCE of more than eight fields is a struct of two groups, and a group may be one too.
pub trait FieldGroup: Sized + Drop {
    // The fields, in order.
    ghost group: { AbstractFields };

    // The values of the fields, in order: one slot for each, absent where the field is.
    ghost group_slots: { Self → Frame };

    /// Encodes the fields, by one call of `write_field`, `write_optional_field` or
    /// `write_default_field` for each, in order.
    ///
    /// # Errors
    ///
    /// Those of the first field that can't be encoded.
    fn write_group<E: Encoder>(&self, encoder: &mut E) -> Result<(), EncodeError>
        ensures written { OnOk result (AddsFields E.holds E.notation group (group_slots self.now)
            encoder.old encoder.new) }
        ensures refused { IfErr result
            (RefusesAdding E.holds E.notation group (group_slots self.now)
            encoder.old) };

    /// Decodes the fields, by one call of `read_field`, `read_optional_field` or
    /// `read_default_field` for each, in order. Each call takes the field's name from `names`.
    ///
    /// # Errors
    ///
    /// Those of the first field that can't be decoded, within its `FieldError`; `OutOfMemory`
    /// without the field.
    fn read_group<D: Decoder>(decoder: &mut D, names: &mut FieldNames) -> Result<Self, DecodeError>
        ensures read { IfOk result (λ x. TakesFields D.notation
            (components Standing.root group) (group_slots x)
            (ahead names.old (D.pending decoder.old))
            (ahead names.new (D.pending decoder.new))) }
        ensures refused { IfErr result (λ e. RefusesFields D.notation
            (components Standing.root group) (ahead names.old (D.pending decoder.old))
            (failure_of e)) };
}

/// Encodes the fields of two groups, one group after the other: the body of `write_fields` for a
/// SEQUENCE of two groups.
///
/// # Errors
///
/// Those of the groups.
#[tactic(auto, using(asn_coding::proofs::Grouping::group_steps))]
pub fn write_groups<A: FieldGroup, B: FieldGroup, E: Encoder>(
    encoder: &mut E,
    first: &A,
    second: &B,
) -> Result<(), EncodeError>
    ensures written { OnOk result (AddsFields E.holds E.notation (join_fields A.group B.group)
        (A.group_slots first.now ++ B.group_slots second.now) encoder.old encoder.new) }
    ensures refused { IfErr result (RefusesAdding E.holds E.notation (join_fields A.group B.group)
        (A.group_slots first.now ++ B.group_slots second.now) encoder.old) }
{
    first.write_group(encoder)?;
    second.write_group(encoder)?;
    Ok(())
}

/// Decodes the fields of two groups, one group after the other: the body of `read_fields` for a
/// SEQUENCE of two groups.
///
/// # Errors
///
/// Those of the groups.
#[tactic(auto, using(asn_coding::proofs::Grouping::group_steps))]
pub fn read_groups<A: FieldGroup, B: FieldGroup, D: Decoder>(
    decoder: &mut D,
    names: &mut FieldNames,
) -> Result<(A, B), DecodeError>
    ensures read { IfOk result (λ x. TakesFields D.notation
        (components Standing.root (join_fields A.group B.group))
        (A.group_slots x.0 ++ B.group_slots x.1) (ahead names.old (D.pending decoder.old))
        (ahead names.new (D.pending decoder.new))) }
    ensures refused { IfErr result (λ e. RefusesFields D.notation
        (components Standing.root (join_fields A.group B.group))
        (ahead names.old (D.pending decoder.old)) (failure_of e)) }
{
    let first = A::read_group(decoder, names)?;
    let second = B::read_group(decoder, names)?;
    Ok((first, second))
}
