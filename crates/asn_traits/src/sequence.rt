//! Describes a SEQUENCE or SET by its fields (X.680, sections 25 and 27). A type implements
//! `SequenceFields`, with one call a field to encode it and one to decode it; what every SEQUENCE
//! and SET has is given here once.
ghost use Rattle.asn_fault.specs.Failure.{failure_of};
ghost use Rattle.asn_coding.specs.Answer.{Answer};
ghost use Rattle.asn_coding.specs.FieldAnswer.Ahead.{ahead};
ghost use Rattle.asn_coding.specs.Passing.{AddsFields, RefusesAdding, RefusesFields, TakesFields};
ghost use Rattle.asn_model.specs.Components.{component_names, reading_order};
ghost use Rattle.asn_model.specs.Readable.{is_readable};
ghost use Rattle.asn_coding.specs.ReadingSlots.{slots_read};
ghost use Rattle.asn_model.specs.Shape.{Shape as AbstractShape, Fields as AbstractFields};
ghost use Rattle.asn_model.specs.Shape.{FieldAdditions, all_fields};
ghost use Rattle.asn_model.specs.ShapeView.{shape_view};
ghost use Rattle.asn_coding.specs.Tables.{ListsFields, added_rows, field_rows, name_rows};
ghost use Rattle.asn_coding.specs.Tables.{names_of, rows_of};
ghost use Rattle.asn_coding.specs.Writing.{FailsToEncode, Frame, Written};
ghost use Rattle.asn_coding.specs.Writing.{members_value};
ghost use Rattle.std.specs.Prelude.{◌≡◌, ◌++◌, IfErr, IfOk, OnOk, option_map, true};

use crate::FieldsKind;
use asn_coding::{Field, FieldNames, fields_by_tag, listed};
use asn_core::{Identifier, OutOfMemory, Tag};
use asn_decode::Decoder;
use asn_encode::Encoder;
use asn_fault::{DecodeError, EncodeError};
use asn_model::{SeqKind, Shape};
use asn_types::OfKind;
use std::alloc::Global;

/// Describes a SEQUENCE or SET, by its kind, that is encoded and decoded field by field.
pub trait SequenceFields: OfKind + Drop
where
    Self::Kind: FieldsKind,
{
    /// Lists the root fields, in order.
    const ROWS: &'static [Field];

    /// Lists the extension additions, in order, and is `None` exactly where there is no extension
    /// marker.
    const ADDED: Option<&'static [Field]> = None;

    // The fields of the root, each with its name, tag, presence and the shape of its type.
    ghost fields: { AbstractFields };

    // The extension additions, if there is a marker.
    ghost added: { FieldAdditions } = { FieldAdditions.closed_fields };

    // The values of the fields, in order, extension additions last: one slot for each, absent
    // where the field is.
    ghost slots: { Self → Frame };

    /// Returns `ROWS`, which state of the fields their places, smallest tags, presence and names.
    fn listed() -> &'static [Field]
        ensures { rows_of result.now ≡ field_rows 0 fields };

    /// Returns `ADDED`, which states the same of the extension additions. Their places go on from
    /// those of the root.
    fn listed_added() -> Option<&'static [Field]>
        ensures { option_map (λ t. rows_of t.now) result ≡ added_rows fields added };

    /// Returns the shape of the type, as a value.
    ///
    /// # Errors
    ///
    /// `OutOfMemory` alone.
    fn sequence_shape(alloc: Global) -> Result<Shape, OutOfMemory>
        ensures { IfOk result (λ s. shape_view s
            ≡ AbstractShape.seq Self.Kind.seq_kind fields added) };

    /// Encodes the fields, by one call of `write_field`, `write_optional_field` or
    /// `write_default_field` for each, in order.
    ///
    /// # Errors
    ///
    /// Those of the first field that can't be encoded.
    fn write_fields<E: Encoder>(&self, encoder: &mut E) -> Result<(), EncodeError>
        ensures written { OnOk result (AddsFields E.holds E.notation (all_fields fields added)
            (slots self.now) encoder.old encoder.new) }
        ensures refused { IfErr result (RefusesAdding E.holds E.notation (all_fields fields added)
            (slots self.now) encoder.old) };

    /// Decodes the fields, by one call of `read_field`, `read_optional_field`, `read_default_field`
    /// or `read_addition` for each: those of a SEQUENCE in order, those of a SET in the order of
    /// their tags, and then the extension additions. Each call takes the field's name from `names`.
    ///
    /// # Errors
    ///
    /// Those of the first field that can't be decoded, within its `FieldError`; `MissingField` for
    /// a required extension addition that is absent; `OutOfMemory` without the field.
    fn read_fields<D: Decoder>(decoder: &mut D, names: &mut FieldNames) -> Result<Self, DecodeError>
        ensures read { IfOk result (λ x. TakesFields D.notation
            (reading_order Self.Kind.seq_kind fields added)
            (slots_read Self.Kind.seq_kind fields (slots x))
            (ahead names.old (D.pending decoder.old))
            (ahead names.new (D.pending decoder.new))) }
        ensures refused { IfErr result (λ e. RefusesFields D.notation
            (reading_order Self.Kind.seq_kind fields added)
            (ahead names.old (D.pending decoder.old)) (failure_of e)) };

    // The shape can be read.
    ghost readable: { is_readable (AbstractShape.seq Self.Kind.seq_kind fields added) ≡ true };
}

/// Encodes a SEQUENCE or SET: opens a frame, adds a slot for each field, and closes the frame as
/// named members.
///
/// # Errors
///
/// Those of `write_fields`; `OutOfMemory`.
pub fn write_sequence<T: SequenceFields, E: Encoder>(
    value: &T,
    encoder: &mut E,
    tag: Tag,
    identifier: Identifier,
) -> Result<(), EncodeError>
where
    T::Kind: FieldsKind,
    ensures written { OnOk result (Written E.holds E.notation
        (AbstractShape.seq T.Kind.seq_kind T.fields T.added)
        (members_value (all_fields T.fields T.added) (T.slots value.now)) encoder.old encoder.new) }
    ensures refused { IfErr result (FailsToEncode E.notation
        (members_value (all_fields T.fields T.added) (T.slots value.now))) }
{
    // A SET is encoded as a SEQUENCE is: its slots stand as the type lists its fields.
    let additions = listed(T::listed_added());
    encoder.open_frame()?;
    value.write_fields(encoder)?;
    encoder.close_fields(T::listed(), additions)
}

/// Decodes a SEQUENCE or SET: puts a slot for each field, whatever their order in the text, and
/// decodes the fields from these.
///
/// # Errors
///
/// Those of `read_fields`; a type mismatch where the slot's tree has no members, in AVN
/// `DuplicateField` where a field's name stands at two present entries, and the end of input where
/// the slot is absent or none is pending; `OutOfMemory`.
pub fn read_sequence<T: SequenceFields, D: Decoder>(decoder: &mut D) -> Result<T, DecodeError>
where
    T::Kind: FieldsKind,
    ensures { Answer D.notation (AbstractShape.seq T.Kind.seq_kind T.fields T.added)
        (λ x. members_value (all_fields T.fields T.added) (T.slots x))
        (D.pending decoder.old) result (D.pending decoder.new) }
{
    let additions = listed(T::listed_added());
    match <T::Kind as FieldsKind>::seq_kind() {
        SeqKind::Sequence => read_members(decoder, T::listed(), additions),
        SeqKind::Set => {
            let Ok(root) = fields_by_tag(decoder.allocator(), T::listed()) else {
                return Err(DecodeError::out_of_memory(decoder.codec()));
            };
            read_members(decoder, root.as_slice(), additions)
        }
    }
}

/// Decodes a SEQUENCE or SET by the tables of its root fields, in the order in which they are read,
/// and of its extension additions.
///
/// # Errors
///
/// Those of `read_sequence`.
fn read_members<T: SequenceFields, D: Decoder>(
    decoder: &mut D,
    root: &[Field],
    additions: &[Field],
) -> Result<T, DecodeError>
where
    T::Kind: FieldsKind,
    requires rows { ListsFields (name_rows (root.now ++ additions.now)) T.fields T.added }
    requires names { names_of root.now ++ names_of additions.now
        ≡ component_names (reading_order T.Kind.seq_kind T.fields T.added) }
    ensures { Answer D.notation (AbstractShape.seq T.Kind.seq_kind T.fields T.added)
        (λ x. members_value (all_fields T.fields T.added) (T.slots x))
        (D.pending decoder.old) result (D.pending decoder.new) }
{
    decoder.open_fields(<T::Kind as FieldsKind>::seq_kind(), root, additions)?;
    let mut names = FieldNames::new(root, additions);
    match T::read_fields(decoder, &mut names) {
        Ok(value) => Ok(value),
        Err(error) => Err(error),
    }
}
