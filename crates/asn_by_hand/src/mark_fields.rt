//! Decodes `MarkSet` field by field.
ghost use Rattle.asn_by_hand.specs.MarkFields.{mark_component, mark_number, mark_slot};
ghost use Rattle.asn_by_hand.specs.MarkFields.{mark_set_value, note_component};
ghost use Rattle.asn_fault.specs.Failure.{failure_of};
ghost use Rattle.asn_model.specs.Components.{Component};
ghost use Rattle.asn_model.specs.Shape.{FieldAdditions};
ghost use Rattle.asn_sample_fields.specs.MarkSet.{mark_set_fields, mark_set_shape};
ghost use Rattle.asn_coding.specs.Answer.{Answer};
ghost use Rattle.asn_traits.specs.Notation.{Notation};
ghost use Rattle.asn_coding.specs.SetFields.{PlaceAnswer, SetAnswer, component_at};
ghost use Rattle.asn_coding.specs.SetFields.{listed_components};
ghost use Rattle.std.specs.Prelude.{◌≡◌, ◌∷◌, [], Some, map};

use asn_core::Tag;
use asn_fault::DecodeError;
use asn_sample_fields::MarkSet;
use asn_traits::{Decode, Decoder, SetField};

/// Holds what was decoded of one field of a `MarkSet`.
#[derive(Drop)]
pub enum MarkField {
    /// Holds the number.
    Mark(i64),
    /// Holds the text, if it is present.
    Note(Option<String>),
}

/// Has the places in which `MarkSet` lists its fields.
impl SetField for MarkField {
    ghost number = { mark_number };

    ghost slot = { mark_slot };

    fn place(&self) -> usize {
        match self {
            MarkField::Mark(_) => 0,
            MarkField::Note(_) => 1,
        }
    }
}

/// Decodes the first pending slot as the field `mark`.
///
/// # Errors
///
/// Those of an `i64` within `FieldError`; `OutOfMemory` without it.
fn read_mark<D: Decoder>(decoder: &mut D) -> Result<MarkField, DecodeError>
    ensures { PlaceAnswer failure_of mark_number mark_slot D.notation 0 mark_component
        (D.pending decoder.old) result (D.pending decoder.new) }
{
    match i64::decode(decoder) {
        Ok(mark) => Ok(MarkField::Mark(mark)),
        Err(error) => Err(DecodeError::field_error(
            decoder.allocator(),
            "mark",
            error,
            decoder.codec(),
        )),
    }
}

/// Decodes the first pending slot as the field `note`.
///
/// # Errors
///
/// Those of a `String` within `FieldError`; `OutOfMemory` without it.
fn read_note<D: Decoder>(decoder: &mut D) -> Result<MarkField, DecodeError>
    ensures { PlaceAnswer failure_of mark_number mark_slot D.notation 1 note_component
        (D.pending decoder.old) result (D.pending decoder.new) }
{
    match decoder.decode_optional::<String>() {
        Ok(note) => Ok(MarkField::Note(note)),
        Err(error) => Err(DecodeError::field_error(
            decoder.allocator(),
            "note",
            error,
            decoder.codec(),
        )),
    }
}

/// Decodes a `MarkSet`: `note` first, since its tag is the smaller one.
///
/// # Errors
///
/// Those of the fields, by the first one in that order that can't be decoded; a type mismatch where
/// the slot has no members, and the end of input where there is no slot; `OutOfMemory`.
pub fn read_mark_set<D: Decoder>(decoder: &mut D) -> Result<MarkSet, DecodeError>
    ensures { Answer D.notation mark_set_shape mark_set_value (D.pending decoder.old) result
        (D.pending decoder.new) }
{
    decoder.decode_set(
        Tag::SET,
        |decoder: &mut D, place: usize, tag: Tag| -> Result<MarkField, DecodeError>
            ensures { (c : Component)
                → component_at (listed_components mark_set_fields FieldAdditions.closed_fields)
                place ≡ Some c
                → c.tag ≡ tag
                → PlaceAnswer failure_of mark_number mark_slot D.notation place c
                (D.pending decoder.old) result (D.pending decoder.new) }
        {
            match tag {
                Tag::CONTEXT_1 => read_mark(decoder),
                _ => read_note(decoder),
            }
        },
        |mut fields: Vec<MarkField>| -> Result<MarkSet, DecodeError>
            requires { map mark_number fields.items ≡ 1 ∷ 0 ∷ [] }
            ensures { (n : Notation) → SetAnswer failure_of n mark_slot mark_set_fields
                FieldAdditions.closed_fields mark_set_value fields.items result }
        {
            // They come in the order in which they were read.
            let Some(MarkField::Mark(mark)) = fields.pop() else {
                unreachable!()
            };
            let Some(MarkField::Note(note)) = fields.pop() else {
                unreachable!()
            };
            Ok(MarkSet { mark, note })
        },
    )
}
