//! Decodes `WithNullOpt` field by field.
ghost use Rattle.asn_by_hand.specs.WithNullOpt.{with_null_opt_value};
ghost use Rattle.asn_coding.specs.Answer.{Answer};
ghost use Rattle.asn_coding.specs.Scopes.{ScopeAnswer};
ghost use Rattle.asn_fault.specs.Failure.{failure_of};
ghost use Rattle.asn_model.specs.Shape.{FieldAdditions, field_names};
ghost use Rattle.asn_model.specs.Tree.{Slot};
ghost use Rattle.asn_sample_fields.specs.WithNullOpt.{with_null_opt_fields, with_null_opt_shape};
ghost use Rattle.std.specs.Prelude.{◌≡◌, ◌++◌, List, length};

use asn_core::Tag;
use asn_fault::DecodeError;
use asn_fields::{read_field, read_optional_field};
use asn_sample_fields::WithNullOpt;
use asn_traits::{Constructed, Decoder, FieldNames};

/// Decodes a `WithNullOpt`: its fields in the order in which they are declared.
///
/// # Errors
///
/// Those of the fields, by the first one in that order that can't be decoded; a type mismatch where
/// the slot has no members, and the end of input where there is no slot; `OutOfMemory`.
pub fn read_with_null_opt<D: Decoder>(decoder: &mut D) -> Result<WithNullOpt, DecodeError>
    ensures { Answer D.notation with_null_opt_shape with_null_opt_value (D.pending decoder.old)
        result (D.pending decoder.new) }
{
    decoder.decode_sequence(
        Tag::SEQUENCE,
        |decoder: &mut D| -> Result<WithNullOpt, DecodeError>
            ensures { (slots rest : List Slot) → D.pending decoder.old ≡ slots ++ rest
                → length slots ≡ length (field_names with_null_opt_fields)
                → ScopeAnswer failure_of D.notation with_null_opt_fields
                FieldAdditions.closed_fields with_null_opt_value slots rest result
                (D.pending decoder.new) }
        {
            // Each call takes the next name, under which it refuses.
            let mut names = FieldNames::new(WithNullOpt::field_table().items, &[]);
            Ok(WithNullOpt {
                name: read_field(decoder, &mut names)?,
                flag: read_optional_field(decoder, &mut names)?,
            })
        },
    )
}
