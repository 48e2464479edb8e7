//! Decides what is read of a field's slot and what is kept of its value, and opens the slots of all
//! fields.
ghost use Rattle.asn_coding.specs.Answer.{Refuses};
ghost use Rattle.asn_coding.specs.Opening.{PutsMembers};
ghost use Rattle.asn_coding.specs.Tables.{ListsFields};
ghost use Rattle.asn_coding.specs.SetFields.{kept_slot};
ghost use Rattle.asn_dynamic_faults.specs.DynFailure.{dyn_failure};
ghost use Rattle.asn_dynamic_reading.specs.Fields.{AbsenceAnswer};
ghost use Rattle.asn_dynamic_values.specs.DynView.{dyn_value};
ghost use Rattle.asn_model.specs.Components.{Standing};
ghost use Rattle.asn_model.specs.FailsWith.{FailsWith};
ghost use Rattle.asn_model.specs.Shape.{Fields, FieldAdditions, Presence, are_distinct};
ghost use Rattle.asn_model.specs.Shape.{Shape as AbstractShape};
ghost use Rattle.asn_model.specs.ShapeView.{kind_view, presence_view};
ghost use Rattle.asn_model.specs.Tree.{head_slot};
ghost use Rattle.asn_model.specs.Value.{may_lack};
ghost use Rattle.asn_names.specs.Rows.{row_names};
ghost use Rattle.asn_parts.specs.Parts.{standing_of};
ghost use Rattle.std.specs.Prelude.{◌≡◌, IfErr, OnOk, Some, option_map, true};

use crate::told::{missing, repeated, told, within};
use asn_coding::{NameList, Opened};
use asn_decode::Decoder;
use asn_dynamic_faults::DynError;
use asn_dynamic_values::{DynValue, is_plain};
use asn_model::{PresenceShape, SeqKind};

/// Puts the slots of the fields of these names in the place of the first pending slot.
///
/// # Errors
///
/// A type mismatch where the slot has no members; `DuplicateField` where the name of a field stands
/// at two entries; `OutOfMemory`.
pub fn open_fields<D: Decoder, N: NameList>(
    decoder: &mut D,
    kind: SeqKind,
    names: &N,
) -> Result<(), DynError>
    requires { are_distinct (row_names (N.rows names.now)) ≡ true }
    ensures opened { OnOk result (PutsMembers D.notation (N.rows names.now) (D.pending decoder.old)
        (D.pending decoder.new)) }
    ensures refused { IfErr result (λ e. (fs : Fields) (added : FieldAdditions)
        → ListsFields (N.rows names.now) fs added → Refuses D.notation (FailsWith D.notation
        (AbstractShape.seq (kind_view kind) fs added) (head_slot (D.pending decoder.old)))
        (dyn_failure e)) }
{
    match decoder.open_members(kind, names) {
        Ok(Opened::Members) => Ok(()),
        Ok(Opened::Repeated(place)) => Err(repeated(decoder, names.name(place))),
        Err(error) => Err(told(decoder, error)),
    }
}

/// Takes the first pending slot if it is absent and the field may be, and returns whether it did.
/// Whether a required field of the root is there is left to its type.
///
/// # Errors
///
/// `MissingField` where an extension addition that is required is absent; the end of input where no
/// slot is pending; `OutOfMemory`.
pub fn take_absent_field<D: Decoder>(
    decoder: &mut D,
    presence: &PresenceShape,
    is_addition: bool,
    name: &str,
) -> Result<bool, DynError>
    ensures { AbsenceAnswer D.notation (presence_view presence.now) (standing_of is_addition)
        name.now (D.pending decoder.old) result (D.pending decoder.new) }
{
    match presence {
        PresenceShape::Required => take_absent_required(decoder, is_addition, name),
        PresenceShape::Optional => take_absent_optional(decoder, name),
        PresenceShape::Default(_) => take_absent_optional(decoder, name),
    }
}

/// Refuses the first pending slot if it is absent, for an extension addition that is required.
fn take_absent_required<D: Decoder>(
    decoder: &mut D,
    is_addition: bool,
    name: &str,
) -> Result<bool, DynError>
    ensures { AbsenceAnswer D.notation Presence.required (standing_of is_addition) name.now
        (D.pending decoder.old) result (D.pending decoder.new) }
{
    if !is_addition {
        return Ok(false);
    }
    match decoder.take_absent() {
        Ok(true) => Err(missing(decoder, name)),
        Ok(false) => Ok(false),
        Err(error) => {
            let error = told(decoder, error);
            Err(within(decoder, name, error))
        }
    }
}

/// Takes the first pending slot if it is absent, for a field that may be.
fn take_absent_optional<D: Decoder>(decoder: &mut D, name: &str) -> Result<bool, DynError>
    ensures { (presence : Presence) (standing : Standing) → may_lack presence ≡ true
        → AbsenceAnswer D.notation presence standing name.now (D.pending decoder.old) result
        (D.pending decoder.new) }
{
    match decoder.take_absent() {
        Ok(is_absent) => Ok(is_absent),
        Err(error) => {
            let error = told(decoder, error);
            Err(within(decoder, name, error))
        }
    }
}

/// Returns the value of a field unless it is the field's default, which is left out.
pub fn kept_value(presence: &PresenceShape, value: DynValue) -> Option<DynValue>
    ensures { option_map dyn_value result
        ≡ kept_slot (presence_view presence.now) (Some (dyn_value value)) }
{
    match presence {
        PresenceShape::Default(plain) => {
            if is_plain(plain, &value) {
                None
            } else {
                Some(value)
            }
        }
        PresenceShape::Required => Some(value),
        PresenceShape::Optional => Some(value),
    }
}
