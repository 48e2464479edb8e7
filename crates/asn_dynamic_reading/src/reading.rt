//! Reads a value by a part of a type, over the primitive calls of a decoder.
ghost use Rattle.asn_coding.specs.Answer.{Answer, AnswerBy};
ghost use Rattle.asn_coding.specs.Opening.{list_shape, list_value};
ghost use Rattle.asn_dynamic_faults.specs.DynFailure.{dyn_failure};
ghost use Rattle.asn_dynamic_reading.specs.Fields.{AreAbsent, FieldAnswer, field_meant};
ghost use Rattle.asn_dynamic_reading.specs.fitting.HeldValue.{AreHeldValues, IsHeldValue};
ghost use Rattle.asn_dynamic_values.specs.DynView.{dyn_value};
ghost use Rattle.asn_model.specs.Components.{component_names};
ghost use Rattle.asn_model.specs.Shape.{Fields, FieldAdditions};
ghost use Rattle.asn_model.specs.Shape.{Alternatives, AlternativeAdditions};
ghost use Rattle.asn_model.specs.Shape.{Shape as AbstractShape, SeqKind as AbstractSeqKind};
ghost use Rattle.asn_model.specs.ShapeView.{kind_view};
ghost use Rattle.asn_model.specs.Value.{values};
ghost use Rattle.asn_parts.specs.Chain.{bodies_of};
ghost use Rattle.asn_parts.specs.Bodies.{IsReadablePart, meant};
ghost use Rattle.asn_parts.specs.Listed.{PayloadBy, fields_in};
ghost use Rattle.std.specs.Prelude.{◌≡◌, ℕ, List, [], IfOk, IfSome, Option};

use crate::fields::{kept_value, open_fields, take_absent_field};
use crate::read_leaf;
use crate::told::{no_choice, out_of_memory, told, within};
use asn_core::OutOfMemory;
use asn_decode::Decoder;
use asn_dynamic_faults::DynError;
use asn_dynamic_values::{DynValue, bag, table};
use asn_fault::DecodeError;
use asn_model::{LeafKind, OwnedLeaf, SeqKind};
use asn_parts::{
    AlternativeNames, FieldNames, FieldsByTag, Loops, Part, PartAlternative, PartField, PartKind,
    from_loop, places_as_read,
};
use std::alloc::Global;

/// Reads the first pending slot by a part of a type, within the loops around it.
///
/// # Errors
///
/// Where and why the slot decodes to no value of what the part means; `OutOfMemory`.
#[cycle(read)]
pub fn read_value<D: Decoder, P: Part>(
    decoder: &mut D,
    part: P,
    loops: &Loops<'_, P>,
) -> Result<DynValue, DynError>
    requires { IsReadablePart P.shape (bodies_of loops.now) part }
    ensures answer { AnswerBy dyn_failure D.notation (meant P.shape (bodies_of loops.now) part)
        dyn_value (D.pending decoder.old) result (D.pending decoder.new) }
    ensures held { IfOk result (λ v. IsHeldValue (dyn_value v)) }
{
    match part.kind(&*loops) {
        PartKind::Leaf(leaf) => match read_leaf(decoder, leaf) {
            Ok(value) => Ok(value),
            Err(error) => Err(told(decoder, error)),
        },
        PartKind::Enumerated => match read_item(decoder, part) {
            Ok(value) => Ok(value),
            Err(error) => Err(of_kind(part, told(decoder, error))),
        },
        PartKind::Sequence => read_sequence(decoder, part, &*loops),
        PartKind::Set => read_set(decoder, part, &*loops),
        PartKind::ListOf(element) => {
            match read_elements(decoder, SeqKind::Sequence, element, &*loops) {
                Ok(items) => Ok(DynValue::List(items)),
                Err(error) => Err(error),
            }
        }
        PartKind::SetOf(element) => match read_elements(decoder, SeqKind::Set, element, &*loops) {
            Ok(items) => match bag(decoder.allocator(), items) {
                Ok(set) => Ok(set),
                Err(_) => Err(out_of_memory(decoder)),
            },
            Err(error) => Err(error),
        },
        PartKind::Table(entry) => {
            match read_elements(decoder, SeqKind::Sequence, entry, &*loops) {
                Ok(entries) => match table(decoder.allocator(), entries) {
                    Ok(table) => Ok(table),
                    Err(_) => Err(out_of_memory(decoder)),
                },
                Err(error) => Err(error),
            }
        }
        PartKind::Choice => read_choice(decoder, part, &*loops),
        PartKind::Loop(body) => {
            let inner = Loops::Within {
                body,
                outer: &*loops,
            };
            read_value(decoder, body, &inner)
        }
        PartKind::Back(number) => {
            let around = from_loop(&*loops, number);
            match around {
                Loops::Within { body, .. } => read_value(decoder, *body, &*around),
                Loops::Outermost => unreachable!(),
            }
        }
    }
}

/// Reads an item of an ENUMERATED, from its identifier.
fn read_item<D: Decoder, P: Part>(decoder: &mut D, part: P) -> Result<DynValue, DecodeError>
    ensures answer { (around : List P) (items : List (List ℕ)) (added : Option (List (List ℕ)))
        → P.shape around part ≡ AbstractShape.enum items added
        → Answer D.notation (AbstractShape.enum items added) dyn_value (D.pending decoder.old)
        result (D.pending decoder.new) }
    ensures held { IfOk result (λ v. IsHeldValue (dyn_value v)) }
{
    match decoder.take_leaf(LeafKind::Item) {
        Ok(OwnedLeaf::Item(text)) => {
            if part.has_item(text.as_str()) {
                Ok(DynValue::Item(text))
            } else {
                Err(decoder.no_item(text))
            }
        }
        Ok(_) => unreachable!(),
        Err(error) => Err(error),
    }
}

/// Reads the elements of a SEQUENCE OF or SET OF, in the order in which they stand. All room is
/// made for them at once, since their number is known.
#[cycle(read)]
fn read_elements<D: Decoder, P: Part>(
    decoder: &mut D,
    kind: SeqKind,
    element: P,
    loops: &Loops<'_, P>,
) -> Result<Vec<DynValue>, DynError>
    requires { IsReadablePart P.shape (bodies_of loops.now) element }
    ensures answer { AnswerBy dyn_failure D.notation
        (list_shape (kind_view kind) (meant P.shape (bodies_of loops.now) element))
        (λ vs. list_value (kind_view kind) (values dyn_value vs.items)) (D.pending decoder.old)
        result (D.pending decoder.new) }
    ensures held { IfOk result (λ vs. AreHeldValues (values dyn_value vs.items)) }
{
    let count = match decoder.open_list(kind) {
        Ok(count) => count,
        Err(error) => return Err(told(decoder, error)),
    };
    let Ok(mut items) = Vec::with_capacity(decoder.allocator(), count) else {
        return Err(out_of_memory(decoder));
    };
    for i in 0..count {
        let item = match read_value(decoder, element, &*loops) {
            Ok(item) => item,
            Err(error) => return Err(error.in_element(i)),
        };
        let Ok(()) = items.push(item) else {
            return Err(out_of_memory(decoder));
        };
    }
    Ok(items)
}

/// Reads the members of a SEQUENCE, in the order of its fields.
#[cycle(read)]
fn read_sequence<D: Decoder, P: Part>(
    decoder: &mut D,
    part: P,
    loops: &Loops<'_, P>,
) -> Result<DynValue, DynError>
    requires sequence { (fs : Fields) × (added : FieldAdditions)
        × (P.shape (bodies_of loops.now) part
        ≡ AbstractShape.seq AbstractSeqKind.sequence fs added) }
    requires readable { IsReadablePart P.shape (bodies_of loops.now) part }
    ensures answer { AnswerBy dyn_failure D.notation (meant P.shape (bodies_of loops.now) part)
        dyn_value (D.pending decoder.old) result (D.pending decoder.new) }
    ensures held { IfOk result (λ v. IsHeldValue (dyn_value v)) }
{
    match open_fields(decoder, SeqKind::Sequence, &FieldNames { part }) {
        Ok(()) => {}
        Err(error) => return Err(error),
    }
    let count = part.field_count();
    let Ok(mut members) = Vec::with_capacity(decoder.allocator(), count) else {
        return Err(out_of_memory(decoder));
    };
    for place in 0..count {
        let field = part.field(place);
        let slot = match read_field(decoder, &field, &*loops) {
            Ok(slot) => slot,
            Err(error) => return Err(error),
        };
        let Ok(name) = String::from_str(decoder.allocator(), field.name) else {
            return Err(out_of_memory(decoder));
        };
        let Ok(()) = members.push((name, slot)) else {
            return Err(out_of_memory(decoder));
        };
    }
    Ok(DynValue::Members(members))
}

/// Reads the members of a SET, in the order of the tags of its fields. The members stand in the
/// order in which the type lists the fields.
#[cycle(read)]
fn read_set<D: Decoder, P: Part>(
    decoder: &mut D,
    part: P,
    loops: &Loops<'_, P>,
) -> Result<DynValue, DynError>
    requires set { (fs : Fields) × (added : FieldAdditions)
        × (P.shape (bodies_of loops.now) part ≡ AbstractShape.seq AbstractSeqKind.set fs added) }
    requires readable { IsReadablePart P.shape (bodies_of loops.now) part }
    ensures answer { AnswerBy dyn_failure D.notation (meant P.shape (bodies_of loops.now) part)
        dyn_value (D.pending decoder.old) result (D.pending decoder.new) }
    ensures held { IfOk result (λ v. IsHeldValue (dyn_value v)) }
{
    let Ok(order) = places_as_read(decoder.allocator(), &part) else {
        return Err(out_of_memory(decoder));
    };
    let names = FieldsByTag { part, order };
    match open_fields(decoder, SeqKind::Set, &names) {
        Ok(()) => {}
        Err(error) => return Err(error),
    }
    let Ok(mut members) = absent_members(decoder.allocator(), &part) else {
        return Err(out_of_memory(decoder));
    };
    for place in &names.order {
        let field = part.field(*place);
        match read_field(decoder, &field, &*loops) {
            Ok(slot) => members[*place].1 = slot,
            Err(error) => return Err(error),
        }
    }
    Ok(DynValue::Members(members))
}

/// Returns the members of a SEQUENCE or SET by their names, all absent.
///
/// # Errors
///
/// `OutOfMemory` alone.
fn absent_members<P: Part>(
    alloc: Global,
    part: &P,
) -> Result<Vec<(String, Option<DynValue>)>, OutOfMemory>
    ensures { IfOk result (λ members.
        AreAbsent (component_names (fields_in (P.shape [] part.now))) members.items) }
{
    let count = part.field_count();
    let mut members = Vec::with_capacity(alloc, count)?;
    for place in 0..count {
        let name = String::from_str(alloc, part.field(place).name)?;
        members.push((name, None))?;
    }
    Ok(members)
}

/// Reads a field, which is the first pending slot. Its default is left out.
#[cycle(read)]
fn read_field<D: Decoder, P: Part>(
    decoder: &mut D,
    field: &PartField<'_, P>,
    loops: &Loops<'_, P>,
) -> Result<Option<DynValue>, DynError>
    requires { IsReadablePart P.shape (bodies_of loops.now) field.now.part }
    ensures answer { FieldAnswer D.notation (field_meant P.shape (bodies_of loops.now) field.now)
        (D.pending decoder.old) result (D.pending decoder.new) }
    ensures held { IfOk result (λ o. IfSome o (λ v. IsHeldValue (dyn_value v))) }
{
    match take_absent_field(decoder, field.presence, field.is_addition, field.name) {
        Ok(true) => return Ok(None),
        Ok(false) => {}
        Err(error) => return Err(error),
    }
    match read_value(decoder, field.part, &*loops) {
        Ok(value) => Ok(kept_value(field.presence, value)),
        Err(error) => Err(within(decoder, field.name, error)),
    }
}

/// Reads a CHOICE.
#[cycle(read)]
fn read_choice<D: Decoder, P: Part>(
    decoder: &mut D,
    part: P,
    loops: &Loops<'_, P>,
) -> Result<DynValue, DynError>
    requires choice { (alts : Alternatives) × (added : AlternativeAdditions)
        × (P.shape (bodies_of loops.now) part ≡ AbstractShape.choice alts added) }
    requires readable { IsReadablePart P.shape (bodies_of loops.now) part }
    ensures answer { AnswerBy dyn_failure D.notation (meant P.shape (bodies_of loops.now) part)
        dyn_value (D.pending decoder.old) result (D.pending decoder.new) }
    ensures held { IfOk result (λ v. IsHeldValue (dyn_value v)) }
{
    match decoder.open_choice(&AlternativeNames { part }) {
        Ok(Some(place)) => match part.alternative(place) {
            Some(alternative) => read_payload(decoder, &alternative, &*loops),
            // A place is that of an alternative in either notation.
            None => Err(no_choice(decoder)),
        },
        Ok(None) => Err(of_kind(part, no_choice(decoder))),
        Err(error) => Err(of_kind(part, told(decoder, error))),
    }
}

/// Returns the error of an ENUMERATED or a CHOICE, which says so where the type has no values.
fn of_kind<P: Part>(part: P, error: DynError) -> DynError
    ensures { dyn_failure result ≡ dyn_failure error }
{
    if part.item_count() == 0 && part.alternative_count() == 0 {
        return error.without_values();
    }
    error
}

/// Reads the payload of an alternative, and returns it under its identifier.
#[cycle(read)]
fn read_payload<D: Decoder, P: Part>(
    decoder: &mut D,
    alternative: &PartAlternative<'_, P>,
    loops: &Loops<'_, P>,
) -> Result<DynValue, DynError>
    requires { IsReadablePart P.shape (bodies_of loops.now) alternative.now.part }
    ensures answer { PayloadBy dyn_failure D.notation alternative.now.identifier.now
        (meant P.shape (bodies_of loops.now) alternative.now.part) dyn_value
        (D.pending decoder.old) result (D.pending decoder.new) }
    ensures held { IfOk result (λ v. IsHeldValue (dyn_value v)) }
{
    let alloc = decoder.allocator();
    let payload = match read_value(decoder, alternative.part, &*loops) {
        Ok(payload) => payload,
        Err(error) => return Err(error.in_alternative(alloc, alternative.identifier)),
    };
    let Ok(identifier) = String::from_str(alloc, alternative.identifier) else {
        return Err(out_of_memory(decoder));
    };
    match Box::new(alloc, payload) {
        Ok(value) => Ok(DynValue::Choice { identifier, value }),
        Err(_) => Err(out_of_memory(decoder)),
    }
}
