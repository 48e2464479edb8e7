//! Finds out whether a value is one of a type, part by part.
ghost use Rattle.asn_dynamic_fits.specs.Fields.{FitsMember, FitsSlot};
ghost use Rattle.asn_dynamic_values.specs.DynView.{dyn_value, members_named, named_value};
ghost use Rattle.asn_model.specs.Readable.{is_readable};
ghost use Rattle.asn_model.specs.Shape.{AlternativeAdditions, Alternatives, FieldAdditions};
ghost use Rattle.asn_model.specs.Shape.{Fields, SeqKind, Shape as AbstractShape};
ghost use Rattle.asn_model.specs.ShapeView.{presence_view, shape_view};
ghost use Rattle.asn_model.specs.Value.{Fits, FitsEach, Value, values};
ghost use Rattle.asn_parts.specs.Chain.{bodies_of};
ghost use Rattle.asn_parts.specs.Bodies.{IsReadablePart, meant};
ghost use Rattle.std.specs.Prelude.{◌≡◌, ℕ, List, Option, Decides, map, option_map, true};

use crate::contents::{Chosen, bag_of, choice_of, item_of, list_of, members_of};
use crate::defaults::{is_kept, may_lack};
use crate::leaves::is_leaf;
use crate::order::{are_in_order, do_keys_rise};
use asn_dynamic_values::DynValue;
use asn_model::Shape;
use asn_parts::{Loops, Part, PartAlternative, PartField, PartKind, from_loop};

/// Returns whether a value is one of the shape. It takes no memory.
pub fn fits(shape: &Shape, value: &DynValue) -> bool
    requires { is_readable (shape_view shape.now) ≡ true }
    ensures { Decides result (Fits (shape_view shape.now) (dyn_value value.now)) }
{
    fits_part(shape, &Loops::Outermost, value)
}

/// Returns whether a value is one of a part of a type, within the loops around it. It takes no
/// memory.
#[cycle(fits)]
pub fn fits_part<P: Part>(part: P, loops: &Loops<'_, P>, value: &DynValue) -> bool
    requires { IsReadablePart P.shape (bodies_of loops.now) part }
    ensures { Decides result (Fits (meant P.shape (bodies_of loops.now) part)
        (dyn_value value.now)) }
{
    match part.kind(&*loops) {
        PartKind::Leaf(leaf) => is_leaf(leaf, value),
        PartKind::Enumerated => is_item(part, value),
        PartKind::Sequence => fits_members(part, &*loops, value),
        PartKind::Set => fits_members(part, &*loops, value),
        PartKind::ListOf(element) => fits_list(element, &*loops, value),
        PartKind::SetOf(element) => fits_bag(element, &*loops, value),
        PartKind::Table(entry) => fits_table(entry, &*loops, value),
        PartKind::Choice => fits_choice(part, &*loops, value),
        PartKind::Loop(body) => {
            let inner = Loops::Within {
                body,
                outer: &*loops,
            };
            fits_part(body, &inner, value)
        }
        PartKind::Back(number) => {
            let around = from_loop(&*loops, number);
            match around {
                Loops::Within { body, .. } => fits_part(*body, &*around, value),
                Loops::Outermost => unreachable!(),
            }
        }
    }
}

/// Returns whether a value is an item of an ENUMERATED.
fn is_item<P: Part>(part: P, value: &DynValue) -> bool
    ensures { (around : List P) (items : List (List ℕ)) (added : Option (List (List ℕ)))
        → P.shape around part ≡ AbstractShape.enum items added
        → Decides result (Fits (AbstractShape.enum items added) (dyn_value value.now)) }
{
    match item_of(value) {
        Some(item) => part.has_item(item),
        None => false,
    }
}

/// Returns whether a value is a SEQUENCE OF these elements.
#[cycle(fits)]
fn fits_list<P: Part>(element: P, loops: &Loops<'_, P>, value: &DynValue) -> bool
    requires { IsReadablePart P.shape (bodies_of loops.now) element }
    ensures { Decides result
        (Fits (AbstractShape.list_of (meant P.shape (bodies_of loops.now) element))
        (dyn_value value.now)) }
{
    match list_of(value) {
        Some(elements) => are_elements(element, &*loops, elements),
        None => false,
    }
}

/// Returns whether a value is a SET OF these elements, which stand in their order.
#[cycle(fits)]
fn fits_bag<P: Part>(element: P, loops: &Loops<'_, P>, value: &DynValue) -> bool
    requires { IsReadablePart P.shape (bodies_of loops.now) element }
    ensures { Decides result
        (Fits (AbstractShape.set_of (meant P.shape (bodies_of loops.now) element))
        (dyn_value value.now)) }
{
    match bag_of(value) {
        Some(elements) => { are_in_order(elements) && are_elements(element, &*loops, elements) }
        None => false,
    }
}

/// Returns whether a value is a table of these entries, whose keys rise.
#[cycle(fits)]
fn fits_table<P: Part>(entry: P, loops: &Loops<'_, P>, value: &DynValue) -> bool
    requires { IsReadablePart P.shape (bodies_of loops.now) entry }
    ensures { Decides result
        (Fits (AbstractShape.table (meant P.shape (bodies_of loops.now) entry))
        (dyn_value value.now)) }
{
    match list_of(value) {
        Some(entries) => do_keys_rise(entries) && are_elements(entry, &*loops, entries),
        None => false,
    }
}

/// Returns whether each value is one of this part.
#[cycle(fits)]
fn are_elements<P: Part>(element: P, loops: &Loops<'_, P>, elements: &[DynValue]) -> bool
    requires { IsReadablePart P.shape (bodies_of loops.now) element }
    ensures { Decides result (FitsEach (meant P.shape (bodies_of loops.now) element)
        (values dyn_value elements.now)) }
{
    for value in elements {
        if !fits_part(element, &*loops, value) {
            return false;
        }
    }
    true
}

/// Returns whether a value is one of a SEQUENCE or SET.
#[cycle(fits)]
fn fits_members<P: Part>(part: P, loops: &Loops<'_, P>, value: &DynValue) -> bool
    requires members { (kind : SeqKind) × (fs : Fields) × (added : FieldAdditions)
        × (P.shape (bodies_of loops.now) part ≡ AbstractShape.seq kind fs added) }
    requires readable { IsReadablePart P.shape (bodies_of loops.now) part }
    ensures { Decides result (Fits (meant P.shape (bodies_of loops.now) part)
        (dyn_value value.now)) }
{
    match members_of(value) {
        Some(members) => are_members(part, &*loops, members),
        None => false,
    }
}

/// Returns whether these are the members of a SEQUENCE or SET, in the order of its fields.
#[cycle(fits)]
fn are_members<P: Part>(
    part: P,
    loops: &Loops<'_, P>,
    members: &[(String, Option<DynValue>)],
) -> bool
    requires members { (kind : SeqKind) × (fs : Fields) × (added : FieldAdditions)
        × (P.shape (bodies_of loops.now) part ≡ AbstractShape.seq kind fs added) }
    requires readable { IsReadablePart P.shape (bodies_of loops.now) part }
    ensures { Decides result (Fits (meant P.shape (bodies_of loops.now) part)
        (Value.members (members_named (map named_value members.now)))) }
{
    let count = part.field_count();
    if members.len() != count {
        return false;
    }
    for place in 0..count {
        let field = part.field(place);
        if !fits_member(&field, &*loops, &members[place]) {
            return false;
        }
    }
    true
}

/// Returns whether a member has the name of the field, and its slot is one of the field.
#[cycle(fits)]
fn fits_member<P: Part>(
    field: &PartField<'_, P>,
    loops: &Loops<'_, P>,
    member: &(String, Option<DynValue>),
) -> bool
    requires { IsReadablePart P.shape (bodies_of loops.now) field.now.part }
    ensures { Decides result (FitsMember field.now.name.now
        (presence_view field.now.presence.now)
        (meant P.shape (bodies_of loops.now) field.now.part) (named_value member.now)) }
{
    field.name == member.0.as_str() && fits_slot(field, &*loops, &member.1)
}

/// Returns whether the slot of a field is absent where it may be, or has a value of the field that
/// isn't its default.
#[cycle(fits)]
fn fits_slot<P: Part>(
    field: &PartField<'_, P>,
    loops: &Loops<'_, P>,
    slot: &Option<DynValue>,
) -> bool
    requires { IsReadablePart P.shape (bodies_of loops.now) field.now.part }
    ensures { Decides result (FitsSlot (presence_view field.now.presence.now)
        (meant P.shape (bodies_of loops.now) field.now.part) (option_map dyn_value slot.now)) }
{
    match slot {
        None => may_lack(field.presence),
        Some(value) => { is_kept(field.presence, value) && fits_part(field.part, &*loops, value) }
    }
}

/// Returns whether a value is one of a CHOICE.
#[cycle(fits)]
fn fits_choice<P: Part>(part: P, loops: &Loops<'_, P>, value: &DynValue) -> bool
    requires choice { (alts : Alternatives) × (added : AlternativeAdditions)
        × (P.shape (bodies_of loops.now) part ≡ AbstractShape.choice alts added) }
    requires readable { IsReadablePart P.shape (bodies_of loops.now) part }
    ensures { Decides result (Fits (meant P.shape (bodies_of loops.now) part)
        (dyn_value value.now)) }
{
    match choice_of(value) {
        Some(chosen) => is_chosen(part, &*loops, &chosen),
        None => false,
    }
}

/// Returns whether a CHOICE has an alternative of this identifier, of which the payload is a value.
#[cycle(fits)]
fn is_chosen<P: Part>(part: P, loops: &Loops<'_, P>, chosen: &Chosen<'_>) -> bool
    requires choice { (alts : Alternatives) × (added : AlternativeAdditions)
        × (P.shape (bodies_of loops.now) part ≡ AbstractShape.choice alts added) }
    requires readable { IsReadablePart P.shape (bodies_of loops.now) part }
    ensures { Decides result (Fits (meant P.shape (bodies_of loops.now) part)
        (Value.choice chosen.now.identifier.now (dyn_value chosen.now.payload.now))) }
{
    let count = part.alternative_count();
    for place in 0..count {
        let alternative = match part.alternative(place) {
            Some(alternative) => alternative,
            None => unreachable!(),
        };
        if fits_alternative(&alternative, &*loops, &*chosen) {
            return true;
        }
    }
    false
}

/// Returns whether an alternative has this identifier, and the payload is a value of it.
#[cycle(fits)]
fn fits_alternative<P: Part>(
    alternative: &PartAlternative<'_, P>,
    loops: &Loops<'_, P>,
    chosen: &Chosen<'_>,
) -> bool
    requires { IsReadablePart P.shape (bodies_of loops.now) alternative.now.part }
    ensures { Decides result ((alternative.now.identifier.now ≡ chosen.now.identifier.now)
        × Fits (meant P.shape (bodies_of loops.now) alternative.now.part)
        (dyn_value chosen.now.payload.now)) }
{
    alternative.identifier == chosen.identifier
        && fits_part(alternative.part, &*loops, chosen.payload)
}
