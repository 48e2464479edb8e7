//! Writes a value, part by part.
ghost use Rattle.asn_coding.specs.Writing.{FailsToEncode, FailsToFill};
ghost use Rattle.asn_dynamic_values.specs.DynView.{dyn_value, members_named, named_value};
ghost use Rattle.asn_dynamic.specs.encoding.Sent.{Sent, SentFrame, element_slots, member_slots};
ghost use Rattle.asn_model.specs.Value.{Value, values};
ghost use Rattle.std.specs.Prelude.{IfErr, OnOk, map};

use crate::encoding::leaves::{write_text, write_units};
use crate::encoding::names::MemberNames;
use asn_dynamic_values::DynValue;
use asn_encode::{EncodeText, Encoder};
use asn_fault::EncodeError;
use asn_model::Leaf;
use asn_names::Name;

/// Writes a value: the last frame has one more slot, which is written as that of a typed value
/// that stands for the same.
///
/// # Errors
///
/// The kind of the first part of the value that the notation cannot encode, of a SET OF that of any
/// element; else `OutOfMemory` alone.
#[cycle(write)]
pub fn write_value<E: Encoder>(encoder: &mut E, value: &DynValue) -> Result<(), EncodeError>
    ensures written { OnOk result
        (Sent E.holds E.notation (dyn_value value.now) encoder.old encoder.new) }
    ensures refused { IfErr result (FailsToEncode E.notation (dyn_value value.now)) }
{
    match value {
        DynValue::Null => encoder.put_leaf(Leaf::Null),
        DynValue::Bool(flag) => encoder.put_leaf(Leaf::Boolean(*flag)),
        DynValue::Int(number) => encoder.put_leaf(Leaf::Number(*number)),
        DynValue::Bits { bits, fixed } => encoder.put_leaf(Leaf::Bits(bits, *fixed)),
        DynValue::Octets(octets) => encoder.put_leaf(Leaf::Octets(octets.as_slice())),
        DynValue::Arcs(arcs) => encoder.put_leaf(Leaf::Arcs(arcs.as_slice())),
        DynValue::Text(text) => write_text(encoder, text.as_slice()),
        DynValue::Units(units) => write_units(encoder, units.as_slice()),
        DynValue::Utc(time) => time.put_text(encoder),
        DynValue::Gen(time) => time.put_text(encoder),
        DynValue::Day(day) => day.put_text(encoder),
        DynValue::Item(item) => encoder.put_leaf(Leaf::Item(item.as_str())),
        DynValue::Members(members) => write_members(encoder, members),
        DynValue::List(elements) => write_list(encoder, elements),
        DynValue::Bag(elements) => write_bag(encoder, elements),
        DynValue::Choice { identifier, value } => {
            write_choice(encoder, identifier.as_str(), &**value)
        }
    }
}

/// Writes a SEQUENCE or SET: each member by its own name, and those that are absent not.
#[cycle(write)]
fn write_members<E: Encoder>(
    encoder: &mut E,
    members: &[(String, Option<DynValue>)],
) -> Result<(), EncodeError>
    ensures written { OnOk result (Sent E.holds E.notation
        (Value.members (members_named (map named_value members.now))) encoder.old encoder.new) }
    ensures refused { IfErr result (FailsToEncode E.notation
        (Value.members (members_named (map named_value members.now)))) }
{
    write_slots(encoder, members)?;
    encoder.close_members(&MemberNames { members })
}

/// Opens a frame, and writes members into it, or leaves them out where they are absent.
#[cycle(write)]
fn write_slots<E: Encoder>(
    encoder: &mut E,
    members: &[(String, Option<DynValue>)],
) -> Result<(), EncodeError>
    ensures written { OnOk result (SentFrame E.holds E.notation (member_slots members.now)
        encoder.old encoder.new) }
    ensures refused { IfErr result (FailsToFill E.notation (member_slots members.now)) }
{
    encoder.open_frame()?;
    for (_, value) in members {
        let value = match value {
            Some(value) => value,
            None => {
                encoder.encode_absent()?;
                continue;
            }
        };
        write_value(encoder, value)?;
    }
    Ok(())
}

/// Writes a SEQUENCE OF or a table.
#[cycle(write)]
fn write_list<E: Encoder>(encoder: &mut E, elements: &[DynValue]) -> Result<(), EncodeError>
    ensures written { OnOk result (Sent E.holds E.notation
        (Value.list (values dyn_value elements.now)) encoder.old encoder.new) }
    ensures refused { IfErr result
        (FailsToEncode E.notation (Value.list (values dyn_value elements.now))) }
{
    write_elements(encoder, elements)?;
    encoder.close_list()
}

/// Writes a SET OF, whose elements are written in byte order of their texts.
#[cycle(write)]
fn write_bag<E: Encoder>(encoder: &mut E, elements: &[DynValue]) -> Result<(), EncodeError>
    ensures written { OnOk result (Sent E.holds E.notation
        (Value.bag (values dyn_value elements.now)) encoder.old encoder.new) }
    ensures refused { IfErr result
        (FailsToEncode E.notation (Value.bag (values dyn_value elements.now))) }
{
    write_elements(encoder, elements)?;
    encoder.close_set()
}

/// Opens a frame, and writes elements into it.
#[cycle(write)]
fn write_elements<E: Encoder>(encoder: &mut E, elements: &[DynValue]) -> Result<(), EncodeError>
    ensures written { OnOk result (SentFrame E.holds E.notation (element_slots elements.now)
        encoder.old encoder.new) }
    ensures refused { IfErr result (FailsToFill E.notation (element_slots elements.now)) }
{
    encoder.open_frame()?;
    for element in elements {
        write_value(encoder, element)?;
    }
    Ok(())
}

/// Writes a CHOICE.
#[cycle(write)]
fn write_choice<E: Encoder>(
    encoder: &mut E,
    identifier: &str,
    value: &DynValue,
) -> Result<(), EncodeError>
    ensures written { OnOk result (Sent E.holds E.notation
        (Value.choice identifier.now (dyn_value value.now)) encoder.old encoder.new) }
    ensures refused { IfErr result
        (FailsToEncode E.notation (Value.choice identifier.now (dyn_value value.now))) }
{
    encoder.open_frame()?;
    write_value(encoder, value)?;
    encoder.close_choice(Name::Borrowed(identifier))
}
