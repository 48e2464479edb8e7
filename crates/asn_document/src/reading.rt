//! Decodes a JSON value from a document, over the primitive calls of the decoder, since a value
//! holds values. What is read is moved into the value.
ghost use Rattle.asn_document.specs.Meaning.{document_shape, document_alternatives, entry_shape};
ghost use Rattle.asn_document.specs.Meaning.{json_value, json_entry};
ghost use Rattle.asn_coding.specs.Answer.{Answer};
ghost use Rattle.asn_coding.specs.Scopes.{TagAnswer};
ghost use Rattle.asn_traits.specs.Shape.{Shape};
ghost use Rattle.asn_traits.specs.Value.{Value as AbstractValue, values};
ghost use Rattle.serde_json.specs.View.{view, items_view, members_view};
ghost use Rattle.serde_json.specs.Written.{has_float, items_have_float, members_have_float};
ghost use Rattle.std.specs.Prelude.{◌≡◌, ◌^◌, ◌≤◌, IfOk, codes, decimal, false};

use crate::Document;
use crate::document_map::put_member;
use crate::writing::{ARRAY, DECIMAL, OBJECT, entry_table};
use asn_core::{Constraints, Tag};
use asn_decimal::Decimal;
use asn_fault::DecodeError;
use asn_fields::{read_field, within_field};
use asn_traits::{Decoder, FieldNames, SeqKind};
use serde_json::{Map, Number, Value};

/// Returns the JSON value of an `i64`.
fn integer(number: i64) -> Value
    ensures value { json_value result ≡ AbstractValue.choice (codes "integer")
        (AbstractValue.int number) }
    ensures whole { has_float (view result) ≡ false }
{
    Value::Number(Number::from(number))
}

/// Returns the JSON value of a number that no `i64` has.
fn large(number: u64) -> Value
    requires { 2 ^ 63 ≤ number }
    ensures value { json_value result ≡ AbstractValue.choice (codes "decimal")
        (AbstractValue.text (decimal number)) }
    ensures whole { has_float (view result) ≡ false }
{
    Value::Number(Number::from(number))
}

/// Decodes a document, as its JSON value.
///
/// # Errors
///
/// A type mismatch where there is no choice; `NoValidChoice` where no alternative is named; those
/// of the alternative; `OutOfMemory`.
#[cycle(read)]
pub(crate) fn read_value<D: Decoder>(decoder: &mut D) -> Result<Value, DecodeError>
    ensures read { Answer D.notation document_shape json_value (D.pending decoder.old) result
        (D.pending decoder.new) }
    ensures whole { IfOk result (λ v. has_float (view v) ≡ false) }
{
    match decoder.open_alternative::<Document>(&Constraints::NONE) {
        Ok(tag) => read_payload(decoder, tag),
        Err(error) => Err(error),
    }
}

/// Decodes the payload of the alternative of this tag, as the JSON value.
///
/// # Errors
///
/// Those of the payload's type; `NoValidChoice` for any other tag, and then no slot is taken.
#[cycle(read)]
#[tactic(auto, using(crate::proofs::Elements::value_steps))]
pub(crate) fn read_payload<D: Decoder>(decoder: &mut D, tag: Tag) -> Result<Value, DecodeError>
    ensures read { TagAnswer D.notation document_alternatives json_value tag
        (D.pending decoder.old) result (D.pending decoder.new) }
    ensures whole { IfOk result (λ v. has_float (view v) ≡ false) }
{
    if tag == Tag::NULL {
        match decoder.decode_null(tag) {
            Ok(()) => Ok(Value::Null),
            Err(error) => Err(error),
        }
    } else if tag == Tag::BOOL {
        match decoder.decode_bool(tag) {
            Ok(flag) => Ok(Value::Bool(flag)),
            Err(error) => Err(error),
        }
    } else if tag == Tag::INTEGER {
        match decoder.decode_integer::<i64>(tag, &Constraints::NONE) {
            Ok(number) => Ok(integer(number)),
            Err(error) => Err(error),
        }
    } else if tag == DECIMAL {
        match decoder.decode_text::<Decimal>(tag, &Constraints::NONE) {
            Ok(decimal) => Ok(large(decimal.number())),
            Err(error) => Err(error),
        }
    } else if tag == Tag::UTF8_STRING {
        match decoder.decode_utf8_string(tag, &Constraints::NONE) {
            Ok(text) => Ok(Value::String(text)),
            Err(error) => Err(error),
        }
    } else if tag == ARRAY {
        match read_items(decoder) {
            Ok(items) => Ok(Value::Array(items)),
            Err(error) => Err(error),
        }
    } else if tag == OBJECT {
        match read_members(decoder) {
            Ok(members) => Ok(Value::Object(members)),
            Err(error) => Err(error),
        }
    } else {
        Err(DecodeError::no_valid_choice("serde_json::Value", decoder.codec()))
    }
}

/// Decodes a SEQUENCE OF documents, as the elements of an array.
///
/// # Errors
///
/// A type mismatch where there is no list; those of the first element that can't be decoded;
/// `OutOfMemory`.
#[cycle(read)]
fn read_items<D: Decoder>(decoder: &mut D) -> Result<Vec<Value>, DecodeError>
    ensures read { Answer D.notation (Shape.list_of document_shape)
        (λ v. AbstractValue.list (values json_value v.items)) (D.pending decoder.old) result
        (D.pending decoder.new) }
    ensures whole { IfOk result (λ v. items_have_float (items_view v.items) ≡ false) }
{
    let count = decoder.open_list(SeqKind::Sequence)?;
    let Ok(mut items) = Vec::with_capacity(decoder.allocator(), count) else {
        return Err(DecodeError::out_of_memory(decoder.codec()));
    };
    for i in 0..count {
        let item = read_value(decoder)?;
        let Ok(()) = items.push(item) else {
            return Err(DecodeError::out_of_memory(decoder.codec()));
        };
    }
    Ok(items)
}

/// Decodes a SEQUENCE OF entries, as the members of an object: of a key the last entry counts.
///
/// # Errors
///
/// A type mismatch where there is no list; those of the first entry that can't be decoded;
/// `OutOfMemory`.
#[cycle(read)]
pub(crate) fn read_members<D: Decoder>(decoder: &mut D) -> Result<Map<String, Value>, DecodeError>
    ensures read { Answer D.notation (Shape.table entry_shape)
        (λ m. AbstractValue.list (values json_entry m.entries)) (D.pending decoder.old) result
        (D.pending decoder.new) }
    ensures whole { IfOk result (λ m. members_have_float (members_view m.entries) ≡ false) }
{
    let count = decoder.open_list(SeqKind::Sequence)?;
    let mut members = Map::new(decoder.allocator());
    for i in 0..count {
        let entry = read_entry(decoder)?;
        let Ok(()) = put_member(&mut members, entry.0, entry.1) else {
            return Err(DecodeError::out_of_memory(decoder.codec()));
        };
    }
    Ok(members)
}

/// Decodes an entry: its key, and then its value.
///
/// # Errors
///
/// A type mismatch where there are no members; in AVN `DuplicateField` where the key or the value
/// stands twice; those of the key or the value within `FieldError`.
#[cycle(read)]
fn read_entry<D: Decoder>(decoder: &mut D) -> Result<(String, Value), DecodeError>
    ensures read { Answer D.notation entry_shape json_entry (D.pending decoder.old) result
        (D.pending decoder.new) }
    ensures whole { IfOk result (λ e. has_float (view e.1) ≡ false) }
{
    let table = entry_table();
    match decoder.open_fields(SeqKind::Sequence, table, &[]) {
        Ok(()) => {}
        Err(error) => return Err(error),
    }
    let mut names = FieldNames::new(table, &[]);
    let key = match read_field::<String, D>(decoder, &mut names) {
        Ok(key) => key,
        Err(error) => return Err(error),
    };
    match read_value(decoder) {
        Ok(value) => Ok((key, value)),
        Err(error) => Err(within_field(decoder, "value", error)),
    }
}
