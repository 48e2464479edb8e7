//! Encodes a JSON value as a document: a choice of its kind, over the primitive calls of the
//! encoder. Nothing is copied here; the digits of a number above the `i64` are made.
ghost use Rattle.asn_document.specs.Meaning.{document_alternatives, document_name, document_payload};
ghost use Rattle.asn_document.specs.Meaning.{document_shape, document_value, entry_fields};
ghost use Rattle.asn_document.specs.Meaning.{entry_shape, json_entry, json_value, number_name};
ghost use Rattle.asn_document.specs.Meaning.{number_payload};
ghost use Rattle.asn_traits.specs.Shape.{Shape};
ghost use Rattle.asn_coding.specs.Tables.{field_rows, rows_of};
ghost use Rattle.asn_traits.specs.Value.{Value as AbstractValue, values};
ghost use Rattle.asn_coding.specs.Writing.{FailsToEncode, Offered, Written};
ghost use Rattle.serde_json.specs.Find.{as_i64, is_float};
ghost use Rattle.serde_json.specs.View.{view, number_view, items_view, members_view};
ghost use Rattle.serde_json.specs.Written.{has_float, items_have_float, members_have_float};
ghost use Rattle.serde_json.specs.Written.{number_text};
ghost use Rattle.std.specs.Prelude.{◌≡◌, ◌^◌, ◌≤◌, IfErr, OnOk, codes, decimal, false};

use asn_core::{Class, Constraints, Identifier, Tag, TagTree};
use asn_decimal::Decimal;
use asn_fault::EncodeError;
use asn_traits::{EncodeText, Encoder, Field, Name, Presence, required};
use serde_json::{Map, Number, Value};

/// Is the tag of the alternative `decimal`.
pub(crate) const DECIMAL: Tag = Tag {
    class: Class::Context,
    value: 2,
};

/// Is the tag of the alternative `array`.
pub(crate) const ARRAY: Tag = Tag {
    class: Class::Context,
    value: 1,
};

/// Is the tag of the alternative `object`.
pub(crate) const OBJECT: Tag = Tag {
    class: Class::Context,
    value: 0,
};

/// Lists the tags of a document's alternatives.
pub(crate) const VARIANTS: &'static [TagTree] = &[
    TagTree::Leaf(Tag::NULL),
    TagTree::Leaf(Tag::BOOL),
    TagTree::Leaf(Tag::INTEGER),
    TagTree::Leaf(DECIMAL),
    TagTree::Leaf(Tag::UTF8_STRING),
    TagTree::Leaf(ARRAY),
    TagTree::Leaf(OBJECT),
];

/// Lists the fields of an entry: a key, and a document, which begins with no tag of its own.
const ENTRY_FIELDS: &'static [Field] = &[
    required!(0, Tag::UTF8_STRING, "key"),
    Field {
        index: 1,
        tag: Tag::EOC,
        tag_tree: TagTree::Choice(VARIANTS),
        presence: Presence::Required,
        name: "value",
    },
];

/// Returns the fields of an entry.
pub(crate) fn entry_table() -> &'static [Field]
    ensures { rows_of result.now ≡ field_rows 0 entry_fields }
{
    ENTRY_FIELDS
}

/// Returns the identifier of the value's alternative.
fn name_of(value: &Value) -> &'static str
    ensures { result.now ≡ document_name (view value.now) }
{
    match value {
        Value::Null => "null",
        Value::Bool(_) => "bool",
        Value::Number(number) => number_name(number),
        Value::String(_) => "string",
        Value::Array(_) => "array",
        Value::Object(_) => "object",
    }
}

/// Returns the identifier of the number's alternative.
fn number_name(number: &Number) -> &'static str
    ensures { result.now ≡ number_name (as_i64 (number_view number.now)) }
{
    if number.is_i64() {
        "integer"
    } else {
        "decimal"
    }
}

/// Encodes an `i64` as the alternative `integer`.
///
/// # Errors
///
/// Those of `Encoder`.
fn write_integer<E: Encoder>(encoder: &mut E, number: i64) -> Result<(), EncodeError>
    ensures offered { OnOk result (Offered E.holds E.notation document_alternatives
        (codes "integer") (AbstractValue.int number) encoder.old encoder.new) }
    ensures refused { IfErr result (FailsToEncode E.notation (AbstractValue.int number)) }
{
    encoder.encode_integer::<i64>(Tag::INTEGER, &Constraints::NONE, &number, Identifier::EMPTY)
}

/// Encodes a number from 2^63 to 2^64-1 as the alternative `decimal`.
///
/// # Errors
///
/// Those of `Encoder`.
fn write_decimal<E: Encoder>(encoder: &mut E, number: u64) -> Result<(), EncodeError>
    requires { 2 ^ 63 ≤ number }
    ensures offered { OnOk result (Offered E.holds E.notation document_alternatives
        (codes "decimal") (AbstractValue.text (decimal number)) encoder.old encoder.new) }
    ensures refused { IfErr result (FailsToEncode E.notation
        (AbstractValue.text (decimal number))) }
{
    match Decimal::new(number) {
        Some(decimal) => decimal.put_text(encoder),
        None => unreachable!(),
    }
}

/// Encodes a number as the payload of its alternative.
///
/// # Errors
///
/// Those of `Encoder`.
fn write_number<E: Encoder>(encoder: &mut E, number: &Number) -> Result<(), EncodeError>
    requires { is_float (number_view number.now) ≡ false }
    ensures offered { OnOk result (Offered E.holds E.notation document_alternatives
        (number_name (as_i64 (number_view number.now)))
        (number_payload (as_i64 (number_view number.now)) (number_text (number_view number.now)))
        encoder.old encoder.new) }
    ensures refused { IfErr result (FailsToEncode E.notation (number_payload
        (as_i64 (number_view number.now)) (number_text (number_view number.now)))) }
{
    match number.as_i64() {
        Some(integer) => write_integer(encoder, integer),
        None => match number.as_u64() {
            Some(large) => write_decimal(encoder, large),
            None => unreachable!(),
        },
    }
}

/// Encodes a JSON value as a document.
///
/// # Errors
///
/// Those of `Encoder`.
#[cycle(write)]
pub(crate) fn write_value<E: Encoder>(encoder: &mut E, value: &Value) -> Result<(), EncodeError>
    requires { has_float (view value.now) ≡ false }
    ensures written { OnOk result (Written E.holds E.notation document_shape
        (json_value value.now) encoder.old encoder.new) }
    ensures refused { IfErr result (FailsToEncode E.notation (json_value value.now)) }
{
    encoder.open_frame()?;
    write_payload(encoder, value)?;
    encoder.close_choice(Name::Constant(name_of(value)))
}

/// Encodes what a JSON value holds as the payload of its alternative.
///
/// # Errors
///
/// Those of `Encoder`.
#[cycle(write)]
fn write_payload<E: Encoder>(encoder: &mut E, value: &Value) -> Result<(), EncodeError>
    requires { has_float (view value.now) ≡ false }
    ensures offered { OnOk result (Offered E.holds E.notation document_alternatives
        (document_name (view value.now)) (document_payload (view value.now))
        encoder.old encoder.new) }
    ensures refused { IfErr result (FailsToEncode E.notation (document_payload (view value.now))) }
{
    match value {
        Value::Null => encoder.encode_null(Tag::NULL, Identifier::EMPTY),
        Value::Bool(flag) => encoder.encode_bool(Tag::BOOL, *flag, Identifier::EMPTY),
        Value::Number(number) => write_number(encoder, number),
        Value::String(text) => encoder.encode_utf8_string(
            Tag::UTF8_STRING,
            &Constraints::NONE,
            text.as_str(),
            Identifier::EMPTY,
        ),
        Value::Array(items) => write_items(encoder, items),
        Value::Object(members) => write_members(encoder, members),
    }
}

/// Encodes the elements of an array as a SEQUENCE OF documents.
///
/// # Errors
///
/// Those of `Encoder`.
#[cycle(write)]
fn write_items<E: Encoder>(encoder: &mut E, items: &Vec<Value>) -> Result<(), EncodeError>
    requires { items_have_float (items_view items.now.items) ≡ false }
    ensures written { OnOk result (Written E.holds E.notation (Shape.list_of document_shape)
        (AbstractValue.list (values json_value items.now.items)) encoder.old encoder.new) }
    ensures refused { IfErr result (FailsToEncode E.notation
        (AbstractValue.list (values json_value items.now.items))) }
{
    encoder.open_frame()?;
    for item in items {
        write_value(encoder, item)?;
    }
    encoder.close_list()
}

/// Encodes the members of an object as a SEQUENCE OF entries, in byte order of their keys.
///
/// # Errors
///
/// Those of `Encoder`.
#[cycle(write)]
pub(crate) fn write_members<E: Encoder>(
    encoder: &mut E,
    members: &Map<String, Value>,
) -> Result<(), EncodeError>
    requires { members_have_float (members_view members.now.entries) ≡ false }
    ensures written { OnOk result (Written E.holds E.notation (Shape.table entry_shape)
        (AbstractValue.list (values json_entry members.now.entries)) encoder.old encoder.new) }
    ensures refused { IfErr result (FailsToEncode E.notation
        (AbstractValue.list (values json_entry members.now.entries))) }
{
    encoder.open_frame()?;
    for (key, member) in members.iter() {
        write_entry(encoder, key, member)?;
    }
    encoder.close_list()
}

/// Encodes a member as an entry: a SEQUENCE of its key and its value.
///
/// # Errors
///
/// Those of `Encoder`.
#[cycle(write)]
fn write_entry<E: Encoder>(encoder: &mut E, key: &String, member: &Value) -> Result<(), EncodeError>
    requires { has_float (view member.now) ≡ false }
    ensures written { OnOk result (Written E.holds E.notation entry_shape
        (json_entry (key.now, member.now)) encoder.old encoder.new) }
    ensures refused { IfErr result (FailsToEncode E.notation (json_entry (key.now, member.now))) }
{
    encoder.open_frame()?;
    encoder.encode_utf8_string(
        Tag::UTF8_STRING,
        &Constraints::NONE,
        key.as_str(),
        Identifier::EMPTY,
    )?;
    write_value(encoder, member)?;
    encoder.close_fields(entry_table(), &[])
}
