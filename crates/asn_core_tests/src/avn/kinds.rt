//! Names the variants of values, which their printed text does not always show, and compares both.
//! No function here states what it does, so that a test's proof is of the test alone. Values and
//! errors are let go here, where their types are open: where a type is known, a proof goes through
//! each part that is let go.
use avn_value::{AvnValue, parse_avn};
use std::alloc::{AllocError, Global};
use std::fmt::Display;
use std::process::Abort;
use std::test::Fail;

/// Returns the name of the value's variant.
fn kind(value: &AvnValue) -> &'static str {
    match value {
        AvnValue::Boolean(_) => "Boolean",
        AvnValue::Integer(_) => "Integer",
        AvnValue::OctetString(_) => "OctetString",
        AvnValue::BitString { .. } => "BitString",
        AvnValue::Null => "Null",
        AvnValue::Oid(_) => "Oid",
        AvnValue::Real(_) => "Real",
        AvnValue::Enumerated(_) => "Enumerated",
        AvnValue::Sequence(_) => "Sequence",
        AvnValue::SequenceOf(_) => "SequenceOf",
        AvnValue::Choice { .. } => "Choice",
        AvnValue::CharString(_) => "CharString",
    }
}

/// Adds a blank and a name.
fn add_name(names: &mut String, name: &str) -> Result<(), AllocError> {
    names.push(' ')?;
    names.push_str(name)
}

/// Adds the names of the items' variants.
fn add_items(names: &mut String, items: &[AvnValue]) -> Result<(), AllocError> {
    for item in items {
        add_name(names, kind(item))?;
    }
    Ok(())
}

/// Adds the names of the fields' variants. A field without a value is named `absent`.
fn add_fields(names: &mut String, fields: &[(String, Option<AvnValue>)]) -> Result<(), AllocError> {
    for (_, field) in fields {
        match field {
            Some(value) => add_name(names, kind(value))?,
            None => add_name(names, "absent")?,
        }
    }
    Ok(())
}

/// Returns the name of the value's variant, and those of its items, fields or payload.
pub fn kinds(alloc: Global, value: &AvnValue) -> Result<String, AllocError> {
    let mut names = String::from_str(alloc, kind(value))?;
    match value {
        AvnValue::SequenceOf(items) => add_items(&mut names, items.as_slice())?,
        AvnValue::Sequence(fields) => add_fields(&mut names, fields.as_slice())?,
        AvnValue::Choice { value, .. } => add_name(&mut names, kind(value))?,
        _ => {}
    }
    Ok(names)
}

/// Checks that the text is the one that is wanted.
pub fn assert_text(rt: &impl Abort, text: &str, want: &str) {
    assert_eq!(rt; text, want);
}

/// Lets the value go.
pub fn let_go<T: Drop>(_value: T) {}

/// Returns whether there is an error.
pub fn is_refused<T: Drop, E: Drop>(answer: Result<T, E>) -> bool {
    answer.is_err()
}

/// Returns what the value or the error prints.
pub fn printed<T: Display + Drop>(alloc: Global, value: T) -> Result<String, AllocError> {
    value.to_string(alloc)
}

/// Checks that the value has these variants and prints this text.
pub fn assert_value(
    rt: &impl Abort,
    alloc: Global,
    value: &AvnValue,
    variants: &str,
    text: &str,
) -> Result<(), Fail> {
    // The variants are compared too, since the text doesn't always show them.
    let names = kinds(alloc, value)?;
    assert_text(rt, names.as_str(), variants);
    assert_text(rt, value.to_string(alloc)?.as_str(), text);
    Ok(())
}

/// Checks that a value that is let go has these variants and prints this text.
pub fn assert_owned(
    rt: &impl Abort,
    alloc: Global,
    value: AvnValue,
    variants: &str,
    text: &str,
) -> Result<(), Fail> {
    let checked = assert_value(rt, alloc, &value, variants, text);
    let_go(value);
    checked
}

/// Returns what the text is read as.
pub fn read(alloc: Global, text: &str) -> Result<AvnValue, Fail> {
    Ok(parse_avn(alloc, text)?)
}

/// Returns a copy of the value.
pub fn copy_of(alloc: Global, value: &AvnValue) -> Result<AvnValue, Fail> {
    Ok(value.try_clone(alloc)?)
}

/// Returns the normal form of the value.
pub fn normal_form(alloc: Global, value: &AvnValue) -> Result<AvnValue, Fail> {
    Ok(value.normal(alloc)?)
}
