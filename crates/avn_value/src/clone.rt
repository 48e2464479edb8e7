//! Copies values.
ghost use Rattle.std.specs.Prelude.{◌≡◌, IfOk, string_bytes};
ghost use Rattle.avn_value.specs.View.{tree_of, list_trees, fields_trees};

use crate::value::AvnValue;
use asn_core::OutOfMemory;
use std::alloc::Global;

/// Returns a copy of a text.
///
/// # Errors
///
/// `OutOfMemory` alone.
pub fn copy_text(alloc: Global, text: &String) -> Result<String, OutOfMemory>
    ensures { IfOk result (λ copy. string_bytes copy ≡ string_bytes text.now) }
{
    let copy = String::from_str(alloc, text.as_str())?;
    Ok(copy)
}

/// Returns a copy of octets.
///
/// # Errors
///
/// `OutOfMemory` alone.
pub fn copy_octets(alloc: Global, octets: &Vec<u8>) -> Result<Vec<u8>, OutOfMemory>
    ensures { IfOk result (λ copy. copy.items ≡ octets.now.items) }
{
    let copy = Vec::from_slice(alloc, octets)?;
    Ok(copy)
}

/// Returns a copy of a value.
///
/// # Errors
///
/// `OutOfMemory` alone.
#[cycle(copy)]
fn copy_value(alloc: Global, value: &AvnValue) -> Result<AvnValue, OutOfMemory>
    ensures { IfOk result (λ copy. tree_of copy ≡ tree_of value.now) }
{
    match value {
        AvnValue::Boolean(truth) => Ok(AvnValue::Boolean(*truth)),
        AvnValue::Integer(text) => Ok(AvnValue::Integer(copy_text(alloc, text)?)),
        AvnValue::OctetString(octets) => Ok(AvnValue::OctetString(copy_octets(alloc, octets)?)),
        AvnValue::BitString { bytes, bit_length } => {
            let bytes = copy_octets(alloc, bytes)?;
            Ok(AvnValue::BitString {
                bytes,
                bit_length: *bit_length,
            })
        }
        AvnValue::Null => Ok(AvnValue::Null),
        AvnValue::Oid(arcs) => Ok(AvnValue::Oid(Vec::from_slice(alloc, arcs)?)),
        AvnValue::Real(text) => Ok(AvnValue::Real(copy_text(alloc, text)?)),
        AvnValue::Enumerated(text) => Ok(AvnValue::Enumerated(copy_text(alloc, text)?)),
        AvnValue::Sequence(fields) => Ok(AvnValue::Sequence(copy_fields(alloc, fields)?)),
        AvnValue::SequenceOf(list) => Ok(AvnValue::SequenceOf(copy_list(alloc, list)?)),
        AvnValue::Choice { identifier, value } => {
            let identifier = copy_text(alloc, identifier)?;
            let value = Box::new(alloc, copy_value(alloc, value)?)?;
            Ok(AvnValue::Choice { identifier, value })
        }
        AvnValue::CharString(text) => Ok(AvnValue::CharString(copy_text(alloc, text)?)),
    }
}

/// Returns copies of the values of a list.
///
/// # Errors
///
/// `OutOfMemory` alone.
#[cycle(copy)]
fn copy_list(alloc: Global, list: &Vec<AvnValue>) -> Result<Vec<AvnValue>, OutOfMemory>
    ensures { IfOk result (λ copies. list_trees copies.items ≡ list_trees list.now.items) }
{
    let mut copies = Vec::with_capacity(alloc, list.len())?;
    for item in list.iter() {
        copies.push(copy_value(alloc, item)?)?;
    }
    Ok(copies)
}

/// Returns copies of the fields of a sequence.
///
/// # Errors
///
/// `OutOfMemory` alone.
#[cycle(copy)]
fn copy_fields(
    alloc: Global,
    fields: &Vec<(String, Option<AvnValue>)>,
) -> Result<Vec<(String, Option<AvnValue>)>, OutOfMemory>
    ensures { IfOk result (λ copies. fields_trees copies.items ≡ fields_trees fields.now.items) }
{
    let mut copies = Vec::with_capacity(alloc, fields.len())?;
    for (name, slot) in fields.iter() {
        let name = copy_text(alloc, name)?;
        let slot = match slot {
            Some(value) => Some(copy_value(alloc, value)?),
            None => None,
        };
        copies.push((name, slot))?;
    }
    Ok(copies)
}

impl AvnValue {
    /// Returns a copy of the value.
    ///
    /// # Errors
    ///
    /// `OutOfMemory` alone.
    pub fn try_clone(&self, alloc: Global) -> Result<AvnValue, OutOfMemory>
        ensures { IfOk result (λ copy. tree_of copy ≡ tree_of self.now) }
    {
        copy_value(alloc, self)
    }
}
