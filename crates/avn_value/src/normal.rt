//! Makes the normal form of a value.
ghost use Rattle.std.specs.Prelude.{◌≡◌, ◌<◌, ◌%◌, ◌≢◌, [], ◌∷◌, IfOk, take, string_bytes};
ghost use Rattle.avn_grammar.specs.Tree.{bit_string, real, sequence};
ghost use Rattle.avn_grammar.specs.Octets.{packed, bit_text};
ghost use Rattle.avn_grammar.specs.Normal.{normal, normal_trees, normal_fields, arc_trees};
ghost use Rattle.avn_value.specs.View.{tree_of, list_trees, fields_trees};

use crate::clone::{copy_octets, copy_text};
use crate::value::AvnValue;
use crate::well_formed::is_number;
use asn_core::OutOfMemory;
use std::alloc::Global;

/// Returns the first bits of an octet, fewer than eight, with zeros after them.
fn first_bits(octet: u8, count: usize) -> u8
    requires some { count ≢ 0 }
    requires below { count < 8 }
    ensures { result ∷ [] ≡ packed (take count (bit_text (octet ∷ []))) }
{
    let rest = 8 - count;
    octet >> rest << rest
}

/// Returns the octets of the first bits, with zeros after them.
///
/// # Errors
///
/// `OutOfMemory` alone.
fn octets_of_bits(alloc: Global, octets: &[u8], bit_length: usize) -> Result<Vec<u8>, OutOfMemory>
    requires { bit_length % 8 ≢ 0 }
    ensures { IfOk result (λ kept. kept.items ≡ packed (take bit_length (bit_text octets.now))) }
{
    let whole = bit_length / 8;
    if octets.len() <= whole {
        let kept = Vec::from_slice(alloc, octets)?;
        return Ok(kept);
    }
    let mut kept = Vec::from_slice(alloc, &octets[..whole])?;
    let last = first_bits(octets[whole], bit_length % 8);
    kept.push(last)?;
    Ok(kept)
}

/// Returns the normal form of a bit string.
///
/// # Errors
///
/// `OutOfMemory` alone.
#[tactic(auto, unfolding(avn_grammar::specs::Normal::normal))]
fn normal_bit_string(
    alloc: Global,
    octets: &Vec<u8>,
    bit_length: usize,
) -> Result<AvnValue, OutOfMemory>
    ensures { IfOk result (λ form. tree_of form
        ≡ normal (bit_string octets.now.items bit_length)) }
{
    if bit_length == 0 {
        return Ok(AvnValue::OctetString(Vec::new(alloc)));
    }
    if bit_length % 8 == 0 {
        let octets = copy_octets(alloc, octets)?;
        return Ok(AvnValue::OctetString(octets));
    }
    let bytes = octets_of_bits(alloc, octets, bit_length)?;
    Ok(AvnValue::BitString { bytes, bit_length })
}

/// Returns the normal form of a real number.
///
/// # Errors
///
/// `OutOfMemory` alone.
#[tactic(auto, unfolding(avn_grammar::specs::Normal::normal))]
fn normal_real(alloc: Global, text: &String) -> Result<AvnValue, OutOfMemory>
    ensures { IfOk result (λ form. tree_of form ≡ normal (real (string_bytes text.now))) }
{
    let copy = copy_text(alloc, text)?;
    if is_number(text.as_str()) {
        Ok(AvnValue::Integer(copy))
    } else {
        Ok(AvnValue::Real(copy))
    }
}

/// Returns the arcs as integers in decimal.
///
/// # Errors
///
/// `OutOfMemory` alone.
fn arc_integers(alloc: Global, arcs: &Vec<u32>) -> Result<Vec<AvnValue>, OutOfMemory>
    ensures { IfOk result (λ integers. list_trees integers.items ≡ arc_trees arcs.now.items) }
{
    let mut integers = Vec::with_capacity(alloc, arcs.len())?;
    for arc in arcs.iter() {
        let text = format!(in alloc; "{arc}")?;
        integers.push(AvnValue::Integer(text))?;
    }
    Ok(integers)
}

/// Returns the normal form of a value.
///
/// # Errors
///
/// `OutOfMemory` alone.
#[cycle(normal)]
#[tactic(auto, unfolding(avn_grammar::specs::Normal::normal))]
fn normal_value(alloc: Global, value: &AvnValue) -> Result<AvnValue, OutOfMemory>
    ensures { IfOk result (λ form. tree_of form ≡ normal (tree_of value.now)) }
{
    match value {
        AvnValue::Boolean(truth) => Ok(AvnValue::Boolean(*truth)),
        AvnValue::Integer(text) => Ok(AvnValue::Integer(copy_text(alloc, text)?)),
        AvnValue::OctetString(octets) => Ok(AvnValue::OctetString(copy_octets(alloc, octets)?)),
        AvnValue::BitString { bytes, bit_length } => normal_bit_string(alloc, bytes, *bit_length),
        AvnValue::Null => Ok(AvnValue::Null),
        AvnValue::Oid(arcs) => Ok(AvnValue::SequenceOf(arc_integers(alloc, arcs)?)),
        AvnValue::Real(text) => normal_real(alloc, text),
        AvnValue::Enumerated(text) => Ok(AvnValue::Enumerated(copy_text(alloc, text)?)),
        AvnValue::Sequence(fields) => normal_sequence(alloc, fields),
        AvnValue::SequenceOf(list) => Ok(AvnValue::SequenceOf(normal_list(alloc, list)?)),
        AvnValue::Choice { identifier, value } => {
            let identifier = copy_text(alloc, identifier)?;
            let value = Box::new(alloc, normal_value(alloc, value)?)?;
            Ok(AvnValue::Choice { identifier, value })
        }
        AvnValue::CharString(text) => Ok(AvnValue::CharString(copy_text(alloc, text)?)),
    }
}

/// Returns the normal forms of the values of a list.
///
/// # Errors
///
/// `OutOfMemory` alone.
#[cycle(normal)]
fn normal_list(alloc: Global, list: &Vec<AvnValue>) -> Result<Vec<AvnValue>, OutOfMemory>
    ensures { IfOk result (λ forms. list_trees forms.items
        ≡ normal_trees (list_trees list.now.items)) }
{
    let mut forms = Vec::with_capacity(alloc, list.len())?;
    for item in list.iter() {
        forms.push(normal_value(alloc, item)?)?;
    }
    Ok(forms)
}

/// Returns the normal form of a sequence of the fields.
///
/// # Errors
///
/// `OutOfMemory` alone.
#[cycle(normal)]
#[tactic(auto, unfolding(avn_grammar::specs::Normal::normal))]
fn normal_sequence(
    alloc: Global,
    fields: &Vec<(String, Option<AvnValue>)>,
) -> Result<AvnValue, OutOfMemory>
    ensures { IfOk result (λ form. tree_of form
        ≡ normal (sequence (fields_trees fields.now.items))) }
{
    let present = present_fields(alloc, fields)?;
    if present.is_empty() {
        Ok(AvnValue::SequenceOf(Vec::new(alloc)))
    } else {
        Ok(AvnValue::Sequence(present))
    }
}

/// Returns the fields that are present, with the normal forms of their values.
///
/// # Errors
///
/// `OutOfMemory` alone.
#[cycle(normal)]
fn present_fields(
    alloc: Global,
    fields: &Vec<(String, Option<AvnValue>)>,
) -> Result<Vec<(String, Option<AvnValue>)>, OutOfMemory>
    ensures { IfOk result (λ forms. fields_trees forms.items
        ≡ normal_fields (fields_trees fields.now.items)) }
{
    let mut forms = Vec::new(alloc);
    for (name, slot) in fields.iter() {
        match slot {
            Some(value) => {
                let name = copy_text(alloc, name)?;
                let form = normal_value(alloc, value)?;
                forms.push((name, Some(form)))?;
            }
            None => {}
        }
    }
    Ok(forms)
}

impl AvnValue {
    /// Returns the normal form of the value, which its printed text is read as. Absent fields are
    /// left out, and a sequence that is then empty is an empty list. An object identifier is the
    /// list of its arcs as integers. A bit string of whole octets is an octet string, and any other
    /// has zeros past its length. A real number without a point is an integer.
    ///
    /// # Errors
    ///
    /// `OutOfMemory` alone.
    pub fn normal(&self, alloc: Global) -> Result<AvnValue, OutOfMemory>
        ensures { IfOk result (λ form. tree_of form ≡ normal (tree_of self.now)) }
    {
        normal_value(alloc, self)
    }
}
