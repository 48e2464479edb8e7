//! Prints, copies and normalizes values of the notation with ample memory.
use crate::avn::kinds::{assert_owned, assert_text, copy_of, kinds, let_go, normal_form, read};
use avn_value::AvnValue;
use std::alloc::{AllocError, Global};
use std::process::Abort;
use std::test::Fail;

/// Returns an owned text.
fn string(alloc: Global, text: &str) -> Result<String, AllocError> {
    String::from_str(alloc, text)
}

/// Returns a bit string of these octets, of which a number of bits counts.
fn bits(alloc: Global, octets: &[u8], bit_length: usize) -> Result<AvnValue, AllocError> {
    Ok(AvnValue::BitString {
        bytes: Vec::from_slice(alloc, octets)?,
        bit_length,
    })
}

/// Returns one field of this name, without a value.
fn absent_field(alloc: Global, name: &str) -> Result<AvnValue, AllocError> {
    let name = string(alloc, name)?;
    Ok(AvnValue::Sequence(Vec::from_array(alloc, [(name, None)])?))
}

/// Returns a field with a value, and an absent one.
fn two_fields(alloc: Global) -> Result<AvnValue, AllocError> {
    let present = string(alloc, "field1")?;
    let absent = string(alloc, "field2")?;
    let fields = [(present, Some(AvnValue::Boolean(true))), (absent, None)];
    Ok(AvnValue::Sequence(Vec::from_array(alloc, fields)?))
}

/// Returns a choice of this identifier, whose payload is NULL.
fn choice(alloc: Global, identifier: &str) -> Result<AvnValue, AllocError> {
    Ok(AvnValue::Choice {
        identifier: string(alloc, identifier)?,
        value: Box::new(alloc, AvnValue::Null)?,
    })
}

/// Holds a value's printed text, and the variants and the printed text of its normal form.
type Row = (&'static str, &'static str, &'static str);

/// Lists the texts of values that are not their own normal form, by their places: a real without a
/// fraction, arcs, absent fields, and bits of whole octets or with others past their length.
const OTHER_FORMS: [Row; 6] = [
    // A number without a fraction is read as an integer.
    ("5", "Integer", "5"),
    // Arcs are printed on one line, and the list that is read from it on several.
    ("{ 2 5 }", "SequenceOf Integer Integer", "{\n  2,\n  5\n}"),
    // An absent field leaves no line.
    (
        "{\n  field1 TRUE\n}",
        "Sequence Boolean",
        "{\n  field1 TRUE\n}",
    ),
    // Where no field is present, the braces are those of an empty list.
    ("{}", "SequenceOf", "{}"),
    // Eight bits are printed as an octet, and read as octets.
    ("'A0'H", "OctetString", "'A0'H"),
    // Five bits past the length are not printed.
    ("'111'B", "BitString", "'111'B"),
];

/// Returns the value at this place of `OTHER_FORMS`.
fn other_form(alloc: Global, place: usize) -> Result<AvnValue, AllocError> {
    match place {
        0 => Ok(AvnValue::Real(string(alloc, "5")?)),
        1 => Ok(AvnValue::Oid(Vec::from_slice(alloc, &[2, 5])?)),
        2 => two_fields(alloc),
        3 => absent_field(alloc, "absent"),
        4 => bits(alloc, &[0xA0], 8),
        _ => bits(alloc, &[0xFF], 3),
    }
}

/// Checks that a value and a copy of it have the same variants and print this text.
fn assert_copied(rt: &impl Abort, alloc: Global, value: &AvnValue, text: &str) -> Result<(), Fail> {
    let own = kinds(alloc, value)?;
    let copy = copy_of(alloc, value)?;
    assert_owned(rt, alloc, copy, own.as_str(), text)
}

/// Checks a value, a copy of it, its normal form and what its text is read as. The normal form may
/// have other variants than the value.
fn assert_forms(rt: &impl Abort, alloc: Global, value: &AvnValue, row: &Row) -> Result<(), Fail> {
    let (text, variants, normal_text) = *row;
    assert!(rt; value.is_well_formed());
    assert_text(rt, value.to_string(alloc)?.as_str(), text);
    assert_copied(rt, alloc, value, text)?;
    assert_owned(rt, alloc, normal_form(alloc, value)?, variants, normal_text)?;
    assert_owned(rt, alloc, read(alloc, text)?, variants, normal_text)
}

/// Checks the value at this place of `OTHER_FORMS`.
fn assert_other_form(rt: &impl Abort, alloc: Global, place: usize, row: &Row) -> Result<(), Fail> {
    let value = other_form(alloc, place)?;
    let checked = assert_forms(rt, alloc, &value, row);
    let_go(value);
    checked
}

/// Values are printed as their text and are well formed, a copy is the same value, and the normal
/// form is what their printed text is read as.
#[test]
fn values_are_printed_and_copied_and_have_a_normal_form(rt: HostRuntime) -> Result<(), Fail> {
    for (place, row) in OTHER_FORMS.iter().enumerate() {
        // The place of the texts in the list is that of their value.
        assert_other_form(&rt, rt.alloc(), place, row)?;
    }
    Ok(())
}

/// Returns whether the value is the bit string of these octets, of which a number of bits counts.
fn is_bits(value: &AvnValue, octets: &[u8], length: usize) -> bool {
    match value {
        AvnValue::BitString { bytes, bit_length } => {
            bytes.as_slice() == octets && *bit_length == length
        }
        _ => false,
    }
}

/// Returns the normal form of the octet 0xFF as three bits.
fn normal_bits(alloc: Global) -> Result<AvnValue, Fail> {
    let value = bits(alloc, &[0xFF], 3)?;
    let normal = normal_form(alloc, &value);
    let_go(value);
    normal
}

/// The bits past the length are set to 0 by the normal form, which its printed text can't show.
/// Of 0xFF, three bits are left: 0xE0.
#[test]
fn bits_past_the_length_are_zero_in_a_normal_form(rt: HostRuntime) -> Result<(), Fail> {
    let normal = normal_bits(rt.alloc())?;
    let is_found = is_bits(&normal, &[0xE0], 3);
    let_go(normal);
    assert!(rt; is_found);
    Ok(())
}

/// Counts the values of `ill_formed`.
const ILL_FORMED: usize = 7;

/// Returns a value that no text gives: a number without digits, a real that ends with its point, a
/// keyword as an item, more or fewer octets than the bits need, and names that are no identifiers.
fn ill_formed(alloc: Global, place: usize) -> Result<AvnValue, AllocError> {
    match place {
        // A text that is no number, and a number that ends with its point.
        0 => Ok(AvnValue::Integer(string(alloc, "x")?)),
        1 => Ok(AvnValue::Real(string(alloc, "1.")?)),
        // A word that means NULL.
        2 => Ok(AvnValue::Enumerated(string(alloc, "NULL")?)),
        // Three bits need one octet.
        3 => bits(alloc, &[], 3),
        4 => bits(alloc, &[0, 0], 3),
        // An absent field has a name too, which is no identifier here.
        5 => absent_field(alloc, "1"),
        // A blank would end the identifier.
        _ => choice(alloc, "a b"),
    }
}

/// Values that cannot be read again are not well formed.
#[test]
fn values_that_cannot_be_read_again_are_not_well_formed(rt: HostRuntime) -> Result<(), Fail> {
    for place in 0..ILL_FORMED {
        let value = ill_formed(rt.alloc(), place)?;
        let is_well_formed = value.is_well_formed();
        let_go(value);
        assert!(rt; !is_well_formed, "value {place}");
    }
    Ok(())
}
