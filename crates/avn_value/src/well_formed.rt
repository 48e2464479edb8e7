//! Tests whether a value's printed text can be read again.
ghost use Rattle.std.specs.Prelude.{◌≡◌, ◌+◌, ◌/◌};
ghost use Rattle.std.specs.Str.{is_utf8};
ghost use Rattle.avn_grammar.specs.Chars.{all};
ghost use Rattle.avn_grammar.specs.Grammar.{is_real_keyword};
ghost use Rattle.avn_grammar.specs.WellFormed.{unsigned, is_digits, is_number, is_fraction};
ghost use Rattle.avn_grammar.specs.WellFormed.{is_decimal, is_identifier, is_keyword, is_octet};
ghost use Rattle.avn_grammar.specs.WellFormed.{is_arc, is_well_formed, are_well_formed};
ghost use Rattle.avn_grammar.specs.WellFormed.{are_fields_well_formed};
ghost use Rattle.avn_value.specs.View.{tree_of, list_trees, fields_trees};

use crate::value::AvnValue;
use avn_cursor::chars::{CharSet, all_pass, passes, past_run};
use avn_grammar::names::{is_identifier, is_keyword, is_real_keyword};

/// Returns the text without its sign.
fn unsigned(text: &[u8]) -> &[u8]
    ensures { result.now ≡ unsigned text.now }
{
    if !text.is_empty() && text[0] == b'-' {
        &text[1..]
    } else {
        text
    }
}

/// Returns whether the text is one digit or more.
fn is_digits(text: &[u8]) -> bool
    ensures { result ≡ is_digits text.now }
{
    !text.is_empty() && all_pass(CharSet::Digits, text)
}

/// Returns whether the text is an optional `-` and digits.
pub fn is_number(text: &str) -> bool
    ensures { result ≡ is_number text.now }
{
    is_digits(unsigned(text.as_bytes()))
}

/// Returns whether the text is a point and digits.
fn is_fraction(text: &[u8]) -> bool
    ensures { result ≡ is_fraction text.now }
{
    !text.is_empty() && text[0] == b'.' && is_digits(&text[1..])
}

/// Returns whether the text is an optional `-`, digits, a point and digits.
fn is_decimal(text: &str) -> bool
    ensures { result ≡ is_decimal text.now }
{
    let digits = unsigned(text.as_bytes());
    !digits.is_empty()
        && passes(CharSet::Digits, digits[0] as char)
        && is_fraction(past_run(CharSet::Digits, digits))
}

/// Returns how many octets so many bits take.
fn octets_for(bit_length: usize) -> usize
    ensures { result ≡ (bit_length + 7) / 8 }
{
    if bit_length % 8 == 0 {
        bit_length / 8
    } else {
        bit_length / 8 + 1
    }
}

/// Returns that the numbers are octets, as their type says.
fn are_octets(octets: &[u8]) -> bool
    ensures { result ≡ all is_octet octets.now }
{
    let _octets = octets;
    true
}

/// Returns that the numbers are arcs, as their type says.
fn are_arcs(arcs: &[u32]) -> bool
    ensures { result ≡ all is_arc arcs.now }
{
    let _arcs = arcs;
    true
}

/// Returns that the bytes of the text are UTF-8, as its type says.
fn is_utf8(text: &str) -> bool
    ensures { result ≡ is_utf8 text.now }
{
    let _text = text;
    true
}

/// Returns whether the value's printed text can be read again.
#[cycle(form)]
#[tactic(auto, unfolding(avn_grammar::specs::WellFormed::is_well_formed))]
fn is_value_well_formed(value: &AvnValue) -> bool
    ensures { result ≡ is_well_formed (tree_of value.now) }
{
    match value {
        AvnValue::Boolean(_) => true,
        AvnValue::Null => true,
        AvnValue::Integer(text) => is_number(text.as_str()),
        AvnValue::Real(text) => {
            let text = text.as_str();
            is_number(text) || is_decimal(text) || is_real_keyword(text)
        }
        AvnValue::OctetString(octets) => are_octets(octets),
        AvnValue::BitString { bytes, bit_length } => {
            are_octets(bytes) && bytes.len() == octets_for(*bit_length)
        }
        AvnValue::Oid(arcs) => are_arcs(arcs),
        AvnValue::Enumerated(text) => {
            let text = text.as_str();
            is_identifier(text) && !is_keyword(text)
        }
        AvnValue::CharString(text) => is_utf8(text.as_str()),
        AvnValue::Sequence(fields) => are_fields_well_formed(fields),
        AvnValue::SequenceOf(list) => is_list_well_formed(list),
        AvnValue::Choice { identifier, value } => {
            is_identifier(identifier.as_str()) && is_value_well_formed(value)
        }
    }
}

/// Returns whether the printed text of each value of the list can be read again.
#[cycle(form)]
fn is_list_well_formed(list: &Vec<AvnValue>) -> bool
    ensures { result ≡ are_well_formed (list_trees list.now.items) }
{
    for item in list.iter() {
        if !is_value_well_formed(item) {
            return false;
        }
    }
    true
}

/// Returns whether each name of the fields is an identifier, and each value's printed text can be
/// read again.
#[cycle(form)]
fn are_fields_well_formed(fields: &Vec<(String, Option<AvnValue>)>) -> bool
    ensures { result ≡ are_fields_well_formed (fields_trees fields.now.items) }
{
    for (name, slot) in fields.iter() {
        if !is_identifier(name.as_str()) {
            return false;
        }
        match slot {
            Some(value) => {
                if !is_value_well_formed(value) {
                    return false;
                }
            }
            None => {}
        }
    }
    true
}

impl AvnValue {
    /// Returns whether the value's printed text can be read again. Its numbers are spelled as X.680
    /// spells them (a Real with digits after its point, or as a keyword). Its names and identifiers
    /// are ASCII letters, digits, `-` and `_` after a letter, and no Enumerated is a keyword. A
    /// BitString has as many octets as its length needs.
    pub fn is_well_formed(&self) -> bool
        ensures { result ≡ is_well_formed (tree_of self.now) }
    {
        is_value_well_formed(self)
    }
}
