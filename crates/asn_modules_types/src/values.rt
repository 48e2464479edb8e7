//! Follows the names of values.
ghost use Rattle.asn_modules_names.specs.Assigned.{first_found};
ghost use Rattle.asn_modules_names.specs.lookup.Homes.{home_view};
ghost use Rattle.asn_modules_names.specs.lookup.Indexes.{IsIndexOf};
ghost use Rattle.asn_modules_names.specs.declared.lookup.sort.Sort.{Sort};
ghost use Rattle.asn_modules_grammar.specs.notation.View.{assignment_view, notation_view};
ghost use Rattle.asn_modules_names.specs.Mentions.{Source};
ghost use Rattle.asn_modules_types.specs.Known.{KnowsNames, sources_of, stated_view};
ghost use Rattle.asn_modules_types.specs.Numbers.{number_of_value};
ghost use Rattle.asn_modules_types.specs.Values.{followed, found_in, has_none, is_unnamed};
ghost use Rattle.asn_modules_types.specs.Values.{may_name, next_value, number_named};
ghost use Rattle.asn_modules_types.specs.Values.{values_from};
ghost use Rattle.std.specs.Prelude.{◌≡◌, List, option_map, true};

use crate::assigned::assigned_at;
use crate::names::Names;
use crate::numbers::signed_in;
use asn_lexer::Token;
use asn_modules_errors::text_of;
use asn_modules_grammar::notation::{Assignment, Base, NamedNumber, Notation, Value};
use asn_modules_names::lookup::{Home, Index};

/// Is a value as it stands in a module.
#[derive(Clone, Copy, Drop)]
pub struct StatedValue<'s, 't> {
    /// Is the number of the module.
    pub number: usize,
    /// Is the module in its text.
    pub home: Home<'s, 't>,
    /// Is the value.
    pub value: Value,
}

/// Returns the number of the type or value that a name stands for in the module of the number,
/// after the name of its module where that is stated, or `None` where it is missing.
pub fn found_in<'t>(
    index: &Index<'t>,
    number: usize,
    home: Home<'_, 't>,
    module_name: Option<Token>,
    name: Token,
) -> Option<usize>
    ensures { (sort : Sort) (ss : List Source) → IsIndexOf sort ss index.now
        → result ≡ found_in sort ss number (home_view home.entry) module_name name }
{
    let text = home.source.text;
    match module_name {
        Some(token) => index.find(number, Some(text_of(text, token)), text_of(text, name)),
        None => index.find(number, None, text_of(text, name)),
    }
}

/// Returns the number of the value that this one is the name of, or `None` where it is none.
fn number_named<'s, 't>(names: &Names<'s, 't>, stated: StatedValue<'s, 't>) -> Option<usize>
    requires known { KnowsNames names.now }
    ensures { result ≡ number_named (sources_of names.now) stated.entry.number
        (home_view stated.entry.home) stated.entry.value }
{
    let index = names.value_index;
    match stated.value {
        Value::Word(name) => found_in(index, stated.number, stated.home, None, name),
        Value::Qualified { module, name } => {
            found_in(index, stated.number, stated.home, Some(module), name)
        }
        _ => None,
    }
}

/// Returns whether these named numbers are none.
fn has_none(named: &[NamedNumber]) -> bool
    ensures { result ≡ has_none named.now }
{
    match named {
        [] => true,
        [_first, ..] => false,
    }
}

/// Returns whether the type is an INTEGER without named numbers.
fn is_unnamed(notation: &Notation) -> bool
    ensures { result ≡ is_unnamed (notation_view notation.now) }
{
    match &notation.base {
        Base::Integer(named) => has_none(named.as_slice()),
        Base::Leaf(_) => false,
        Base::BitString(_) => false,
        Base::Enumerated { .. } => false,
        Base::Sequence(_) => false,
        Base::Set(_) => false,
        Base::SequenceOf(_) => false,
        Base::SetOf(_) => false,
        Base::Choice(_) => false,
        Base::Reference { .. } => false,
        Base::Instance { .. } => false,
    }
}

/// Returns whether the value is a word, to which this type may give a meaning of its own.
fn may_name(notation: &Notation, value: Value) -> bool
    ensures { result ≡ may_name (notation_view notation.now) value }
{
    match value {
        Value::Word(_) => !is_unnamed(notation),
        _ => false,
    }
}

/// Returns the value that is assigned, or `None` where none is. Where numbers alone are looked for,
/// it is `None` too for a word that its type may give a meaning of its own.
fn followed(numeric: bool, assignment: &Assignment) -> Option<Value>
    ensures { result ≡ followed numeric (assignment_view assignment.now) }
{
    match assignment {
        Assignment::Value {
            notation,
            value,
            ..
        } => {
            if numeric && may_name(notation, *value) {
                None
            } else {
                Some(*value)
            }
        }
        Assignment::Type { .. } => None,
        Assignment::Template { .. } => None,
    }
}

/// Returns the value that is assigned to the name that this one is, or `None` where it is none.
/// `numeric` states that numbers alone are looked for.
pub fn next_value<'s, 't>(
    names: &Names<'s, 't>,
    numeric: bool,
    stated: StatedValue<'s, 't>,
) -> Option<StatedValue<'s, 't>>
    requires known { KnowsNames names.now }
    ensures { option_map stated_view result
        ≡ next_value (sources_of names.now) numeric (stated_view stated.entry) }
{
    let Some(number) = number_named(names, stated) else {
        return None;
    };
    let Some(assigned) = assigned_at(names.values, number) else {
        return None;
    };
    let Some(value) = followed(numeric, assigned.assignment) else {
        return None;
    };
    Some(StatedValue {
        number: assigned.number,
        home: assigned.home,
        value,
    })
}

/// Returns the number that a value in its text is, or `None` where it is none.
fn number_of_value(text: &str, value: Value) -> Option<i128>
    ensures { result ≡ number_of_value text.now value }
{
    match value {
        Value::Number(number) => signed_in(text, number),
        _ => None,
    }
}

/// Returns the first of the values that this one leads to, past at most so many names, that is a
/// number.
#[cycle(follow)]
pub fn number_from<'s, 't>(
    names: &Names<'s, 't>,
    more: usize,
    stated: StatedValue<'s, 't>,
) -> Option<i128>
    requires known { KnowsNames names.now }
    ensures { result ≡ first_found (λ x. number_of_value x.0 x.1)
        (values_from (sources_of names.now) true more (stated_view stated.entry)) }
{
    let number = number_of_value(stated.home.source.text, stated.value);
    if number.is_some() {
        return number;
    }
    if more == 0 {
        return None;
    }
    match next_value(names, true, stated) {
        Some(next) => number_from(names, more - 1, next),
        None => None,
    }
}
