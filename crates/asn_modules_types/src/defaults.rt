//! Reads the values that DEFAULT states.
ghost use Rattle.asn_model.specs.Readable.{is_of_shape};
ghost use Rattle.asn_model.specs.ShapeView.{plain_view, presence_view, shape_view};
ghost use Rattle.asn_modules_names.specs.Assigned.{first_found};
ghost use Rattle.asn_modules_grammar.specs.notation.View.{notation_view};
ghost use Rattle.asn_modules_types.specs.Defaults.{boolean_named, default_of, is_numeric};
ghost use Rattle.asn_modules_types.specs.Defaults.{number_default, number_plain};
ghost use Rattle.asn_modules_types.specs.Defaults.{number_said, plain_in, suited};
ghost use Rattle.asn_modules_types.specs.Defaults.{string_in, string_plain, word_plain};
ghost use Rattle.asn_modules_types.specs.Known.{KnowsNames, scope_view, sources_of, stated_view};
ghost use Rattle.asn_modules_types.specs.Linked.{number_word};
ghost use Rattle.asn_modules_types.specs.Numbers.{constant_in, named_number};
ghost use Rattle.asn_modules_types.specs.Types.{number_in_type, presence_of};
ghost use Rattle.asn_modules_types.specs.Values.{values_from};
ghost use Rattle.std.specs.Prelude.{◌≡◌, IfOk, false, ℕ, option_map};

use crate::assigned::{assigned_at, notation_of};
use crate::fault::LinkFault;
use crate::limits::NAME_LIMIT;
use crate::names::Names;
use crate::numbers::signed_in;
use crate::scope::{Scope, find, number_at, stated_here};
use crate::values::{StatedValue, next_value};
use crate::words::{string_in, string_of, word_in};
use asn_lexer::Token;
use asn_model::{Plain, PresenceShape, Shape, is_of_shape};
use asn_modules_errors::text_of;
use asn_modules_grammar::notation::{Base, Constant, NamedNumber, Notation, Presence, Value};
use std::alloc::Global;

/// Returns the number that a constant is, or `None` where it is the name of a value that leads to
/// none.
fn constant_in(scope: &Scope<'_, '_, '_>, constant: Constant) -> Option<i128>
    requires known { KnowsNames scope.now.names.now }
    ensures { (limit : ℕ) → result ≡ constant_in (scope_view limit scope.now) constant }
{
    match constant {
        Constant::Number(number) => signed_in(scope.home.source.text, number),
        Constant::Name(name) => number_at(scope, Value::Word(name)),
    }
}

/// Returns the number that the word names first, or `None` where it names none: `Some(None)` is one
/// that isn't known.
fn named_number(
    scope: &Scope<'_, '_, '_>,
    named: &[NamedNumber],
    word: &[u8],
) -> Option<Option<i128>>
    requires known { KnowsNames scope.now.names.now }
    ensures { (limit : ℕ)
        → result ≡ named_number (scope_view limit scope.now) named.now word.now }
{
    for entry in named {
        if text_of(scope.home.source.text, entry.name) == word {
            return Some(constant_in(scope, entry.number));
        }
    }
    None
}

/// Returns the number that the word names in the type of the number, past at most so many names.
#[cycle(words)]
fn number_word<'t>(
    names: &Names<'_, 't>,
    more: usize,
    number: usize,
    word: &'t [u8],
) -> Option<Option<i128>>
    requires known { KnowsNames names.now }
    ensures { result ≡ number_word (sources_of names.now) more number word.now }
{
    if more == 0 {
        return None;
    }
    let assigned = assigned_at(names.types, number)?;
    let scope = Scope {
        names: &*names,
        number: assigned.number,
        home: assigned.home,
        within: false,
        bindings: &[],
    };
    let notation = notation_of(assigned.assignment);
    match &notation.base {
        Base::Reference { module, name } => {
            let next = find(&scope, *module, *name)?;
            number_word(names, more - 1, next, word)
        }
        _ => {
            let constant = names.numbers.constant(number, word)?;
            Some(constant_in(&scope, constant))
        }
    }
}

/// Returns the number that the word names in the type, past at most so many names.
fn number_in_type<'t>(
    scope: &Scope<'_, '_, 't>,
    more: usize,
    notation: &Notation,
    word: &'t [u8],
) -> Option<Option<i128>>
    requires known { KnowsNames scope.now.names.now }
    ensures { result ≡ number_in_type (scope_view more scope.now) (notation_view notation.now)
        word.now }
{
    match &notation.base {
        // The table has none of the lists that stand in components.
        Base::Integer(named) => named_number(scope, named.as_slice(), word),
        Base::Reference { module, name } => {
            let number = find(scope, *module, *name)?;
            number_word(scope.names, more, number, word)
        }
        Base::Leaf(_) => None,
        Base::BitString(_) => None,
        Base::Enumerated { .. } => None,
        Base::Sequence(_) => None,
        Base::Set(_) => None,
        Base::SequenceOf(_) => None,
        Base::SetOf(_) => None,
        Base::Choice(_) => None,
        Base::Instance { .. } => None,
    }
}

/// Returns the truth value that the word names, or `None` where it names none.
fn boolean_named(word: &[u8]) -> Option<Plain>
    ensures { option_map plain_view result ≡ boolean_named word.now }
{
    if word == b"TRUE".as_slice() {
        Some(Plain::Bool(true))
    } else if word == b"FALSE".as_slice() {
        Some(Plain::Bool(false))
    } else {
        None
    }
}

/// Returns what a word is as a value of the shape, or `None` where it is none.
///
/// # Errors
///
/// Only `OutOfMemory`.
fn word_plain(alloc: Global, shape: &Shape, word: &[u8]) -> Result<Option<Plain>, LinkFault>
    ensures { IfOk result (λ o. option_map plain_view o
        ≡ word_plain (shape_view shape.now) word.now) }
{
    match shape {
        Shape::Bool => Ok(boolean_named(word)),
        Shape::Enum { .. } => Ok(Some(Plain::Item(string_of(alloc, word)?))),
        _ => Ok(None),
    }
}

/// Returns what a string in this text is as a value of the shape, or `None` where it is none.
///
/// # Errors
///
/// Only `OutOfMemory`.
fn string_plain(
    alloc: Global,
    shape: &Shape,
    text: &str,
    token: Token,
) -> Result<Option<Plain>, LinkFault>
    ensures { IfOk result (λ o. option_map plain_view o
        ≡ string_plain (shape_view shape.now) (string_in text.now token)) }
{
    match shape {
        Shape::Str { .. } => match string_in(alloc, text, token)? {
            Some(string) => Ok(Some(Plain::Text(string))),
            None => Ok(None),
        },
        _ => Ok(None),
    }
}

/// Returns what a value in this text is as one of the shape, which is no INTEGER, or `None` where
/// it isn't understood.
///
/// # Errors
///
/// Only `OutOfMemory`.
fn plain_in(
    alloc: Global,
    shape: &Shape,
    text: &str,
    value: Value,
) -> Result<Option<Plain>, LinkFault>
    ensures { IfOk result (λ o. option_map plain_view o
        ≡ plain_in (shape_view shape.now) text.now value) }
{
    match value {
        Value::Word(token) => word_plain(alloc, shape, word_in(text, token)),
        Value::Cstring(token) => string_plain(alloc, shape, text, token),
        _ => Ok(None),
    }
}

/// Returns the value, if it is one of the shape.
fn suited(shape: &Shape, plain: Option<Plain>) -> Option<Plain>
    ensures { option_map plain_view result
        ≡ suited (shape_view shape.now) (option_map plain_view plain) }
{
    match plain {
        Some(plain) => {
            if is_of_shape(shape, &plain) {
                Some(plain)
            } else {
                None
            }
        }
        None => None,
    }
}

/// Returns what a value in this text is, if it is one of the shape, which is no INTEGER.
///
/// # Errors
///
/// Only `OutOfMemory`.
fn suited_in(
    alloc: Global,
    shape: &Shape,
    text: &str,
    value: Value,
) -> Result<Option<Plain>, LinkFault>
    ensures { IfOk result (λ o. option_map plain_view o ≡ suited (shape_view shape.now)
        (plain_in (shape_view shape.now) text.now value)) }
{
    let plain = plain_in(alloc, shape, text, value)?;
    Ok(suited(shape, plain))
}

/// Returns the first of the values that this one leads to, past at most so many names, that is one
/// of the shape, which is no INTEGER.
///
/// # Errors
///
/// Only `OutOfMemory`.
#[cycle(defaults)]
fn default_from<'s, 't>(
    scope: &Scope<'_, 's, 't>,
    shape: &Shape,
    more: usize,
    stated: StatedValue<'s, 't>,
) -> Result<Option<Plain>, LinkFault>
    requires known { KnowsNames scope.now.names.now }
    ensures { IfOk result (λ o. option_map plain_view o
        ≡ first_found (λ x. suited (shape_view shape.now) (plain_in (shape_view shape.now) x.0 x.1))
        (values_from (sources_of scope.now.names.now) false more (stated_view stated.entry))) }
{
    let text = stated.home.source.text;
    if let Some(plain) = suited_in(scope.names.alloc, shape, text, stated.value)? {
        return Ok(Some(plain));
    }
    if more == 0 {
        return Ok(None);
    }
    match next_value(scope.names, false, stated) {
        Some(next) => default_from(scope, shape, more - 1, next),
        None => Ok(None),
    }
}

/// Returns the number that a word in the scope names in the type, or `None` where it names none:
/// `Some(None)` is one that isn't known.
fn number_said(scope: &Scope<'_, '_, '_>, notation: &Notation, value: Value) -> Option<Option<i128>>
    requires known { KnowsNames scope.now.names.now }
    ensures { result ≡ number_said
        (number_in_type (scope_view NAME_LIMIT scope.now) (notation_view notation.now))
        (scope_view NAME_LIMIT scope.now).text value }
{
    match value {
        Value::Word(token) => {
            let word = word_in(scope.home.source.text, token);
            number_in_type(scope, NAME_LIMIT, notation, word)
        }
        _ => None,
    }
}

/// Returns the number that a DEFAULT of this type states, or `None` where it isn't understood: a
/// named number of the type, else the number that the value leads to.
fn number_default(scope: &Scope<'_, '_, '_>, notation: &Notation, value: Value) -> Option<i128>
    requires known { KnowsNames scope.now.names.now }
    ensures { result ≡ number_default (scope_view NAME_LIMIT scope.now)
        (number_in_type (scope_view NAME_LIMIT scope.now) (notation_view notation.now)) value }
{
    match number_said(scope, notation, value) {
        Some(named) => named,
        None => number_at(scope, value),
    }
}

/// Returns whether the shape is that of an INTEGER.
fn is_numeric(shape: &Shape) -> bool
    ensures { result ≡ is_numeric (shape_view shape.now) }
{
    match shape {
        Shape::Int { .. } => true,
        _ => false,
    }
}

/// Returns the number as a value of the shape, if it is one.
fn suited_number(shape: &Shape, number: Option<i128>) -> Option<Plain>
    ensures { option_map plain_view result
        ≡ suited (shape_view shape.now) (number_plain number) }
{
    match number {
        Some(number) => suited(shape, Some(Plain::Int(number))),
        None => None,
    }
}

/// Returns the value of the shape of this type that a DEFAULT states, or `None` where it isn't
/// understood.
///
/// # Errors
///
/// Only `OutOfMemory`.
fn default_of(
    scope: &Scope<'_, '_, '_>,
    notation: &Notation,
    shape: &Shape,
    value: Value,
) -> Result<Option<Plain>, LinkFault>
    requires known { KnowsNames scope.now.names.now }
    ensures { IfOk result (λ o. option_map plain_view o
        ≡ default_of (scope_view NAME_LIMIT scope.now)
        (number_in_type (scope_view NAME_LIMIT scope.now) (notation_view notation.now))
        (shape_view shape.now) value) }
{
    if is_numeric(shape) {
        return Ok(suited_number(shape, number_default(scope, notation, value)));
    }
    default_from(scope, shape, NAME_LIMIT, stated_here(scope, value))
}

/// Returns whether a part of this type and shape may be absent, or `None` where its DEFAULT isn't
/// understood. `grouped` states whether it stands between version brackets.
///
/// # Errors
///
/// Only `OutOfMemory`.
pub fn presence_of(
    scope: &Scope<'_, '_, '_>,
    grouped: bool,
    notation: &Notation,
    shape: &Shape,
    presence: Presence,
) -> Result<Option<PresenceShape>, LinkFault>
    requires known { KnowsNames scope.now.names.now }
    ensures { IfOk result (λ o. option_map presence_view o
        ≡ presence_of (scope_view NAME_LIMIT scope.now) grouped (notation_view notation.now)
        (shape_view shape.now) presence) }
{
    match presence {
        Presence::Required => {
            if grouped {
                Ok(Some(PresenceShape::Optional))
            } else {
                Ok(Some(PresenceShape::Required))
            }
        }
        Presence::Optional => Ok(Some(PresenceShape::Optional)),
        Presence::Default(value) => match default_of(scope, notation, shape, value)? {
            Some(plain) => Ok(Some(PresenceShape::Default(plain))),
            None => Ok(None),
        },
    }
}
