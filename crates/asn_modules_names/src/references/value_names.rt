//! Tells the names of values.
ghost use Rattle.asn_modules_grammar.specs.notation.View.{assignment_view, notation_view};
ghost use Rattle.asn_modules_names.specs.references.ValueNames as spec;
ghost use Rattle.asn_modules_names.specs.references.ValueNames.{names_values, value_name};
ghost use Rattle.std.specs.Prelude.{◌≡◌};

use asn_lexer::{Kind, Token};
use asn_modules_grammar::notation::{Assignment, Base, Leaf, NamedNumber, Notation, Value};

/// Returns whether there are named numbers.
fn has_named(numbers: &[NamedNumber]) -> bool
    ensures { result ≡ spec.has_named numbers.now }
{
    match numbers {
        [] => false,
        [_first, ..] => true,
    }
}

/// Returns whether values of the type may have names: those of BOOLEAN do, and those of types that
/// aren't read may.
fn leaf_names(leaf: Leaf) -> bool
    ensures { result ≡ spec.leaf_names leaf }
{
    match leaf {
        Leaf::Boolean => true,
        Leaf::Closed(_) => true,
        Leaf::Null => false,
        Leaf::OctetString => false,
        Leaf::ObjectIdentifier => false,
        Leaf::Text(_) => false,
        Leaf::Bmp => false,
        Leaf::Teletex => false,
        Leaf::UtcTime => false,
        Leaf::GeneralizedTime => false,
        Leaf::Date => false,
    }
}

/// Returns whether the type may give names to values: whether it has named numbers or items, its
/// values have names, or it is a name itself.
fn names_values(notation: &Notation) -> bool
    ensures { result ≡ names_values (notation_view notation.now) }
{
    match &notation.base {
        Base::Integer(numbers) => has_named(numbers.as_slice()),
        Base::Enumerated { .. } => true,
        Base::Reference { .. } => true,
        Base::Instance { .. } => true,
        Base::Leaf(leaf) => leaf_names(*leaf),
        Base::BitString(_) => false,
        Base::Sequence(_) => false,
        Base::Set(_) => false,
        Base::SequenceOf(_) => false,
        Base::SetOf(_) => false,
        Base::Choice(_) => false,
    }
}

/// Returns the token where it is a name, and `None` else: NULL is none.
fn if_name(token: Token) -> Option<Token>
    ensures { result ≡ spec.if_name token.kind token }
{
    match token.kind {
        Kind::Name(_) => Some(token),
        _ => None,
    }
}

/// Returns the name that the value is, or `None` where it is none.
fn name_in(value: Value) -> Option<Token>
    ensures { result ≡ spec.name_in value }
{
    match value {
        Value::Word(token) => if_name(token),
        _ => None,
    }
}

/// Returns the name of a value that is assigned as a value, where the type gives no names to values
/// itself, or `None` where it is none.
pub fn value_name(assignment: &Assignment) -> Option<Token>
    ensures { result ≡ value_name (assignment_view assignment.now) }
{
    match assignment {
        Assignment::Type { .. } => None,
        Assignment::Template { .. } => None,
        Assignment::Value {
            notation,
            value,
            ..
        } => {
            if names_values(notation) {
                None
            } else {
                name_in(*value)
            }
        }
    }
}
