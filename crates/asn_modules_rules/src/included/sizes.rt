//! Takes what stands in types beside their parts off so many bytes.
ghost use Rattle.asn_modules_rules.specs.included.Sizes.{constraint_size, constraints_size};
ghost use Rattle.asn_modules_rules.specs.included.Sizes.{presence_size, reference_size, value_size};
ghost use Rattle.asn_modules_rules.specs.sizes.Sizes.{name_size, past};
ghost use Rattle.std.specs.Prelude.{◌≡◌, ◌+◌};

use crate::included::limits::INSTANCE_SIZE;
use crate::sizes::{ENTRY_SIZE, take_name};
use asn_lexer::Token;
use asn_modules_grammar::notation::{Presence, Size, Value};

/// Returns how many of so many bytes are left after the two names, or `None` where there aren't as
/// many. It is the same with the others below.
fn past_both(left: usize, first: Token, second: Token) -> Option<usize>
    ensures { result ≡ past left (name_size first + name_size second) }
{
    let rest = take_name(left, first)?;
    take_name(rest, second)
}

/// Returns how many are left after the name of a type, with that of its module where it is stated.
pub fn past_reference(left: usize, home: Option<Token>, name: Token) -> Option<usize>
    ensures { result ≡ past left (reference_size home name) }
{
    match home {
        Some(home) => past_both(left, home, name),
        None => take_name(left, name),
    }
}

/// Returns how many are left after a type with actual parameters.
pub fn past_instance(left: usize) -> Option<usize>
    ensures { result ≡ past left INSTANCE_SIZE }
{
    left.checked_sub(INSTANCE_SIZE)
}

/// Returns how many are left after the value.
fn past_value(left: usize, value: Value) -> Option<usize>
    ensures { result ≡ past left (value_size value) }
{
    match value {
        Value::Number(number) => take_name(left, number.digits),
        Value::Cstring(token) => take_name(left, token),
        Value::Bstring(token) => take_name(left, token),
        Value::Hstring(token) => take_name(left, token),
        Value::Word(token) => take_name(left, token),
        Value::Qualified { module, name } => past_both(left, module, name),
        Value::Other(token) => take_name(left, token),
    }
}

/// Returns how many are left after the DEFAULT, if there is one.
pub fn past_presence(left: usize, presence: Presence) -> Option<usize>
    ensures { result ≡ past left (presence_size presence) }
{
    match presence {
        Presence::Required => Some(left),
        Presence::Optional => Some(left),
        Presence::Default(value) => past_value(left, value),
    }
}

/// Returns how many are left after the size that a constraint states.
fn past_constraint(left: usize, size: Size) -> Option<usize>
    ensures { result ≡ past left (constraint_size size) }
{
    let rest = left.checked_sub(ENTRY_SIZE)?;
    past_both(rest, size.low, size.high)
}

/// Returns how many are left after the sizes that constraints state.
pub fn past_constraints(left: usize, sizes: &[Size]) -> Option<usize>
    ensures { result ≡ past left (constraints_size sizes.now) }
{
    let mut rest = left;
    for size in sizes {
        rest = past_constraint(rest, *size)?;
    }
    Some(rest)
}
