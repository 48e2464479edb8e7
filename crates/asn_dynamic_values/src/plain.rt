//! Compares a value with the default of a field.
ghost use Rattle.asn_core.specs.Numbers.{signed};
ghost use Rattle.asn_dynamic_values.specs.DynView.{dyn_value};
ghost use Rattle.asn_model.specs.ShapeView.{plain_view};
ghost use Rattle.asn_model.specs.Value.{is_plain};
ghost use Rattle.std.specs.Ordering.{int_eq};
ghost use Rattle.std.specs.Prelude.{◌≡◌};

use crate::DynValue;
use crate::order::compare_numbers;
use asn_core::WholeNumber;
use asn_integers::IntegerType;
use asn_model::Plain;
use std::cmp::Ordering;

/// Returns whether the value is the one that a DEFAULT names.
pub fn is_plain(plain: &Plain, value: &DynValue) -> bool
    ensures { result ≡ is_plain (plain_view plain.now) (dyn_value value.now) }
{
    match (plain, value) {
        (Plain::Bool(flag), DynValue::Bool(other)) => *flag == *other,
        (Plain::Int(number), DynValue::Int(other)) => is_number(*number, *other),
        (Plain::Text(text), DynValue::Text(other)) => text.as_bytes() == other.as_slice(),
        (Plain::Item(item), DynValue::Item(other)) => item.as_str() == other.as_str(),
        _ => false,
    }
}

/// Returns whether both are the same number. A negative zero is zero.
fn is_number(number: i128, other: WholeNumber) -> bool
    ensures { result ≡ int_eq number (signed other.negative other.magnitude) }
{
    let (negative, magnitude) = number.parts();
    let number = WholeNumber {
        negative,
        magnitude,
    };
    compare_numbers(number, other) == Ordering::Equal
}
