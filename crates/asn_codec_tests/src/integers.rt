//! Takes numbers through the bound of the integer types.
use crate::checks::assert_same;
use asn_traits::IntegerType;
use std::process::Abort;

/// Returns the sign and magnitude again, by way of a value of the type.
fn through<I: IntegerType>(negative: bool, magnitude: u128) -> Option<(bool, u128)> {
    Some(I::of_parts(negative, magnitude)?.parts())
}

/// Checks what the number of these parts is by way of a value of the type.
fn assert_through<I: IntegerType>(
    rt: &impl Abort,
    negative: bool,
    magnitude: u128,
    want: Option<(bool, u128)>,
) {
    assert_same(rt, through::<I>(negative, magnitude), want);
}

/// A number of a type comes back as it was, and one outside its range is none: at both edges of a
/// type, at a negative zero, and at the widest magnitudes.
#[test]
fn numbers_through_a_type(rt: HostRuntime) {
    // -128 is the least number of `i8`, and 127 the greatest.
    assert_through::<i8>(&rt, true, 128, Some((true, 128)));
    assert_through::<i8>(&rt, true, 129, None);
    assert_through::<i8>(&rt, false, 127, Some((false, 127)));
    assert_through::<i8>(&rt, false, 128, None);
    // A negative zero is zero.
    assert_through::<i8>(&rt, true, 0, Some((false, 0)));
    // The greatest magnitude fits where there is no sign, and none below zero fits there.
    assert_through::<u128>(&rt, false, u128::MAX, Some((false, u128::MAX)));
    assert_through::<u64>(&rt, true, 1, None);
    assert_through::<i128>(&rt, true, u128::MAX, None);
}
