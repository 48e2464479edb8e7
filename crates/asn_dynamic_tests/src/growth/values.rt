//! Makes values that have no Rust type of their own, and shows what no contract states: that calls
//! succeed where there is memory.
use crate::growth::builders::MEMORY;
use crate::growth::checks::{assert_same, assert_true, let_go};
use asn_core::WholeNumber;
use asn_dynamic_values::{DynValue, bag};
use asn_times::Date;
use std::alloc::Global;
use std::cmp::Ordering;
use std::process::Abort;

/// Returns the whole number that isn't below zero.
fn number(magnitude: u128) -> DynValue {
    DynValue::Int(WholeNumber {
        negative: false,
        magnitude,
    })
}

/// Returns the magnitudes of the numbers that are elements of a SET OF.
fn magnitudes(rt: &impl Abort, alloc: Global, bag: &DynValue) -> Vec<u128> {
    let mut found = Vec::new(alloc);
    if let DynValue::Bag(elements) = bag {
        for element in elements {
            if let DynValue::Int(number) = element {
                found.push(number.magnitude).expect(rt, MEMORY);
            }
        }
    }
    found
}

/// The elements of a SET OF stand in their order, repeats kept.
#[test]
fn a_bag_is_in_order(rt: HostRuntime) {
    let alloc = rt.alloc();
    let elements = [number(2), number(10), number(1), number(2)];
    let elements = Vec::from_array(alloc, elements).expect(&rt, MEMORY);
    let made = bag(alloc, elements).expect(&rt, MEMORY);
    let found = magnitudes(&rt, alloc, &made);
    let_go(made);
    assert_same(&rt, found.as_slice(), [1, 2, 2, 10].as_slice());
}

/// Checks that a copy of the value is equal to it.
fn assert_copied(rt: &impl Abort, alloc: Global, value: DynValue) {
    let copy = value.try_clone(alloc).expect(rt, MEMORY);
    let order = copy.compare(&value);
    let_go(copy);
    let_go(value);
    assert_true(rt, order == Ordering::Equal);
}

/// Returns a member of this name.
fn member(
    rt: &impl Abort,
    alloc: Global,
    name: &str,
    value: Option<DynValue>,
) -> (String, Option<DynValue>) {
    (String::from_str(alloc, name).expect(rt, MEMORY), value)
}

/// Returns a SEQUENCE of two members, one of them absent.
fn members(rt: &impl Abort, alloc: Global) -> DynValue {
    let members = [
        member(rt, alloc, "id", Some(number(1))),
        member(rt, alloc, "note", None),
    ];
    DynValue::Members(Vec::from_array(alloc, members).expect(rt, MEMORY))
}

/// Returns the one octet 255.
fn octets(rt: &impl Abort, alloc: Global) -> DynValue {
    DynValue::Octets(Vec::from_slice(alloc, &[255]).expect(rt, MEMORY))
}

/// A copy is equal, whatever the kind.
#[test]
fn copies_are_equal(rt: HostRuntime) {
    let alloc = rt.alloc();
    assert_copied(&rt, alloc, DynValue::Null);
    assert_copied(&rt, alloc, number(7));
    assert_copied(&rt, alloc, octets(&rt, alloc));
    let day = Date::from_days(0).expect(&rt, "no day");
    assert_copied(&rt, alloc, DynValue::Day(day));
    assert_copied(&rt, alloc, members(&rt, alloc));
}
