//! Tests sets of octets by examples.
use crate::checks::{MEMORY, assert_of, assert_true, is_equal, octets};
use asn_sets::SetOf;
use std::alloc::Global;
use std::process::Abort;

/// Two lists, and whether they are the same multiset.
const ROWS: [(&[u8], &[u8], bool); 5] = [
    (&[1, 1, 2], &[1, 2, 2], false),
    (&[1, 1, 2], &[2, 1, 1], true),
    (&[1, 1, 2], &[1, 2], false),
    (&[3, 1, 2], &[1, 2, 3], true),
    (&[], &[], true),
];

/// Returns the set of the octets.
fn set_of(rt: &impl Abort, alloc: Global, elements: &[u8]) -> SetOf<u8> {
    SetOf::from_vec(alloc, octets(rt, alloc, elements)).expect(rt, MEMORY)
}

/// Checks that the set of the octets has as many elements.
fn assert_length(rt: &impl Abort, alloc: Global, octets: &[u8]) {
    let set = set_of(rt, alloc, octets);
    let listed = set.to_vec(alloc).expect(rt, MEMORY);
    assert_true(rt, set.len() == octets.len());
    assert_true(rt, listed.len() == octets.len());
    assert_true(rt, set.is_empty() == octets.is_empty());
}

/// Two sets are equal where they have the same elements, each as often.
#[test]
fn equality_counts_repeats(rt: HostRuntime) {
    let alloc = rt.alloc();
    for row in ROWS.iter() {
        let one = set_of(&rt, alloc, row.0);
        let is_same = is_equal(&one, set_of(&rt, alloc, row.1));
        assert_of(&rt, is_same == row.2, row.0);
        assert_length(&rt, alloc, row.0);
    }
}

/// An element that is inserted twice is there twice.
#[test]
fn insert_keeps_repeats(rt: HostRuntime) {
    let alloc = rt.alloc();
    let mut set = SetOf::new(alloc);
    for element in [7u8, 7, 8] {
        assert!(rt; set.len() < 3);
        set.insert(element).expect(&rt, MEMORY);
    }
    assert_true(&rt, is_equal(&set, set_of(&rt, alloc, &[8, 7, 7])));
    // The elements have no order, so the list of them is compared as a set too.
    let mut listed = SetOf::new(alloc);
    for element in set.to_vec(alloc).expect(&rt, MEMORY) {
        assert!(rt; listed.len() < 3);
        listed.insert(*element).expect(&rt, MEMORY);
    }
    assert_true(&rt, is_equal(&set, listed));
}
