//! Tests bit strings, octet strings, object identifiers and constraints by examples.
use crate::checks::{MEMORY, assert_octets, assert_of, assert_same, assert_true, is_equal, octets};
use asn_base::{
    Any, Bits, Bounded, Constraint, Constraints, Extensible, ObjectIdentifier, OctetString, Oid,
    Size,
};
use std::alloc::Global;
use std::process::Abort;

/// Arcs, and whether they are those of an object identifier.
const ARCS: [(&[u32], bool); 8] = [
    (&[2, 999], true),
    (&[0, 39], true),
    (&[1, 2, 840, 4294967295], true),
    (&[0, 40], false),
    (&[1, 40], false),
    (&[3, 0], false),
    (&[2], false),
    (&[], false),
];

/// Returns the first bits of the octet, a number of them.
fn first_bits(rt: &impl Abort, alloc: Global, octet: u8, length: usize) -> Bits {
    Bits::from_first_bits(octets(rt, alloc, &[octet]), length)
}

/// Bits are not made of another number of octets than they need.
#[test]
fn bits_fill_their_octets(rt: HostRuntime) {
    let short = Bits::from_octets(octets(&rt, rt.alloc(), &[0xA8]), 9);
    assert_true(&rt, short.is_none());
    let long = Bits::from_octets(octets(&rt, rt.alloc(), &[0xA8, 0]), 8);
    assert_true(&rt, long.is_none());
}

/// Checks that five bits of the octet are those of 0xA8, by either call.
fn assert_padded(rt: &impl Abort, alloc: Global, octet: u8) {
    let bits = first_bits(rt, alloc, octet, 5);
    let read = Bits::from_octets(octets(rt, alloc, &[octet]), 5);
    assert_true(rt, is_equal(&bits, read.expect(rt, "no bits")));
    assert_octets(rt, bits.octets(), &[0xA8]);
}

/// Checks that a bit that is added after five of the octet is set, and two that are taken are
/// reset.
fn assert_reset(rt: &impl Abort, alloc: Global, octet: u8) {
    let mut bits = first_bits(rt, alloc, octet, 5);
    assert!(rt; bits.len() == 5);
    bits.push(true).expect(rt, MEMORY);
    assert_octets(rt, bits.octets(), &[0xAC]);
    assert_same(rt, bits.pop(), Some(true));
    assert_same(rt, bits.pop(), Some(true));
    assert_octets(rt, bits.octets(), &[0xA0]);
    assert_same(rt, bits.get(2), Some(true));
    assert_same(rt, bits.get(4), None);
    assert_octets(rt, bits.into_octets().as_slice(), &[0xA0]);
}

/// The bits of the last octet past the length are zero, whatever the octet had there.
#[test]
fn bits_are_padded_with_zeros(rt: HostRuntime) {
    for &octet in &[0xA8, 0xAF] {
        assert_padded(&rt, rt.alloc(), octet);
        assert_reset(&rt, rt.alloc(), octet);
    }
}

/// A ninth bit begins a second octet.
#[test]
fn bits_grow_by_octets(rt: HostRuntime) {
    let mut bits = Bits::new(rt.alloc());
    assert_true(&rt, bits.is_empty());
    for bit in [true, false, false, false, false, false, true, true, true] {
        assert!(rt; bits.len() < 9);
        bits.push(bit).expect(&rt, MEMORY);
    }
    assert_octets(&rt, bits.octets(), &[0x83, 0x80]);
    assert_same(&rt, bits.len(), 9);
    assert_true(&rt, !bits.is_empty());
    let ten = Bits::from_first_bits(octets(&rt, rt.alloc(), &[0x83, 0x80]), 10);
    assert_true(&rt, !is_equal(&bits, ten));
}

/// Returns the octet string of these octets.
fn string_of(rt: &impl Abort, alloc: Global, bytes: &[u8]) -> OctetString {
    OctetString::from_vec(octets(rt, alloc, bytes))
}

/// An octet string has the octets that it was made of.
#[test]
fn octets_of_a_string_are_kept(rt: HostRuntime) {
    let alloc = rt.alloc();
    let string = string_of(&rt, alloc, &[1, 2]);
    assert_octets(&rt, string.as_bytes(), &[1, 2]);
    assert_true(&rt, is_equal(&string, string_of(&rt, alloc, &[1, 2])));
    assert_true(&rt, !is_equal(&string, string_of(&rt, alloc, &[1])));
    assert_octets(&rt, string.into_vec().as_slice(), &[1, 2]);
}

/// The encoding in an open type is the octets that it was made of.
#[test]
fn octets_of_any_are_kept(rt: HostRuntime) {
    let alloc = rt.alloc();
    let any = Any::new(octets(&rt, alloc, &[1, 2]));
    assert_octets(&rt, any.as_bytes(), &[1, 2]);
    assert_true(&rt, !is_equal(&any, Any::new(octets(&rt, alloc, &[2, 1]))));
    assert_octets(&rt, any.into_vec().as_slice(), &[1, 2]);
}

/// Returns whether the arcs are those of an object identifier, which then has them.
fn makes_identifier(rt: &impl Abort, alloc: Global, arcs: &[u32]) -> bool {
    match ObjectIdentifier::new(alloc, arcs).expect(rt, MEMORY) {
        Some(identifier) => identifier.arcs() == arcs,
        None => false,
    }
}

/// Returns whether the arcs are those of an object identifier that holds no copy, which then has
/// them.
fn borrows_identifier(arcs: &[u32]) -> bool {
    match Oid::new(arcs) {
        Some(identifier) => identifier.arcs() == arcs,
        None => false,
    }
}

/// Checks whether the arcs are those of an object identifier, by each call that makes one.
fn assert_arcs(rt: &impl Abort, alloc: Global, arcs: &[u32], accepted: bool) {
    assert_of(rt, borrows_identifier(arcs) == accepted, arcs);
    let copy = Vec::from_slice(alloc, arcs).expect(rt, MEMORY);
    let made = ObjectIdentifier::from_vec(copy);
    assert_of(rt, made.is_some() == accepted, arcs);
    assert_of(rt, makes_identifier(rt, alloc, arcs) == accepted, arcs);
}

/// Each call takes the arcs of object identifiers alone, and keeps them.
#[test]
fn object_identifiers(rt: HostRuntime) {
    for row in ARCS.iter() {
        assert_arcs(&rt, rt.alloc(), row.0, row.1);
    }
}

/// The bounds of two bounds are those that hold in both, in either order.
#[test]
fn intersections(rt: HostRuntime) {
    let from_three = Bounded::Range {
        start: Some(3),
        end: None,
    };
    let up_to_seven = Bounded::Range {
        start: None,
        end: Some(7),
    };
    let rows: [(Bounded<i128>, Bounded<i128>, Option<Bounded<i128>>); 7] = [
        (
            Bounded::new(1, 10),
            Bounded::new(5, 15),
            Some(Bounded::new(5, 10)),
        ),
        (Bounded::new(1, 4), Bounded::new(5, 15), None),
        (from_three, up_to_seven, Some(Bounded::new(3, 7))),
        (Bounded::None, Bounded::new(9, 1), Some(Bounded::new(9, 1))),
        (
            Bounded::Single(5),
            Bounded::new(5, 15),
            Some(Bounded::Single(5)),
        ),
        (Bounded::new(5, 15), Bounded::Single(16), None),
        (Bounded::Single(5), Bounded::Single(6), None),
    ];
    for (one, other, both) in rows {
        assert_true(&rt, one.intersect(&other) == both);
        assert_true(&rt, other.intersect(&one) == both);
    }
}

/// A range is the number of values within bounds, where it is finite and its type holds it.
#[test]
fn ranges(rt: HostRuntime) {
    let rows: [(Bounded<i128>, Option<i128>); 6] = [
        (Bounded::new(0, 255), Some(256)),
        (Bounded::Single(-4), Some(1)),
        (Bounded::new(2, 1), None),
        (Bounded::new(0, i128::MAX), None),
        (Bounded::new(i128::MIN, -2), Some(i128::MAX)),
        (Bounded::None, None),
    ];
    for (bounds, range) in rows {
        assert_same(&rt, bounds.range(), range);
    }
    assert_same(&rt, Bounded::new(0, usize::MAX).range(), None);
    assert_true(&rt, Bounded::new(0, usize::MAX).contains(&usize::MAX));
    assert_true(&rt, Bounded::new(5, 7).as_start() == Some(&5usize));
}

/// A size is found among constraints, and a length outside of it is refused.
#[test]
fn sizes(rt: HostRuntime) {
    const CONSTRAINTS: Constraints = Constraints {
        items: &[Constraint::Size(Extensible {
            constraint: Size {
                bounds: Bounded::Single(3),
            },
            extensible: false,
        })],
    };
    assert_true(&rt, Constraints::NONE.size().is_none());
    assert_true(&rt, !CONSTRAINTS.extensible());
    let found = CONSTRAINTS.size().expect(&rt, "no size");
    let size = &found.constraint;
    assert_true(&rt, size.is_fixed());
    assert_true(&rt, size.as_start() == Some(&3));
    assert_true(&rt, size.contains_or_else(&3, || 8).is_ok());
    assert_same(&rt, size.contains_or_else(&4, || 8), Err(8));
}
