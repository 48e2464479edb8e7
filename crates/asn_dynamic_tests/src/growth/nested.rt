//! Compares pairs of shapes that differ below the root, for each reason and in each kind of part,
//! and finds the way to the place.
use crate::growth::builders::{
    boxed, choice, enumerated, extended, field, field_of, number, only_field,
};
use crate::growth::checks::{assert_differs, assert_way};
use asn_core::Tag;
use asn_growth::Reason;
use asn_model::{PresenceShape, SeqKind, Shape};
use std::alloc::Global;
use std::process::Abort;

/// Names the kinds of parts.
#[derive(Clone, Copy)]
enum Part {
    Field,
    AddedField,
    Alternative,
    ElementOfList,
    ElementOfSet,
    Entry,
    Body,
}

/// Lists the kinds of parts, each with the step to it.
const PARTS: [(Part, &'static str); 7] = [
    (Part::Field, "a"),
    (Part::AddedField, "a"),
    (Part::Alternative, "a"),
    (Part::ElementOfList, "*"),
    (Part::ElementOfSet, "*"),
    (Part::Entry, "*"),
    (Part::Body, ""),
];

/// Lists the reasons.
const REASONS: [Reason; 7] = [
    Reason::Kind,
    Reason::Numbers,
    Reason::Names,
    Reason::Tags,
    Reason::Presence,
    Reason::Extensible,
    Reason::Additions,
];

/// Returns a shape of which this shape is a part.
fn around(rt: &impl Abort, alloc: Global, part: Part, shape: Shape) -> Shape {
    match part {
        Part::Field => only_field(rt, alloc, SeqKind::Sequence, field(rt, alloc, "a", shape)),
        Part::AddedField => extended(rt, alloc, field(rt, alloc, "a", shape)),
        Part::Alternative => choice(rt, alloc, "a", Tag::CONTEXT_0, shape),
        Part::ElementOfList => Shape::ListOf(boxed(rt, alloc, shape)),
        Part::ElementOfSet => Shape::SetOf(boxed(rt, alloc, shape)),
        Part::Entry => Shape::Table(boxed(rt, alloc, shape)),
        Part::Body => Shape::Loop(boxed(rt, alloc, shape)),
    }
}

/// Returns SEQUENCE, or SET, of one field, whose type is NULL.
fn null_field(
    rt: &impl Abort,
    alloc: Global,
    kind: SeqKind,
    name: &str,
    tag: Tag,
    presence: PresenceShape,
) -> Shape {
    let field = field_of(rt, alloc, name, tag, presence, Shape::Null);
    only_field(rt, alloc, kind, field)
}

/// Returns SEQUENCE of one field that is required.
fn required(rt: &impl Abort, alloc: Global, name: &str, tag: Tag) -> Shape {
    let presence = PresenceShape::Required;
    null_field(rt, alloc, SeqKind::Sequence, name, tag, presence)
}

/// Returns a shape from which the newer one differs for this reason.
fn older(rt: &impl Abort, alloc: Global, reason: Reason) -> Shape {
    match reason {
        Reason::Numbers => number(9),
        Reason::Extensible => enumerated(rt, alloc, &["low"], None),
        Reason::Additions => enumerated(rt, alloc, &["low"], Some(["high"].as_slice())),
        // The other reasons are those of a field.
        _ => required(rt, alloc, "b", Tag::CONTEXT_1),
    }
}

/// Returns the newer shape.
fn newer(rt: &impl Abort, alloc: Global, reason: Reason) -> Shape {
    let (sequence, one) = (SeqKind::Sequence, Tag::CONTEXT_1);
    match reason {
        Reason::Kind => null_field(rt, alloc, SeqKind::Set, "b", one, PresenceShape::Required),
        Reason::Numbers => number(8),
        Reason::Names => required(rt, alloc, "c", one),
        Reason::Tags => required(rt, alloc, "b", Tag::CONTEXT_2),
        Reason::Presence => null_field(rt, alloc, sequence, "b", one, PresenceShape::Optional),
        Reason::Extensible | Reason::Additions => {
            enumerated(rt, alloc, &["low"], Some([].as_slice()))
        }
    }
}

/// Each reason is found at the root, with no step to it.
#[test]
fn differs_at_the_root(rt: HostRuntime) {
    let alloc = rt.alloc();
    for reason in REASONS.iter() {
        let old = older(&rt, alloc, *reason);
        let new = newer(&rt, alloc, *reason);
        assert_differs(&rt, alloc, old, new, 0, *reason);
    }
}

/// Checks that a reason is found in a part of this kind, and this step leads to it.
fn assert_part(rt: &impl Abort, alloc: Global, part: Part, step: &str, reason: Reason) {
    let old = around(rt, alloc, part, older(rt, alloc, reason));
    let new = around(rt, alloc, part, newer(rt, alloc, reason));
    assert_differs(rt, alloc, old, new, 1, reason);
    let old = around(rt, alloc, part, older(rt, alloc, reason));
    let new = around(rt, alloc, part, newer(rt, alloc, reason));
    assert_way(rt, alloc, old, new, step);
}

/// Checks that each reason is found in a part of this kind.
fn assert_each_reason(rt: &impl Abort, alloc: Global, part: Part, step: &str) {
    for reason in REASONS.iter() {
        assert_part(rt, alloc, part, step, *reason);
    }
}

/// Each reason is found in each kind of part, and the step to it is its name, its identifier or a
/// star, and none leads to the body of a loop.
#[test]
fn differs_in_a_part(rt: HostRuntime) {
    for row in PARTS.iter() {
        assert_each_reason(&rt, rt.alloc(), row.0, row.1);
    }
}

/// Returns a shape that has this bound in a part of a part.
fn twice_around(rt: &impl Abort, alloc: Global, part: Part, greatest: u128) -> Shape {
    let inner = around(rt, alloc, Part::Field, number(greatest));
    around(rt, alloc, part, inner)
}

/// A part of a part that differs is found under both, and the place counts all nodes before it.
#[test]
fn differs_in_a_part_of_a_part(rt: HostRuntime) {
    let alloc = rt.alloc();
    for row in PARTS.iter() {
        let old = twice_around(&rt, alloc, row.0, 9);
        let new = twice_around(&rt, alloc, row.0, 8);
        assert_differs(&rt, alloc, old, new, 2, Reason::Numbers);
    }
}
