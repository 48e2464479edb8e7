//! Compares versions of types at run time, and types that are no versions of each other.
use crate::checks::{MEMORY, assert_same, let_go};
use asn_core::Codec;
use asn_growth::{Growth, Reason, differences, few_nodes, grows_check, place_path};
use asn_model::Shape;
use asn_sample_choices::{NewReport, OldReport};
use asn_sample_fields::{ExtEnum, SimpleEnum};
use asn_sample_trees::Nest;
use asn_traits::AsnType;
use asn_versions::decode_report;
use std::alloc::Global;
use std::process::Abort;

/// Asserts what `grows_check` answers for the two shapes, and the places that `differences` gives.
fn assert_compared(
    rt: &impl Abort,
    alloc: Global,
    old: &Shape,
    new: &Shape,
    growth: Growth,
    places: &[(usize, Reason)],
) {
    if !few_nodes(old) {
        rt.panic("too many nodes")
    }
    assert_same(rt, grows_check(old, new), growth);
    let found = differences(alloc, old, new).expect(rt, MEMORY);
    assert_same(rt, found.as_slice(), places);
}

/// Asserts that the newer type is a later version of the older one.
fn assert_grows<Old: AsnType, New: AsnType>(rt: &impl Abort, alloc: Global) {
    let old = Old::shape(alloc).expect(rt, MEMORY);
    let new = New::shape(alloc).expect(rt, MEMORY);
    assert_compared(rt, alloc, &old, &new, Growth::Grows, &[]);
    let_go(old);
    let_go(new);
}

/// Asserts that the two types differ at this place alone, for this reason.
fn assert_differs<Old: AsnType, New: AsnType>(
    rt: &impl Abort,
    alloc: Global,
    place: usize,
    reason: Reason,
) {
    let old = Old::shape(alloc).expect(rt, MEMORY);
    let new = New::shape(alloc).expect(rt, MEMORY);
    let growth = Growth::Differs { place, reason };
    assert_compared(rt, alloc, &old, &new, growth, &[(place, reason)]);
    let_go(old);
    let_go(new);
}

/// A later version grows, and so does a type that holds itself.
#[test]
fn later_versions_grow(rt: HostRuntime) {
    assert_grows::<OldReport, NewReport>(&rt, rt.alloc());
    assert_grows::<Nest, Nest>(&rt, rt.alloc());
}

/// The older version of a type is no later one, nor is a type with another marker.
#[test]
fn older_versions_differ(rt: HostRuntime) {
    let alloc = rt.alloc();
    assert_differs::<NewReport, OldReport>(&rt, alloc, 0, Reason::Additions);
    assert_differs::<SimpleEnum, ExtEnum>(&rt, alloc, 0, Reason::Extensible);
}

/// Asserts that the way is this one step.
fn assert_step(rt: &impl Abort, way: &[String], step: &str) {
    match way {
        [found] => assert_same(rt, found.as_str(), step),
        _ => rt.panic("another number of steps"),
    }
}

/// Asserts that the way to the first place that differs is this one step.
fn assert_way(rt: &impl Abort, alloc: Global, old: &Shape, new: &Shape, step: &str) {
    if !few_nodes(old) {
        rt.panic("too many nodes")
    }
    match grows_check(old, new) {
        Growth::Grows => rt.panic("no difference"),
        Growth::Differs { place, .. } => {
            let way = place_path(alloc, old, place).expect(rt, MEMORY);
            assert_step(rt, way.as_slice(), step);
            let_go(way);
        }
    }
}

/// The elements of a list differ, and the way to them is one step.
#[test]
fn elements_differ(rt: HostRuntime) {
    let alloc = rt.alloc();
    assert_differs::<Vec<u8>, Vec<i64>>(&rt, alloc, 1, Reason::Numbers);
    let old = <Vec<u8>>::shape(alloc).expect(&rt, MEMORY);
    let new = <Vec<i64>>::shape(alloc).expect(&rt, MEMORY);
    assert_way(&rt, alloc, &old, &new, "*");
    let_go(old);
    let_go(new);
}

/// A text of the later version is decoded where the check at run time finds that it is one.
#[test]
fn a_checked_report_is_decoded(rt: HostRuntime) {
    let text = "{\"id\":1,\"owner\":\"o\",\"parts\":[{\"code\":7}]}";
    let answer = decode_report(rt.alloc(), Codec::Jer, text);
    let found = answer.expect(&rt, "no report");
    let report = found.expect(&rt, "no later version");
    assert_same(&rt, report.id, 1);
    let_go(report);
}
