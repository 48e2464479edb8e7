//! Compares what the calls answer with what is expected. Shapes and values are let go here, where
//! their types are open: where a type is known, a proof goes through each part that is let go.
use crate::growth::builders::MEMORY;
use asn_growth::{Growth, Reason, differences, few_nodes, grows_check, place_path};
use asn_model::Shape;
use std::alloc::Global;
use std::fmt::Debug;
use std::process::Abort;

/// Lets the value go.
pub fn let_go<T: Drop>(_value: T) {}

/// Checks that both are the same.
pub fn assert_same<T: PartialEq + Debug + Drop>(rt: &impl Abort, found: T, want: T) {
    assert_eq!(rt; found, want);
}

/// Checks that the condition holds.
pub fn assert_true(rt: &impl Abort, holds: bool) {
    assert!(rt; holds);
}

/// Asserts what `grows_check` answers, and that the two shapes differ at these places, in order.
pub fn assert_compared(
    rt: &impl Abort,
    alloc: Global,
    old: &Shape,
    new: &Shape,
    growth: Growth,
    places: &[(usize, Reason)],
) {
    if !few_nodes(old) {
        rt.panic("too many nodes")
    }
    assert_same(rt, grows_check(old, new), growth);
    let found = differences(alloc, old, new).expect(rt, MEMORY);
    assert_same(rt, found.as_slice(), places);
}

/// Asserts that the newer shape is a later version of the older one.
pub fn assert_grows(rt: &impl Abort, alloc: Global, old: Shape, new: Shape) {
    assert_compared(rt, alloc, &old, &new, Growth::Grows, &[]);
    let_go(old);
    let_go(new);
}

/// Asserts that the two shapes differ at this place alone, for this reason.
pub fn assert_differs(
    rt: &impl Abort,
    alloc: Global,
    old: Shape,
    new: Shape,
    place: usize,
    reason: Reason,
) {
    let growth = Growth::Differs { place, reason };
    assert_compared(rt, alloc, &old, &new, growth, &[(place, reason)]);
    let_go(old);
    let_go(new);
}

/// Asserts that the way is this one step, or none where it is empty.
fn assert_step(rt: &impl Abort, way: &[String], step: &str) {
    match way {
        [] => assert_same(rt, "", step),
        [found] => assert_same(rt, found.as_str(), step),
        _ => rt.panic("more than one step"),
    }
}

/// Asserts that the way to the first place that differs is this one step, or none where it is
/// empty.
pub fn assert_way(rt: &impl Abort, alloc: Global, old: Shape, new: Shape, step: &str) {
    if !few_nodes(&old) {
        rt.panic("too many nodes")
    }
    match grows_check(&old, &new) {
        Growth::Grows => rt.panic("no difference"),
        Growth::Differs { place, .. } => {
            let way = place_path(alloc, &old, place).expect(rt, MEMORY);
            assert_step(rt, way.as_slice(), step);
            let_go(way);
        }
    }
    let_go(old);
    let_go(new);
}
