//! Compares large shapes: many parts, and parts within parts.
use crate::growth::builders::{MEMORY, field, number};
use crate::growth::checks::{assert_compared, let_go};
use asn_growth::{Growth, Reason};
use asn_model::{FieldShape, SeqKind, Shape};
use std::alloc::Global;
use std::process::Abort;

/// Is the number of nodes below the root.
const COUNT: usize = 100_000;

/// Returns SEQUENCE of so many fields of one name, of which the last one has this bound.
fn wide(rt: &impl Abort, alloc: Global, last: u128) -> Shape {
    let mut fields: Vec<FieldShape> = Vec::new(alloc);
    for index in 0..COUNT {
        let greatest = if index + 1 < COUNT { 9 } else { last };
        let made = field(rt, alloc, "a", number(greatest));
        fields.push(made).expect(rt, MEMORY);
    }
    Shape::Seq {
        kind: SeqKind::Sequence,
        fields,
        added: None,
    }
}

/// The last of 100,000 fields is the place that differs.
#[test]
fn many_fields(rt: HostRuntime) {
    let alloc = rt.alloc();
    let old = wide(&rt, alloc, 9);
    let new = wide(&rt, alloc, 8);
    assert_compared(&rt, alloc, &old, &old, Growth::Grows, &[]);
    let (place, reason) = (COUNT, Reason::Numbers);
    let growth = Growth::Differs { place, reason };
    assert_compared(&rt, alloc, &old, &new, growth, &[(place, reason)]);
    let_go(old);
    let_go(new);
}
