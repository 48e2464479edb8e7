//! What is shown at a place.
use crate::linked::samples::{chain, pair};
use asn_linked::Place;
use asn_linked_types::are_linked;
use asn_model::Shape;
use asn_parts::{Loops, Part, PartKind};
use std::test::Fail;

/// Returns the number that is shown for the type 0 within the loops of the types 0 and 1, each of
/// which has the other one in its first field.
fn number_within(types: &[Shape]) -> Option<u32> {
    if !are_linked(types) {
        return None;
    }
    let outermost = Loops::Outermost;
    let PartKind::Loop(first) = Place::of_type(types, 0)?.kind(&outermost) else {
        return None;
    };
    let around = Loops::Within {
        body: first,
        outer: &outermost,
    };
    if first.field_count() == 0 {
        return None;
    }
    let PartKind::Loop(second) = first.field(0).part.kind(&around) else {
        return None;
    };
    let within = Loops::Within {
        body: second,
        outer: &around,
    };
    if second.field_count() == 0 {
        return None;
    }
    match second.field(0).part.kind(&within) {
        PartKind::Back(number) => Some(number),
        _ => None,
    }
}

/// A type is opened where it isn't open, and means its loop where it is.
#[test]
fn opens_a_type_once(rt: HostRuntime) -> Result<(), Fail> {
    let types = pair(rt.alloc())?;
    assert!(rt; number_within(types.as_slice()) == Some(1));
    Ok(())
}

/// No type is past the last one.
#[test]
fn shows_no_type_past_the_last(rt: HostRuntime) -> Result<(), Fail> {
    let types = chain(rt.alloc())?;
    let types = types.as_slice();
    assert!(rt; are_linked(types));
    if are_linked(types) {
        assert!(rt; Place::of_type(types, 2).is_some());
        assert!(rt; Place::of_type(types, 3).is_none());
    }
    Ok(())
}
