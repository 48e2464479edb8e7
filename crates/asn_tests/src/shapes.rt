//! Tests shapes that can't be read.
use crate::checks::{MEMORY, let_go};
use asn_core::{Class, Tag};
use asn_traits::{AlternativeShape, FieldShape, Plain, PresenceShape, SeqKind, Shape, is_readable};
use std::alloc::Global;
use std::process::Abort;

/// Returns a BOOLEAN field of this name.
fn field(name: String, presence: PresenceShape) -> FieldShape {
    FieldShape {
        name,
        tag: Tag::CONTEXT_0,
        presence,
        shape: Shape::Bool,
    }
}

/// Returns a BOOLEAN alternative of this identifier, whose tag has this class and number.
fn alternative(identifier: String, class: Class, value: u32) -> AlternativeShape {
    AlternativeShape {
        identifier,
        tag: Tag { class, value },
        shape: Shape::Bool,
    }
}

/// Returns the SEQUENCE of these fields.
fn sequence(fields: Vec<FieldShape>) -> Shape {
    Shape::Seq {
        kind: SeqKind::Sequence,
        fields,
        added: None,
    }
}

/// Returns the CHOICE of these alternatives.
fn choice(alternatives: Vec<AlternativeShape>) -> Shape {
    Shape::Choice {
        alternatives,
        added: None,
    }
}

/// Returns an owned text.
fn owned(rt: &impl Abort, alloc: Global, text: &str) -> String {
    String::from_str(alloc, text).expect(rt, MEMORY)
}

/// Returns the ENUMERATED type of one item.
fn items_of(rt: &impl Abort, alloc: Global, item: &str) -> Shape {
    let items = Vec::from_array(alloc, [owned(rt, alloc, item)]).expect(rt, MEMORY);
    Shape::Enum { items, added: None }
}

/// Returns the CHOICE of one alternative.
fn choice_of(rt: &impl Abort, alloc: Global, class: Class, value: u32) -> Shape {
    let only = alternative(owned(rt, alloc, "a"), class, value);
    choice(Vec::from_array(alloc, [only]).expect(rt, MEMORY))
}

/// Returns the CHOICE of two alternatives, of these identifiers and numbers of tags.
fn choice_of_two(rt: &impl Abort, alloc: Global, first: (&str, u32), second: (&str, u32)) -> Shape {
    let both = [
        alternative(owned(rt, alloc, first.0), Class::Context, first.1),
        alternative(owned(rt, alloc, second.0), Class::Context, second.1),
    ];
    choice(Vec::from_array(alloc, both).expect(rt, MEMORY))
}

/// Returns the ENUMERATED type in which an item comes twice.
fn item_twice(rt: &impl Abort, alloc: Global) -> Shape {
    let both = [owned(rt, alloc, "a"), owned(rt, alloc, "a")];
    let items = Vec::from_array(alloc, both).expect(rt, MEMORY);
    Shape::Enum { items, added: None }
}

/// Returns the SEQUENCE of two fields of one name.
fn name_twice(rt: &impl Abort, alloc: Global) -> Shape {
    let twice = [
        field(owned(rt, alloc, "a"), PresenceShape::Required),
        field(owned(rt, alloc, "a"), PresenceShape::Required),
    ];
    sequence(Vec::from_array(alloc, twice).expect(rt, MEMORY))
}

/// Returns the SEQUENCE of one field.
fn sequence_of(rt: &impl Abort, alloc: Global, name: &str, presence: PresenceShape) -> Shape {
    let only = field(owned(rt, alloc, name), presence);
    sequence(Vec::from_array(alloc, [only]).expect(rt, MEMORY))
}

/// Counts the shapes of `unreadable`.
const UNREADABLE: usize = 11;

/// Returns a shape that can't be read. Each breaks one of the conditions that `is_readable` lists.
fn unreadable(rt: &impl Abort, alloc: Global, case: usize) -> Shape {
    match case {
        // A loop with nothing between it and what names it.
        0 => Shape::Loop(Box::new(alloc, Shape::Back(0)).expect(rt, MEMORY)),
        // A number of no loop.
        1 => Shape::Back(0),
        // Identifiers that differ in case alone.
        2 => choice_of_two(rt, alloc, ("a", 0), ("A", 1)),
        // The tag of the end of contents.
        3 => choice_of(rt, alloc, Class::Universal, 0),
        // No alternative.
        4 => choice(Vec::new(alloc)),
        // A keyword as an item.
        5 => items_of(rt, alloc, "TRUE"),
        6 => name_twice(rt, alloc),
        // A BOOLEAN whose default is a number.
        7 => sequence_of(rt, alloc, "a", PresenceShape::Default(Plain::Int(1))),
        // One tag twice.
        8 => choice_of_two(rt, alloc, ("a", 0), ("b", 0)),
        9 => item_twice(rt, alloc),
        // A name that AVN cannot spell.
        _ => sequence_of(rt, alloc, "1a", PresenceShape::Required),
    }
}

/// Checks that the condition holds of the shape of this number.
fn assert_case(rt: &impl Abort, holds: bool, case: usize) {
    assert!(rt; holds, "shape {case}");
}

/// A shape that breaks one of these conditions is found.
#[test]
fn shapes_that_cannot_be_read(rt: HostRuntime) {
    for case in 0..UNREADABLE {
        let shape = unreadable(&rt, rt.alloc(), case);
        let is_found = !is_readable(&shape);
        let_go(shape);
        assert_case(&rt, is_found, case);
    }
}
