//! Builds shapes for the tests. Where memory runs out, the test ends.
use asn_core::Tag;
use asn_model::{AlternativeShape, FieldShape, PresenceShape, SeqKind, Shape};
use std::alloc::Global;
use std::process::Abort;

/// Says what is missing where a builder ends the test.
pub const MEMORY: &str = "memory";

/// Returns INTEGER (0..greatest) in a byte.
pub fn number(greatest: u128) -> Shape {
    Shape::Int {
        least: 0,
        greatest,
        width: 8,
    }
}

/// Returns ENUMERATED with these items, and those after the marker if there is one.
pub fn enumerated(
    rt: &impl Abort,
    alloc: Global,
    items: &[&'static str],
    added: Option<&[&'static str]>,
) -> Shape {
    Shape::Enum {
        items: texts(rt, alloc, items),
        added: match added {
            Some(added) => Some(texts(rt, alloc, added)),
            None => None,
        },
    }
}

/// Returns an owned text.
fn text(rt: &impl Abort, alloc: Global, text: &str) -> String {
    String::from_str(alloc, text).expect(rt, MEMORY)
}

/// Returns the texts.
fn texts(rt: &impl Abort, alloc: Global, items: &[&'static str]) -> Vec<String> {
    let mut texts = Vec::new(alloc);
    for item in items {
        texts.push(text(rt, alloc, *item)).expect(rt, MEMORY);
    }
    texts
}

/// Returns a field.
pub fn field_of(
    rt: &impl Abort,
    alloc: Global,
    name: &str,
    tag: Tag,
    presence: PresenceShape,
    shape: Shape,
) -> FieldShape {
    FieldShape {
        name: text(rt, alloc, name),
        tag,
        presence,
        shape,
    }
}

/// Returns a required field, with the tag [0].
pub fn field(rt: &impl Abort, alloc: Global, name: &str, shape: Shape) -> FieldShape {
    let presence = PresenceShape::Required;
    field_of(rt, alloc, name, Tag::CONTEXT_0, presence, shape)
}

/// Returns a list with this entry alone.
fn one<T: Drop>(rt: &impl Abort, alloc: Global, entry: T) -> Vec<T> {
    let mut list = Vec::new(alloc);
    list.push(entry).expect(rt, MEMORY);
    list
}

/// Returns SEQUENCE, or SET, of this field alone, and no extension marker.
pub fn only_field(rt: &impl Abort, alloc: Global, kind: SeqKind, field: FieldShape) -> Shape {
    Shape::Seq {
        kind,
        fields: one(rt, alloc, field),
        added: None,
    }
}

/// Returns SEQUENCE with an extension marker, no field before it and this one after it.
pub fn extended(rt: &impl Abort, alloc: Global, field: FieldShape) -> Shape {
    Shape::Seq {
        kind: SeqKind::Sequence,
        fields: Vec::new(alloc),
        added: Some(one(rt, alloc, field)),
    }
}

/// Returns CHOICE of one alternative, and no extension marker.
pub fn choice(rt: &impl Abort, alloc: Global, identifier: &str, tag: Tag, shape: Shape) -> Shape {
    let alternative = AlternativeShape {
        identifier: text(rt, alloc, identifier),
        tag,
        shape,
    };
    Shape::Choice {
        alternatives: one(rt, alloc, alternative),
        added: None,
    }
}

/// Returns the shape on the heap.
pub fn boxed(rt: &impl Abort, alloc: Global, shape: Shape) -> Box<Shape> {
    Box::new(alloc, shape).expect(rt, MEMORY)
}
