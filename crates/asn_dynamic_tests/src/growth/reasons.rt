//! Compares pairs of shapes that differ at the root, each for one reason.
use crate::growth::builders::{choice, enumerated, extended, field, field_of, number, only_field};
use crate::growth::checks::{assert_differs, assert_grows};
use asn_core::Tag;
use asn_growth::Reason;
use asn_model::{Alphabet, Plain, PresenceShape, SeqKind, Shape};
use std::alloc::Global;
use std::process::Abort;

/// Two shapes that have no parts and are the same don't differ.
#[test]
fn equal_shapes_grow(rt: HostRuntime) {
    assert_grows(&rt, rt.alloc(), number(9), number(9));
}

/// Asserts that the two shapes differ at the root alone, for this reason.
fn at_root(rt: &impl Abort, alloc: Global, old: Shape, new: Shape, reason: Reason) {
    assert_differs(rt, alloc, old, new, 0, reason);
}

/// Returns SEQUENCE, or SET, of a number.
fn of_number(rt: &impl Abort, alloc: Global, kind: SeqKind) -> Shape {
    only_field(rt, alloc, kind, field(rt, alloc, "a", number(9)))
}

/// The kinds of NULL and BOOLEAN differ, and a SEQUENCE and a SET of the same fields.
#[test]
fn kinds_differ(rt: HostRuntime) {
    let alloc = rt.alloc();
    at_root(&rt, alloc, Shape::Null, Shape::Bool, Reason::Kind);
    let sequence = of_number(&rt, alloc, SeqKind::Sequence);
    let set = of_number(&rt, alloc, SeqKind::Set);
    at_root(&rt, alloc, sequence, set, Reason::Kind);
}

/// Returns a string of this alphabet.
fn string(alphabet: Alphabet) -> Shape {
    Shape::Str { alphabet }
}

/// The bounds of two INTEGERs, the sizes of two BIT STRINGs, two alphabets and two numbers of
/// `Back` differ.
#[test]
fn numbers_differ(rt: HostRuntime) {
    let alloc = rt.alloc();
    at_root(&rt, alloc, number(9), number(8), Reason::Numbers);
    let eight = Shape::Bits { fixed: Some(8) };
    let any = Shape::Bits { fixed: None };
    at_root(&rt, alloc, eight, any, Reason::Numbers);
    let (utf8, ia5) = (string(Alphabet::Utf8), string(Alphabet::Ia5));
    at_root(&rt, alloc, utf8, ia5, Reason::Numbers);
    at_root(&rt, alloc, Shape::Back(0), Shape::Back(1), Reason::Numbers);
}

/// Returns SEQUENCE of one field of this name.
fn with_name(rt: &impl Abort, alloc: Global, name: &str) -> Shape {
    let field = field(rt, alloc, name, Shape::Null);
    only_field(rt, alloc, SeqKind::Sequence, field)
}

/// Returns CHOICE of one alternative.
fn with_alternative(rt: &impl Abort, alloc: Global, identifier: &str, tag: Tag) -> Shape {
    choice(rt, alloc, identifier, tag, Shape::Null)
}

/// The items of two ENUMERATED types differ, the names of two fields, and two identifiers.
#[test]
fn names_differ(rt: HostRuntime) {
    let alloc = rt.alloc();
    let old = enumerated(&rt, alloc, &["a"], None);
    let new = enumerated(&rt, alloc, &["a", "b"], None);
    at_root(&rt, alloc, old, new, Reason::Names);
    let old = with_name(&rt, alloc, "a");
    let new = with_name(&rt, alloc, "b");
    at_root(&rt, alloc, old, new, Reason::Names);
    let old = with_alternative(&rt, alloc, "a", Tag::CONTEXT_0);
    let new = with_alternative(&rt, alloc, "b", Tag::CONTEXT_0);
    at_root(&rt, alloc, old, new, Reason::Names);
}

/// Returns SEQUENCE { a NULL } whose field has this tag and presence.
fn with_field(rt: &impl Abort, alloc: Global, tag: Tag, presence: PresenceShape) -> Shape {
    let field = field_of(rt, alloc, "a", tag, presence, Shape::Null);
    only_field(rt, alloc, SeqKind::Sequence, field)
}

/// The tags of two fields differ, and those of two alternatives.
#[test]
fn tags_differ(rt: HostRuntime) {
    let alloc = rt.alloc();
    let old = with_field(&rt, alloc, Tag::CONTEXT_0, PresenceShape::Required);
    let new = with_field(&rt, alloc, Tag::CONTEXT_1, PresenceShape::Required);
    at_root(&rt, alloc, old, new, Reason::Tags);
    let old = with_alternative(&rt, alloc, "a", Tag::CONTEXT_0);
    let new = with_alternative(&rt, alloc, "a", Tag::CONTEXT_1);
    at_root(&rt, alloc, old, new, Reason::Tags);
}

/// Returns SEQUENCE { a NULL } whose field has this presence.
fn with_presence(rt: &impl Abort, alloc: Global, presence: PresenceShape) -> Shape {
    with_field(rt, alloc, Tag::CONTEXT_0, presence)
}

/// A required and an optional field differ, and two defaults.
#[test]
fn presences_differ(rt: HostRuntime) {
    let alloc = rt.alloc();
    let old = with_presence(&rt, alloc, PresenceShape::Required);
    let new = with_presence(&rt, alloc, PresenceShape::Optional);
    at_root(&rt, alloc, old, new, Reason::Presence);
    let old = with_presence(&rt, alloc, PresenceShape::Default(Plain::Int(1)));
    let new = with_presence(&rt, alloc, PresenceShape::Default(Plain::Int(2)));
    at_root(&rt, alloc, old, new, Reason::Presence);
}

/// Returns ENUMERATED { a }.
fn without_marker(rt: &impl Abort, alloc: Global) -> Shape {
    enumerated(rt, alloc, &["a"], None)
}

/// Returns ENUMERATED { a, ... }.
fn with_marker(rt: &impl Abort, alloc: Global) -> Shape {
    enumerated(rt, alloc, &["a"], Some([].as_slice()))
}

/// An ENUMERATED without an extension marker and one with it differ, in either order.
#[test]
fn markers_differ(rt: HostRuntime) {
    let alloc = rt.alloc();
    let (old, new) = (without_marker(&rt, alloc), with_marker(&rt, alloc));
    at_root(&rt, alloc, old, new, Reason::Extensible);
    let (old, new) = (with_marker(&rt, alloc), without_marker(&rt, alloc));
    at_root(&rt, alloc, old, new, Reason::Extensible);
}

/// Returns SEQUENCE with an extension marker and no field.
fn no_addition(alloc: Global) -> Shape {
    Shape::Seq {
        kind: SeqKind::Sequence,
        fields: Vec::new(alloc),
        added: Some(Vec::new(alloc)),
    }
}

/// Returns SEQUENCE with a field of this name after its extension marker.
fn addition(rt: &impl Abort, alloc: Global, name: &str) -> Shape {
    extended(rt, alloc, field(rt, alloc, name, Shape::Null))
}

/// An added field grows a SEQUENCE. Without it, or with another in its place, it differs.
#[test]
fn additions_differ(rt: HostRuntime) {
    let alloc = rt.alloc();
    let first = addition(&rt, alloc, "a");
    assert_grows(&rt, alloc, no_addition(alloc), first);
    let first = addition(&rt, alloc, "a");
    at_root(&rt, alloc, first, no_addition(alloc), Reason::Additions);
    let first = addition(&rt, alloc, "a");
    let second = addition(&rt, alloc, "b");
    at_root(&rt, alloc, first, second, Reason::Additions);
}

/// Returns ENUMERATED { a, ..., one, other }.
fn items(rt: &impl Abort, alloc: Global, one: &'static str, other: &'static str) -> Shape {
    enumerated(rt, alloc, &["a"], Some([one, other].as_slice()))
}

/// Added items in another order differ.
#[test]
fn added_items_differ(rt: HostRuntime) {
    let alloc = rt.alloc();
    let low = items(&rt, alloc, "b", "c");
    let high = items(&rt, alloc, "c", "b");
    at_root(&rt, alloc, low, high, Reason::Additions);
}
