//! Values that nest as deep as texts are read: their copies, order, texts and end.
use crate::checks::{MEMORY, UNREADABLE, assert_true, let_go};
use asn_core::Codec;
use asn_dynamic::{DynValue, fits, read, write};
use asn_model::{Shape, is_readable};
use std::alloc::Global;
use std::cmp::Ordering;
use std::process::Abort;

/// Returns Nest ::= SEQUENCE OF Nest.
fn nest(rt: &impl Abort, alloc: Global) -> Shape {
    let back = Box::new(alloc, Shape::Back(0)).expect(rt, MEMORY);
    let list = Box::new(alloc, Shape::ListOf(back)).expect(rt, MEMORY);
    Shape::Loop(list)
}

/// Adds the character to the text so many times.
fn add_times(rt: &impl Abort, text: &mut String, character: char, times: usize) {
    for _ in 0..times {
        text.push(character).expect(rt, MEMORY);
    }
}

/// Returns so many opening marks and as many closing ones.
fn nested(rt: &impl Abort, alloc: Global, levels: usize, open: char, close: char) -> String {
    let mut text = String::new(alloc);
    add_times(rt, &mut text, open, levels);
    add_times(rt, &mut text, close, levels);
    text
}

/// Returns whether the value is a list.
fn is_list(value: &DynValue) -> bool {
    matches!(value, DynValue::List(_))
}

/// Reads a text as a list, copies, compares and writes it, and drops both. What is written in JSON
/// is as long as the text.
fn assert_goes_through(rt: &impl Abort, alloc: Global, notation: Codec, text: &str) {
    let shape = nest(rt, alloc);
    if !is_readable(&shape) {
        rt.panic(UNREADABLE)
    }
    let value = read(alloc, notation, &shape, text).expect(rt, "no value");
    let copy = value.try_clone(alloc).expect(rt, MEMORY);
    assert_true(rt, is_list(&value));
    assert_true(rt, copy.compare(&value) == Ordering::Equal);
    let_go(value);
    if !fits(&shape, &copy) {
        rt.panic("the copy doesn't fit")
    }
    let written = write(alloc, Codec::Jer, &shape, &copy).expect(rt, "no text");
    assert_true(rt, written.len() == text.len());
    let_go(copy);
    let_go(shape);
}

/// JSON is read 127 levels deep, and such a value is copied, compared, written and dropped.
#[test]
fn the_deepest_json(rt: HostRuntime) {
    let text = nested(&rt, rt.alloc(), 127, '[', ']');
    assert_goes_through(&rt, rt.alloc(), Codec::Jer, text.as_str());
}

/// A text of the value notation is read 65 braces deep, which are 64 levels within the first.
#[test]
fn the_deepest_value_notation(rt: HostRuntime) {
    let text = nested(&rt, rt.alloc(), 65, '{', '}');
    assert_goes_through(&rt, rt.alloc(), Codec::Avn, text.as_str());
}
