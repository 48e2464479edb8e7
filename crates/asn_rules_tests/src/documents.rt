//! Calls `Document` and `DocumentMap` directly.
use crate::checks::{MEMORY, assert_given, assert_same, assert_true, let_go};
use asn_codec::CodecCalls;
use asn_core::Codec;
use asn_document::{Document, DocumentMap};
use serde_json::Value;
use std::alloc::Global;
use std::process::Abort;

/// Returns the value of a JSON text.
fn value(rt: &impl Abort, alloc: Global, text: &str) -> Value {
    Value::from_str(alloc, text).expect(rt, "no JSON")
}

/// Returns the document of a JSON text.
pub fn document(rt: &impl Abort, alloc: Global, text: &str) -> Document {
    match Document::from_value(value(rt, alloc, text)) {
        Ok(document) => document,
        Err(_) => rt.panic("a float"),
    }
}

/// Puts the document of a JSON text at a key.
pub fn put(rt: &impl Abort, alloc: Global, map: &mut DocumentMap, key: &str, text: &str) {
    let key = String::from_str(alloc, key).expect(rt, MEMORY);
    map.insert(key, document(rt, alloc, text))
        .expect(rt, MEMORY);
}

/// A value that is put at a key a second time replaces the first one: there is one member.
#[test]
fn a_later_value_replaces_the_earlier(rt: HostRuntime) {
    let alloc = rt.alloc();
    let mut map = DocumentMap::new(alloc);
    assert_same(&rt, map.len(), 0);
    put(&rt, alloc, &mut map, "a", "1");
    put(&rt, alloc, &mut map, "a", "[2]");
    assert_same(&rt, map.len(), 1);
    assert_given(
        &rt,
        Codec::Jer.encode_to_string(alloc, &map),
        "[{\"key\":\"a\",\"value\":{\"array\":[{\"integer\":2}]}}]",
    );
    let_go(map);
}

/// Checks that the two are equal, and lets them go where their type is open.
fn assert_equal<T: PartialEq + Drop>(rt: &impl Abort, one: T, other: T) {
    assert_true(rt, one == other);
}

/// Lists JSON texts with a float.
const FLOATS: [&str; 2] = ["1.5", "[0,{\"a\":1e3}]"];

/// Checks that a value with a float in it is given back as it was.
fn assert_given_back(rt: &impl Abort, alloc: Global, text: &str) {
    match Document::from_value(value(rt, alloc, text)) {
        Ok(_) => rt.panic("a float is taken"),
        Err(back) => assert_equal(rt, back, value(rt, alloc, text)),
    }
}

/// A value with a float in it is given back as it was.
#[test]
fn a_float_is_given_back(rt: HostRuntime) {
    for &text in &FLOATS {
        assert_given_back(&rt, rt.alloc(), text);
    }
}

/// A value with the greatest `u64` is taken, and is what the document shows and gives back.
#[test]
fn the_greatest_number_is_kept(rt: HostRuntime) {
    const GREATEST: &str = "[18446744073709551615]";
    let alloc = rt.alloc();
    let whole = document(&rt, alloc, GREATEST);
    let want = value(&rt, alloc, GREATEST);
    assert_equal(&rt, whole.value(), &want);
    assert_equal(&rt, whole.into_value(), want);
}

/// Returns whether both are equal, and lets the other one go.
fn is_equal<T: PartialEq + Drop>(one: &T, other: T) -> bool {
    *one == other
}

/// Two documents are equal where their JSON trees are: members have no order, elements have one.
#[test]
fn documents_are_compared_as_trees(rt: HostRuntime) {
    let alloc = rt.alloc();
    let left = document(&rt, alloc, "{\"a\":[1,2],\"b\":null}");
    let same = document(&rt, alloc, "{ \"b\" : null, \"a\" : [1, 2] }");
    assert_true(&rt, is_equal(&left, same));
    let turned = document(&rt, alloc, "{\"a\":[2,1],\"b\":null}");
    assert_true(&rt, !is_equal(&left, turned));
    let shorter = document(&rt, alloc, "{\"a\":[1,2]}");
    assert_true(&rt, !is_equal(&left, shorter));
    let_go(left);
}
