//! Encodes and decodes `DocumentMap` in both notations, and asks for shapes and tables. The program
//! has no name for `DocumentMap`, since it is the object of a document by itself: the list of
//! entries alone.
use crate::checks::{MEMORY, assert_given, assert_same, assert_true, let_go};
use crate::documents::put;
use asn_codec::CodecCalls;
use asn_core::{Codec, Tag};
use asn_document::{Document, DocumentMap};
use asn_traits::{AsnType, Choice, TagTree, is_readable};
use std::alloc::Global;
use std::process::Abort;

/// Lists the notations, each with its text of a map of two entries, in byte order of their keys.
const TEXTS: [(Codec, &'static str); 2] = [
    (
        Codec::Jer,
        "[{\"key\":\"a\",\"value\":{\"decimal\":\"9223372036854775808\"}},\
          {\"key\":\"b\",\"value\":{\"integer\":1}}]",
    ),
    (
        Codec::Avn,
        "{\n  {\n    key \"a\",\n    value decimal : \"9223372036854775808\"\n  },\n\
        \x20 {\n    key \"b\",\n    value integer : 1\n  }\n}",
    ),
];

/// A map that is made member by member is encoded as its entries, whatever their order was.
#[test]
fn a_map_is_encoded(rt: HostRuntime) {
    let alloc = rt.alloc();
    let mut map = DocumentMap::new(alloc);
    put(&rt, alloc, &mut map, "b", "1");
    put(&rt, alloc, &mut map, "a", "9223372036854775808");
    for row in TEXTS.iter() {
        assert_given(&rt, row.0.encode_to_string(alloc, &map), row.1);
    }
    let_go(map);
}

/// Checks that a text of two entries is decoded as a map, which has the same text again.
fn assert_decoded(rt: &impl Abort, alloc: Global, codec: Codec, text: &str) {
    let map: DocumentMap = codec.decode_from_str(alloc, text).expect(rt, "no map");
    assert_same(rt, map.len(), 2);
    assert_given(rt, codec.encode_to_string(alloc, &map), text);
    let_go(map);
}

/// A text of entries is decoded as a map, which has the same text again.
#[test]
fn a_map_is_decoded(rt: HostRuntime) {
    for row in TEXTS.iter() {
        assert_decoded(&rt, rt.alloc(), row.0, row.1);
    }
}

/// Returns whether the shape of the type can be read.
fn has_readable_shape<T: AsnType>(rt: &impl Abort, alloc: Global) -> bool {
    let shape = T::shape(alloc).expect(rt, MEMORY);
    let is_found = is_readable(&shape);
    let_go(shape);
    is_found
}

/// The shapes of a document and of its object are made, and can be read.
#[test]
fn the_shapes_are_made(rt: HostRuntime) {
    assert_true(&rt, has_readable_shape::<Document>(&rt, rt.alloc()));
    assert_true(&rt, has_readable_shape::<DocumentMap>(&rt, rt.alloc()));
}

/// Returns the tag of a tree that is one tag alone.
fn only_tag(tree: &TagTree) -> Option<Tag> {
    match tree {
        TagTree::Leaf(tag) => Some(*tag),
        TagTree::Choice(..) => None,
    }
}

/// No contract names the tables of a CHOICE. Its calls return them, and tie them to its shape: here
/// both are the same.
#[test]
fn tables_are_what_calls_return(rt: HostRuntime) {
    let (listed, returned) = (Document::VARIANTS, Document::variant_table());
    assert_same(&rt, listed.len(), returned.len());
    for (one, other) in listed.iter().zip(returned) {
        // Each alternative has one tag.
        let (tag, same) = (only_tag(one), only_tag(other));
        assert_true(&rt, tag.is_some() && tag == same);
    }
    assert_true(&rt, Document::EXTENDED_VARIANTS.is_none());
    assert_true(&rt, Document::extended_variant_table().is_none());
    assert_same(&rt, Document::IDENTIFIERS, Document::identifier_table());
}
