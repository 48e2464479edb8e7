//! Converts values, and changes objects, sets and bit strings, where memory may be refused. The
//! tests say so where it was, and then nothing has changed; with ample memory each has its due
//! answer.
use crate::pieces::{REFUSED, Share, take_pieces_before};
use asn_codec::{CodecCalls, transcode};
use asn_core::{Bits, Codec, OutOfMemory};
use asn_document::{Document, DocumentMap};
use asn_sample_choices::TestTypeA;
use asn_sets::SetOf;
use asn_traits::{Decode, Encode};
use avn_value::AvnValue;
use serde_json::Value;
use std::alloc::Global;
use std::fmt::Display;
use std::process::Abort;
use std::test::Fail;

/// Lets the value go, where its type is open: where a type is known, a proof goes through each part
/// that is let go.
fn let_go<T: Drop>(_value: T) {}

/// Returns the printed text of a value that is let go.
fn printed<T: Display + Drop>(alloc: Global, value: T) -> Result<String, OutOfMemory> {
    Ok(value.to_string(alloc)?)
}

/// Checks that the text is converted to the one that is due, or that memory was refused.
fn assert_due<T: Encode + Decode>(
    rt: &impl Abort,
    alloc: Global,
    from: Codec,
    to: Codec,
    input: &str,
    due: &str,
) -> Result<(), Fail> {
    match transcode::<T>(alloc, from, to, input) {
        Ok(text) => {
            assert_eq!(rt; text.as_str(), due);
            Ok(())
        }
        Err(error) => {
            let is_refused = error.is_out_of_memory();
            let_go(error);
            assert!(rt; is_refused);
            Err(Fail::from(REFUSED))
        }
    }
}

/// Converts a SEQUENCE of three kinds of fields, where a piece of the share may be refused.
fn assert_sequence_due(rt: &impl Abort, alloc: Global, share: Share) -> Result<(), Fail> {
    const INPUT: &str =
        "{\"grappa\":{\"length\":2,\"value\":\"80\"},\"juice\":0,\"wine\":{\"Wine\":4}}";
    const DUE: &str = "{\n  juice 0,\n  wine Wine : 4,\n  grappa '10'B\n}";
    take_pieces_before(alloc, share)?;
    assert_due::<TestTypeA>(rt, alloc, Codec::Jer, Codec::Avn, INPUT, DUE)
}

/// A SEQUENCE, where one of the first pieces is refused.
#[test]
fn a_sequence(rt: HostRuntime) -> Result<(), Fail> {
    assert_sequence_due(&rt, rt.alloc(), Share::First)
}

/// A SEQUENCE, where a later piece is refused.
#[test]
fn a_sequence_later(rt: HostRuntime) -> Result<(), Fail> {
    assert_sequence_due(&rt, rt.alloc(), Share::Second)
}

/// A SET OF, which is sorted.
#[test]
fn a_set_of(rt: HostRuntime) -> Result<(), Fail> {
    const DUE: &str = "[1,10,2,2]";
    take_pieces_before(rt.alloc(), Share::First)?;
    assert_due::<SetOf<u8>>(&rt, rt.alloc(), Codec::Jer, Codec::Jer, "[2,10,1,2]", DUE)
}

/// Converts a JSON document with an object and an array, where a piece of the share may be refused.
fn assert_document_due(rt: &impl Abort, alloc: Global, share: Share) -> Result<(), Fail> {
    const INPUT: &str =
        "{\"object\":[{\"key\":\"a\",\"value\":{\"array\":[{\"integer\":1},{\"null\":null}]}}]}";
    const DUE: &str = "object : {\n  {\n    key \"a\",\n    value array : {\n      \
                       integer : 1,\n      null : NULL\n    }\n  }\n}";
    take_pieces_before(alloc, share)?;
    assert_due::<Document>(rt, alloc, Codec::Jer, Codec::Avn, INPUT, DUE)
}

/// A JSON document, where one of the first pieces is refused.
#[test]
fn a_document(rt: HostRuntime) -> Result<(), Fail> {
    assert_document_due(&rt, rt.alloc(), Share::First)
}

/// A JSON document, where a later piece is refused.
#[test]
fn a_document_later(rt: HostRuntime) -> Result<(), Fail> {
    assert_document_due(&rt, rt.alloc(), Share::Second)
}

/// Lists members as they are put into an object, each with the object's text in JER before. The
/// first key comes again, with another value.
const MEMBERS: [(&str, bool, &str); 4] = [
    ("a", true, "[]"),
    ("b", true, "[{\"key\":\"a\",\"value\":{\"bool\":true}}]"),
    (
        "a",
        false,
        "[{\"key\":\"a\",\"value\":{\"bool\":true}},{\"key\":\"b\",\"value\":{\"bool\":true}}]",
    ),
    (
        "c",
        true,
        "[{\"key\":\"a\",\"value\":{\"bool\":false}},{\"key\":\"b\",\"value\":{\"bool\":true}}]",
    ),
];

/// Puts a member into the object.
fn put_member(
    alloc: Global,
    map: &mut DocumentMap,
    key: &str,
    flag: bool,
) -> Result<(), OutOfMemory> {
    let key = String::from_str(alloc, key)?;
    match Document::from_value(Value::Bool(flag)) {
        Ok(value) => map.insert(key, value),
        Err(refused) => {
            let_go(refused);
            Ok(())
        }
    }
}

/// Checks that the object has this text in JER, or that memory was refused.
fn assert_object(rt: &impl Abort, alloc: Global, map: &DocumentMap, due: &str) -> Result<(), Fail> {
    match Codec::Jer.encode_to_string(alloc, map) {
        Ok(text) => {
            assert_eq!(rt; text.as_str(), due);
            Ok(())
        }
        Err(error) => {
            let is_refused = error.is_out_of_memory();
            let_go(error);
            assert!(rt; is_refused);
            Err(Fail::from(REFUSED))
        }
    }
}

/// Puts the members into the object, and checks its text at the end, or where memory is refused.
fn put_members(rt: &impl Abort, alloc: Global, map: &mut DocumentMap) -> Result<(), Fail> {
    const DUE: &str = "[{\"key\":\"a\",\"value\":{\"bool\":false}},\
                       {\"key\":\"b\",\"value\":{\"bool\":true}},\
                       {\"key\":\"c\",\"value\":{\"bool\":true}}]";
    for &(key, flag, before) in &MEMBERS {
        if put_member(alloc, map, key, flag).is_err() {
            assert_object(rt, alloc, map, before)?;
            return Err(Fail::from(REFUSED));
        }
    }
    assert_object(rt, alloc, map, DUE)
}

/// An object has the members that it had where one more is refused memory, and a member that comes
/// again takes the place of the one before.
#[test]
fn an_object_after_a_refusal(rt: HostRuntime) -> Result<(), Fail> {
    take_pieces_before(rt.alloc(), Share::First)?;
    let mut map = DocumentMap::new(rt.alloc());
    let checked = put_members(&rt, rt.alloc(), &mut map);
    let_go(map);
    checked
}

/// Lists numbers as they are inserted into a set, each with the elements before.
const NUMBERS: [(u8, &[u8]); 4] = [(2, &[]), (10, &[2]), (1, &[2, 10]), (2, &[1, 2, 10])];

/// Returns the set of the numbers.
fn set_of(alloc: Global, numbers: &[u8]) -> Result<SetOf<u8>, OutOfMemory> {
    SetOf::from_vec(alloc, numbers.to_vec(alloc)?)
}

/// Checks that the set has these elements, or that memory was refused.
fn assert_elements(
    rt: &impl Abort,
    alloc: Global,
    set: &SetOf<u8>,
    due: &[u8],
) -> Result<(), Fail> {
    let Ok(other) = set_of(alloc, due) else {
        return Err(Fail::from(REFUSED));
    };
    assert!(rt; *set == other, "{due:?}");
    Ok(())
}

/// A set has the elements that it had where one more is refused memory.
#[test]
fn a_set_after_a_refusal(rt: HostRuntime) -> Result<(), Fail> {
    take_pieces_before(rt.alloc(), Share::First)?;
    let mut set = SetOf::new(rt.alloc());
    for &(number, before) in &NUMBERS {
        assert!(rt; set.len() < 4);
        if set.insert(number).is_err() {
            assert_elements(&rt, rt.alloc(), &set, before)?;
            return Err(Fail::from(REFUSED));
        }
    }
    assert_elements(&rt, rt.alloc(), &set, &[1, 2, 2, 10])
}

/// Checks that there are as many bits, of which the first and each third after it are set.
fn assert_thirds(rt: &impl Abort, bits: &Bits, count: usize) {
    assert_eq!(rt; bits.len(), count);
    for place in 0..count {
        assert!(rt; bits.get(place) == Some(place % 3 == 0), "bit {place}");
    }
}

/// A bit string has the bits that it had where one more is refused memory.
#[test]
fn bits_after_a_refusal(rt: HostRuntime) -> Result<(), Fail> {
    take_pieces_before(rt.alloc(), Share::First)?;
    let mut bits = Bits::new(rt.alloc());
    for place in 0..20 {
        assert!(rt; bits.len() < 20);
        if bits.push(place % 3 == 0).is_err() {
            assert_thirds(&rt, &bits, place);
            return Err(Fail::from(REFUSED));
        }
    }
    assert_thirds(&rt, &bits, 20);
    assert_eq!(rt; bits.octets(), [0x92, 0x49, 0x20].as_slice());
    Ok(())
}

/// The normal form of an object identifier is the list of its arcs.
#[test]
fn a_normal_form(rt: HostRuntime) -> Result<(), Fail> {
    take_pieces_before(rt.alloc(), Share::First)?;
    let Ok(normal) = normal_of_identifier(rt.alloc()) else {
        return Err(Fail::from(REFUSED));
    };
    assert_eq!(rt; normal.as_str(), "{\n  2,\n  5\n}");
    Ok(())
}

/// Returns the printed text of the normal form of a clone of the value.
fn normal_of_clone(alloc: Global, value: &AvnValue) -> Result<String, OutOfMemory> {
    let clone = value.try_clone(alloc)?;
    let normal = clone.normal(alloc);
    let_go(clone);
    printed(alloc, normal?)
}

/// Returns the printed text of the normal form of an object identifier, and of a clone of it.
fn normal_of_identifier(alloc: Global) -> Result<String, OutOfMemory> {
    let identifier = AvnValue::Oid([2, 5].to_vec(alloc)?);
    let text = normal_of_clone(alloc, &identifier);
    let_go(identifier);
    text
}
