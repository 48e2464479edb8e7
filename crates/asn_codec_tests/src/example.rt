//! Shows the calls that a program makes first, as README does.
use crate::checks::{assert_refused, assert_text};
use asn::{Codec, CodecCalls, Decode, Encode, TranscodeError, transcode};
use std::alloc::Global;
use std::test::Fail;

/// Returns the JSON text of a text in AVN.
fn json_of<T: Encode + Decode>(alloc: Global, avn: &str) -> Result<String, TranscodeError> {
    transcode::<T>(alloc, Codec::Avn, Codec::Jer, avn)
}

/// Numbers go from AVN to JSON.
#[test]
fn numbers_go_from_avn_to_json(rt: HostRuntime) -> Result<(), Fail> {
    let json = json_of::<Vec<u8>>(rt.alloc(), "{1 2, 3}")?;
    assert_text(&rt, json.as_str(), "[1,2,3]");
    Ok(())
}

/// A value is read in one notation and written in the other.
#[test]
fn numbers_are_read_and_written(rt: HostRuntime) -> Result<(), Fail> {
    let numbers: Vec<u8> = Codec::Jer.decode_from_str(rt.alloc(), "[1, 2, 3]")?;
    assert!(rt; numbers.as_slice() == [1, 2, 3].as_slice());
    let avn = Codec::Avn.encode_to_string(rt.alloc(), &numbers)?;
    assert_text(&rt, avn.as_str(), "{\n  1,\n  2,\n  3\n}");
    Ok(())
}

/// A text that isn't one of the type is refused, with the cause.
#[test]
fn a_text_is_refused_with_the_cause(rt: HostRuntime) {
    assert_refused(
        &rt,
        rt.alloc(),
        json_of::<Vec<u8>>(rt.alloc(), "{1,}"),
        "AVN decoding error: Unexpected token in AVN: {1,} (Codec: AVN)",
    );
}
