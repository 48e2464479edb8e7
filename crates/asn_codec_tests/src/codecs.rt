//! Calls the codecs by name, and the encoder and the decoder of AVN directly, where a text can't
//! lead: to a codec without text, to a root without a value, to a number that is none.
use crate::checks::{
    DECODER, MEMORY, assert_given, assert_refused, assert_text, assert_true, let_go,
};
use asn_codec::CodecCalls;
use asn_core::{Codec, Constraints, Identifier, Scan, Tag};
use asn_traits::{Decoder, Encode, Encoder};
use avn_rules::avn::{de, enc};
use avn_value::{AvnValue, LEVEL_LIMIT, NodeTable};
use std::alloc::Global;
use std::fmt::Display;
use std::process::Abort;

/// Lists codecs, each with the error of encoding a value as text by it. The texts are those of the
/// crate `rasn`.
const REFUSED: [(Codec, &'static str); 3] = [
    (
        Codec::Ber,
        "Custom error: BER is a binary-based encoding. Call `Codec::encode_to_binary` instead. \
         (Codec: BER)",
    ),
    (
        Codec::Coer,
        "Custom error: COER is a binary-based encoding. Call `Codec::encode_to_binary` instead. \
         (Codec: COER)",
    ),
    (
        Codec::Xer,
        "Custom error: XER is not supported. (Codec: XER)",
    ),
];

/// A binary codec returns an error that names the call to make instead, and XER that it is not
/// supported.
#[test]
fn other_codecs_encode_no_text(rt: HostRuntime) {
    // The value plays no part: the codec is looked at first.
    for row in REFUSED.iter() {
        let written = row.0.encode_to_string(rt.alloc(), &true);
        assert_refused(&rt, rt.alloc(), written, row.1);
    }
}

/// Decoding names the other call.
#[test]
fn other_codecs_decode_no_text(rt: HostRuntime) {
    let read = Codec::Uper.decode_from_str::<bool>(rt.alloc(), "TRUE");
    assert_refused(
        &rt,
        rt.alloc(),
        read,
        "Custom error: UPER is a binary-based encoding. Call `Codec::decode_from_binary` \
         instead. (Codec: UPER)",
    );
}

/// Is the error of an encoder of AVN that was given nothing, as that of the crate `rasn`.
const NOTHING: &str = "AVN encoding error: No encoded AVN root value found (Codec: AVN)";

/// An encoder of AVN that was given nothing has no text. The call consumes the encoder.
#[test]
fn nothing_stands_at_the_root_of_avn_at_first(rt: HostRuntime) {
    let none = enc::Encoder::new(rt.alloc()).to_string();
    assert_refused(&rt, rt.alloc(), none, NOTHING);
}

/// An encoder of AVN that was given nothing has no AVN value. The call consumes the encoder.
#[test]
fn no_value_stands_at_the_root_of_avn_at_first(rt: HostRuntime) {
    let none = enc::Encoder::new(rt.alloc()).to_avn();
    assert_refused(&rt, rt.alloc(), none, NOTHING);
}

/// An encoder of AVN that was given a value has its text.
#[test]
fn shows_what_stands_at_the_root_of_avn(rt: HostRuntime) {
    let mut encoder = enc::Encoder::new(rt.alloc());
    let written = encoder.encode_bool(Tag::BOOL, true, Identifier::EMPTY);
    written.expect(&rt, "no value");
    assert_given(&rt, encoder.to_string(), "TRUE");
}

/// Checks that the value prints the text that is wanted, and lets it go.
fn assert_printed<T: Display + Drop>(rt: &impl Abort, alloc: Global, value: T, want: &str) {
    let text = value.to_string(alloc).expect(rt, MEMORY);
    assert_text(rt, text.as_str(), want);
}

/// An encoder of AVN that was given a list has its AVN value.
#[test]
fn has_the_value_at_the_root_of_avn(rt: HostRuntime) {
    let two = Vec::from_array(rt.alloc(), [1u8, 2]).expect(&rt, MEMORY);
    let mut encoder = enc::Encoder::new(rt.alloc());
    two.encode(&mut encoder).expect(&rt, "no value");
    let value = encoder.to_avn().expect(&rt, "no AVN");
    assert_printed(&rt, rt.alloc(), value, "{\n  1,\n  2\n}");
}

/// An AVN value of a program's own may hold an integer whose text is no number. The parser makes
/// none, so a test makes it by hand. A number is looked for in the text only when a type asks for
/// one.
/// The error's text is that of the crate `rasn`, with the integer's own text in it.
#[test]
fn an_integer_value_may_be_no_number(rt: HostRuntime) {
    let text = String::from_str(rt.alloc(), "x").expect(&rt, MEMORY);
    // `from_value` takes a value as it is, whether it is well formed or not.
    let made = de::Decoder::from_value(rt.alloc(), AvnValue::Integer(text));
    let mut decoder = made.expect(&rt, DECODER);
    let number = decoder.decode_integer::<u8>(Tag::INTEGER, &Constraints::NONE);
    let_go(decoder);
    assert_refused(
        &rt,
        rt.alloc(),
        number,
        "AVN decoding error: Integer parse error in AVN: x (Codec: AVN)",
    );
}

/// A decoder of a table decodes its value.
#[test]
fn a_table_is_decoded(rt: HostRuntime) {
    let mut scan = Scan::new("TRUE");
    let table = NodeTable::parse(rt.alloc(), &mut scan, LEVEL_LIMIT);
    let mut decoder = de::Decoder::from_table(rt.alloc(), table.expect(&rt, "no table"));
    let value = decoder.decode_bool(Tag::BOOL);
    let_go(decoder);
    assert_true(&rt, value.expect(&rt, "no value"));
}
