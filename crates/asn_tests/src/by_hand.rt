//! Runs the decoding of `MarkSet` and `WithNullOpt` by hand on both notations.
use crate::checks::{DECODER, assert_refused, assert_true, let_go};
use asn_by_hand::{read_mark_set, read_with_null_opt};
use asn_fault::DecodeError;
use asn_samples::{MarkSet, WithNullOpt};
use avn_rules::avn;
use jer_rules::jer;
use std::alloc::Global;
use std::process::Abort;

/// Decodes a set from JER by hand.
fn set_of_jer(rt: &impl Abort, alloc: Global, text: &str) -> Result<MarkSet, DecodeError> {
    let mut decoder = jer::de::Decoder::new(alloc, text).expect(rt, DECODER);
    let answer = read_mark_set(&mut decoder);
    let_go(decoder);
    answer
}

/// Decodes a set from AVN by hand.
fn set_of_avn(rt: &impl Abort, alloc: Global, text: &str) -> Result<MarkSet, DecodeError> {
    let mut decoder = avn::de::Decoder::new(alloc, text).expect(rt, DECODER);
    let answer = read_mark_set(&mut decoder);
    let_go(decoder);
    answer
}

/// Returns whether a set is read that has the mark 2 and the note `n`.
fn is_two_n(rt: &impl Abort, answer: Result<MarkSet, DecodeError>) -> bool {
    let set = answer.expect(rt, "no set");
    let is_found = match &set.note {
        Some(note) => set.mark == 2 && note.as_str() == "n",
        None => false,
    };
    let_go(set);
    is_found
}

/// A set is read field by field, in both notations.
#[test]
fn a_set_is_read_field_by_field(rt: HostRuntime) {
    let set = set_of_jer(&rt, rt.alloc(), "{\"mark\":2,\"note\":\"n\"}");
    assert_true(&rt, is_two_n(&rt, set));
    let set = set_of_avn(&rt, rt.alloc(), "{ mark 2, note \"n\" }");
    assert_true(&rt, is_two_n(&rt, set));
}

/// Of two members that are of another kind the one with the smaller tag is named.
#[test]
fn the_member_with_the_smaller_tag_is_named(rt: HostRuntime) {
    let set = set_of_jer(&rt, rt.alloc(), "{\"mark\":true,\"note\":3}");
    assert_refused(
        &rt,
        rt.alloc(),
        set,
        "Error when decoding field `note`: JER decoding error: Found mismatching JSON value. \
        Expected type: string. Found value: 3 (Codec: JER) (Codec: JER)",
    );
}

/// Decodes a sequence from JER by hand.
fn sequence_of_jer(rt: &impl Abort, alloc: Global, text: &str) -> Result<WithNullOpt, DecodeError> {
    let mut decoder = jer::de::Decoder::new(alloc, text).expect(rt, DECODER);
    let answer = read_with_null_opt(&mut decoder);
    let_go(decoder);
    answer
}

/// Decodes a sequence from AVN by hand.
fn sequence_of_avn(rt: &impl Abort, alloc: Global, text: &str) -> Result<WithNullOpt, DecodeError> {
    let mut decoder = avn::de::Decoder::new(alloc, text).expect(rt, DECODER);
    let answer = read_with_null_opt(&mut decoder);
    let_go(decoder);
    answer
}

/// Returns whether a sequence of the name `n` is read, with the flag exactly where it is wanted.
fn is_n(rt: &impl Abort, answer: Result<WithNullOpt, DecodeError>, flag: bool) -> bool {
    let sequence = answer.expect(rt, "no sequence");
    let is_found = sequence.name.as_str() == "n" && sequence.flag.is_some() == flag;
    let_go(sequence);
    is_found
}

/// A sequence is read field by field, in both notations, in whatever order its members stand.
#[test]
fn a_sequence_is_read_field_by_field(rt: HostRuntime) {
    let sequence = sequence_of_jer(&rt, rt.alloc(), "{\"flag\":null,\"name\":\"n\"}");
    assert_true(&rt, is_n(&rt, sequence, true));
    let sequence = sequence_of_avn(&rt, rt.alloc(), "{ flag NULL, name \"n\" }");
    assert_true(&rt, is_n(&rt, sequence, true));
}

/// A field that is optional may be absent.
#[test]
fn a_sequence_without_its_flag_is_read(rt: HostRuntime) {
    let sequence = sequence_of_jer(&rt, rt.alloc(), "{\"name\":\"n\"}");
    assert_true(&rt, is_n(&rt, sequence, false));
    let sequence = sequence_of_avn(&rt, rt.alloc(), "{ name \"n\" }");
    assert_true(&rt, is_n(&rt, sequence, false));
}

/// Of two members that are of another kind the one that is declared first is named.
#[test]
fn the_member_that_is_declared_first_is_named(rt: HostRuntime) {
    let alloc = rt.alloc();
    assert_refused(
        &rt,
        alloc,
        sequence_of_jer(&rt, alloc, "{\"flag\":3,\"name\":true}"),
        "Error when decoding field `name`: JER decoding error: Found mismatching JSON value. \
        Expected type: string. Found value: true (Codec: JER) (Codec: JER)",
    );
    assert_refused(
        &rt,
        alloc,
        sequence_of_avn(&rt, alloc, "{ flag 3, name TRUE }"),
        "Error when decoding field `name`: AVN decoding error: AVN type mismatch: expected \
        character string, found TRUE (Codec: AVN) (Codec: AVN)",
    );
}
