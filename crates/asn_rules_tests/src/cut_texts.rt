//! Decodes each front part of a text: none of them is a value, whatever the type.
use crate::checks::{MEMORY, assert_of, assert_true, is_taken, let_go};
use asn_fault::{AvnDecodeErrorKind, CodecDecodeError, DecodeError, DecodeErrorKind};
use asn_sample_choices::TestTypeA;
use avn_rules::avn;
use jer_rules::jer;

/// Returns whether the error is that a text is no JSON.
fn is_no_json<T: Drop>(answer: Result<T, DecodeError>) -> bool {
    match answer {
        Ok(_) => false,
        Err(error) => {
            let is_found = matches!(error.kind, DecodeErrorKind::Parser { .. });
            let_go(error);
            is_found
        }
    }
}

/// Returns whether the error is that a token of AVN is unexpected.
fn is_unexpected_token<T: Drop>(answer: Result<T, DecodeError>) -> bool {
    match answer {
        Ok(_) => false,
        Err(error) => {
            let is_found = matches!(
                error.kind,
                DecodeErrorKind::CodecSpecific {
                    inner: CodecDecodeError::Avn(AvnDecodeErrorKind::UnexpectedToken { .. })
                }
            );
            let_go(error);
            is_found
        }
    }
}

/// Every front part of a text of JER is refused as no JSON.
#[test]
fn json_that_is_cut_short(rt: HostRuntime) {
    const WHOLE: &str =
        "{\"grappa\":{\"length\":2,\"value\":\"80\"},\"juice\":0,\"wine\":{\"Wine\":4}}";
    let mut text = String::new(rt.alloc());
    for c in WHOLE.chars() {
        let front = jer::decode::<TestTypeA>(rt.alloc(), text.as_str());
        assert_of(&rt, is_no_json(front), text.as_str());
        text.push(c).expect(&rt, MEMORY);
    }
    let whole = jer::decode::<TestTypeA>(rt.alloc(), text.as_str());
    assert_true(&rt, is_taken(whole));
}

/// Every front part of a text of AVN is refused for a token that is unexpected.
#[test]
fn notation_that_is_cut_short(rt: HostRuntime) {
    const WHOLE: &str = "{\n  juice 0,\n  wine Wine : 4,\n  grappa '10'B\n}";
    let mut text = String::new(rt.alloc());
    for c in WHOLE.chars() {
        let front = avn::decode::<TestTypeA>(rt.alloc(), text.as_str());
        assert_of(&rt, is_unexpected_token(front), text.as_str());
        text.push(c).expect(&rt, MEMORY);
    }
    let whole = avn::decode::<TestTypeA>(rt.alloc(), text.as_str());
    assert_true(&rt, is_taken(whole));
}
