//! Decodes texts that a program of an earlier version wrote. The error's text is that of the crate
//! `rasn`.
use crate::checks::{assert_refused, assert_taken};
use asn_core::Codec;
use asn_sample_choices::{NewPart, NewReport, OldPart, OldReport};
use asn_sample_fields::{NewMode, OldMode};
use asn_upgrades::decode_as_newer;
use asn_versions::later_versions;

/// Lists texts of an alternative of the older version.
const WRITTEN: [(Codec, &'static str); 2] = [
    (Codec::Jer, "{\"code\":7}"),
    (Codec::Avn, "code : 7"),
];

/// An alternative of the older version is decoded as that of the newer one.
#[test]
fn an_older_alternative_is_decoded(rt: HostRuntime) {
    for row in WRITTEN.iter() {
        later_versions();
        let part = decode_as_newer::<OldPart, NewPart>(rt.alloc(), row.0, row.1);
        assert_taken(&rt, part, NewPart::Code(7));
    }
}

/// An item of the older version is decoded as that of the newer one.
#[test]
fn an_older_item_is_decoded(rt: HostRuntime) {
    later_versions();
    let mode = decode_as_newer::<OldMode, NewMode>(rt.alloc(), Codec::Avn, "low");
    assert_taken(&rt, mode, NewMode::Low);
}

/// A text without an addition that the newer version requires is refused for it.
#[test]
fn a_required_addition_is_missing(rt: HostRuntime) {
    later_versions();
    let text = "{\"id\":1,\"parts\":[]}";
    let report = decode_as_newer::<OldReport, NewReport>(rt.alloc(), Codec::Jer, text);
    let want = "Missing field `owner` (Codec: JER)";
    assert_refused(&rt, rt.alloc(), report, want);
}
