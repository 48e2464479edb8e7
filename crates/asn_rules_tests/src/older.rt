//! Decodes texts that a program of a later version may have written. The errors' texts are those
//! of the crate `rasn`.
use crate::checks::{assert_given, assert_refused, assert_taken, let_go};
use asn_core::Codec;
use asn_sample_choices::OldPart;
use asn_sample_trees::{NewTree, OldTree};
use asn_upgrades::decode_as_older;
use asn_versions::{decode_part, later_versions};
use jer_rules::jer;

/// Lists texts of an alternative that both versions have.
const KNOWN: [(Codec, &'static str); 2] = [(Codec::Jer, "{\"code\":7}"), (Codec::Avn, "code : 7")];

/// An alternative that both versions have is decoded from either notation.
#[test]
fn a_known_alternative_is_decoded(rt: HostRuntime) {
    for row in KNOWN.iter() {
        let part = decode_part(rt.alloc(), row.0, row.1);
        assert_taken(&rt, part, OldPart::Code(7));
    }
}

/// Lists texts of an alternative that the older version lacks, each with its refusal.
const UNKNOWN: [(Codec, &'static str, &'static str); 2] = [
    (
        Codec::Jer,
        "{\"flag\":true}",
        "No valid choice for `OldPart` (Codec: JER)",
    ),
    (
        Codec::Avn,
        "flag : TRUE",
        "No valid choice for `OldPart` (Codec: AVN)",
    ),
];

/// An alternative that the older version lacks is refused.
#[test]
fn an_unknown_alternative_is_refused(rt: HostRuntime) {
    for row in UNKNOWN.iter() {
        let part = decode_part(rt.alloc(), row.0, row.1);
        assert_refused(&rt, rt.alloc(), part, row.2);
    }
}

/// Labels, which the older version lacks, are dropped at every depth.
#[test]
fn additions_are_dropped_at_every_depth(rt: HostRuntime) {
    later_versions();
    let text = "{\"kids\":[{\"kids\":[],\"label\":\"x\"}],\"label\":\"y\"}";
    let answer = decode_as_older::<OldTree, NewTree>(rt.alloc(), Codec::Jer, text);
    let tree = answer.expect(&rt, "no tree");
    assert_given(
        &rt,
        jer::encode(rt.alloc(), &tree),
        "{\"kids\":[{\"kids\":[]}]}",
    );
    let_go(tree);
}
