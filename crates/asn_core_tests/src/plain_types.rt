//! Tests the plain types of `asn_core`: printed texts, tags, and looks at a text.
use asn_core::{Bounded, Class, Codec, Scan, Tag, TagTree, Variants, WholeNumber};
use std::test::Fail;

/// Bounds, whole numbers, tags and codecs print exactly as the crate `rasn` prints them.
#[test]
fn texts(rt: HostRuntime) -> Result<(), Fail> {
    let alloc = rt.alloc();
    // An end that is open prints as `MIN` or `MAX`, and a single number as itself.
    let rows: [(Bounded<i128>, &'static str); 6] = [
        (Bounded::None, "MIN..MAX"),
        (Bounded::Single(-5), "-5"),
        (
            Bounded::Range {
                start: Some(1),
                end: Some(10),
            },
            "1..10",
        ),
        (
            Bounded::Range {
                start: Some(-3),
                end: None,
            },
            "-3..MAX",
        ),
        (
            Bounded::Range {
                start: None,
                end: Some(0),
            },
            "MIN..0",
        ),
        (
            Bounded::Range {
                start: None,
                end: None,
            },
            "MIN..MAX",
        ),
    ];
    for (bounds, want) in &rows {
        assert_eq!(rt; bounds.to_string(alloc)?.as_str(), *want);
    }
    // The widest magnitude with a sign, which no integer type has.
    let below_zero = WholeNumber {
        negative: true,
        magnitude: u128::MAX,
    };
    assert_eq!(rt;
        below_zero.to_string(alloc)?.as_str(),
        "-340282366920938463463374607431768211455"
    );
    // A class and a codec print in capitals.
    assert_eq!(rt; Tag::SEQUENCE.to_string(alloc)?.as_str(), "UNIVERSAL 16");
    assert_eq!(rt; Codec::Avn.to_string(alloc)?.as_str(), "AVN");
    Ok(())
}

/// A tag has the class and the number that it is made of.
#[test]
fn a_tag_is_made(rt: HostRuntime) {
    let tag = Tag::new(Class::Private, 7);
    assert_eq!(rt; tag.class, Class::Private);
    assert_eq!(rt; tag.value, 7);
}

/// Lists the tags of two alternatives.
const BASE: &'static [TagTree] = &[TagTree::Leaf(Tag::CONTEXT_0), TagTree::Leaf(Tag::CONTEXT_1)];

/// Lists the tags of two extension additions. The first is a CHOICE without a tag of its own,
/// whose smallest tag is not its first one.
const ADDED: &'static [TagTree] = &[
    TagTree::Choice(&[
        TagTree::Leaf(Tag::CONTEXT_7),
        TagTree::Leaf(Tag::UTF8_STRING),
    ]),
    TagTree::Leaf(Tag::CONTEXT_2),
];

/// Each alternative counts by its smallest tag, and extension additions come after the root. The
/// order of tags is that of X.680, section 8.6.
#[test]
fn tags_of_alternatives(rt: HostRuntime) -> Result<(), Fail> {
    // Without additions the tags are those of the root.
    let variants = Variants::from_parts(rt.alloc(), BASE, None)?;
    assert_eq!(rt;
        variants.tags(),
        [Tag::CONTEXT_0, Tag::CONTEXT_1].as_slice()
    );

    let variants = Variants::from_parts(rt.alloc(), BASE, Some(ADDED))?;
    // A universal tag is below a context tag.
    let want = [
        Tag::CONTEXT_0,
        Tag::CONTEXT_1,
        Tag::UTF8_STRING,
        Tag::CONTEXT_2,
    ];
    assert_eq!(rt; variants.tags(), want.as_slice());
    Ok(())
}

/// A look counts one.
#[test]
fn looks_are_counted(rt: HostRuntime) {
    let mut scan = Scan::new("ab");
    scan.has_edge_at_start();
    assert_eq!(rt; scan.look(0), Some('a'));
    assert_eq!(rt; scan.count(), 1);
}

/// An excerpt counts as many as it has characters, less than it may have.
#[test]
fn copies_are_counted(rt: HostRuntime) -> Result<(), Fail> {
    let mut scan = Scan::new("ab");
    scan.has_edge_at_start();
    assert_eq!(rt; scan.excerpt(rt.alloc(), 0, 5)?.as_str(), "ab");
    assert_eq!(rt; scan.count(), 2);
    Ok(())
}
