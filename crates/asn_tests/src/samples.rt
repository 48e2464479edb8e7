//! Runs visitors at the sample types, and shows the shape of one.
use crate::checks::{MEMORY, assert_of, assert_true, let_go};
use crate::constants::has_its_tags;
use asn_core::{Identifier, Tag};
use asn_samples::{Sample, SampleVisitor, is_sample_name};
use asn_traits::{Decode, Encode, Shape, is_readable};
use std::alloc::Global;
use std::process::Abort;

/// Gives the tag of the type that it is run at, and returns whether that is a CHOICE, and whether
/// its constants are those that its calls state, with neither an identifier of its own nor a rank
/// above another type.
#[derive(Drop)]
struct TagOf {}

/// Reads the constants of each type. It promises nothing, so a test compares what it finds.
impl SampleVisitor<Tag> for TagOf {
    ghost use Rattle.std.specs.Prelude.{⊤};

    type Output = (bool, bool);

    ghost visits = { λ visitor shape old new output. ⊤ };

    fn visit<T: Encode + Decode>(self, tag: &mut Tag) -> (bool, bool) {
        *tag = T::TAG;
        (
            T::IS_CHOICE,
            has_its_tags::<T>() && T::IDENTIFIER == Identifier::EMPTY && T::RANK == 0,
        )
    }
}

/// Lists the names of the sample types, each with the universal tag of its type; a CHOICE has none.
/// `Any` is left out, which has none either.
const TAGS: [(&'static str, Tag); 53] = [
    ("bool", Tag::BOOL),
    ("Null", Tag::NULL),
    ("u8", Tag::INTEGER),
    ("i64", Tag::INTEGER),
    ("u64", Tag::INTEGER),
    ("u128", Tag::INTEGER),
    ("Integer", Tag::INTEGER),
    ("Utf8String", Tag::UTF8_STRING),
    ("NumericString", Tag::NUMERIC_STRING),
    ("PrintableString", Tag::PRINTABLE_STRING),
    ("VisibleString", Tag::VISIBLE_STRING),
    ("Ia5String", Tag::IA5_STRING),
    ("GeneralString", Tag::GENERAL_STRING),
    ("GraphicString", Tag::GRAPHIC_STRING),
    ("BmpString", Tag::BMP_STRING),
    ("UniversalString", Tag::UNIVERSAL_STRING),
    ("UtcTime", Tag::UTC_TIME),
    ("GeneralizedTime", Tag::GENERALIZED_TIME),
    ("Date", Tag::DATE),
    ("SequenceOf<u8>", Tag::SEQUENCE),
    ("SequenceOf<i64>", Tag::SEQUENCE),
    ("SequenceOf<bool>", Tag::SEQUENCE),
    ("SequenceOf<SimpleChoice>", Tag::SEQUENCE),
    ("SetOf<u8>", Tag::SET),
    ("OctetString", Tag::OCTET_STRING),
    ("BitString", Tag::BIT_STRING),
    ("ObjectIdentifier", Tag::OBJECT_IDENTIFIER),
    ("Document", Tag::EOC),
    ("Renamed", Tag::SEQUENCE),
    ("Inner", Tag::EOC),
    ("SimpleEnum", Tag::ENUMERATED),
    ("ExtEnum", Tag::ENUMERATED),
    ("SimpleChoice", Tag::EOC),
    ("ExtChoice", Tag::EOC),
    ("OldPart", Tag::EOC),
    ("NewPart", Tag::EOC),
    ("Nested", Tag::SEQUENCE),
    ("Struct", Tag::SEQUENCE),
    ("TestTypeA", Tag::SEQUENCE),
    ("Very", Tag::SEQUENCE),
    ("Defaulted", Tag::SEQUENCE),
    ("MarkSet", Tag::SET),
    ("OldReport", Tag::SEQUENCE),
    ("NewReport", Tag::SEQUENCE),
    ("OldMode", Tag::ENUMERATED),
    ("NewMode", Tag::ENUMERATED),
    ("OldTree", Tag::SEQUENCE),
    ("NewTree", Tag::SEQUENCE),
    ("WithNullOpt", Tag::SEQUENCE),
    ("ConstrainedBitString", Tag::BIT_STRING),
    ("ExtensibleBitString", Tag::BIT_STRING),
    ("ExtensibleBitStringField", Tag::SEQUENCE),
    ("Nest", Tag::SEQUENCE),
];

/// Returns the tag of the sample's type, and what `TagOf` returns there.
fn constants_of(sample: Sample) -> (Tag, (bool, bool)) {
    // A tag that none of the types but one has.
    let mut tag = Tag::NULL;
    let constants = sample.accept(TagOf {}, &mut tag);
    (tag, constants)
}

/// Returns whether the shape of the sample's type can be read.
fn has_readable_shape(rt: &impl Abort, alloc: Global, sample: Sample) -> bool {
    let shape = sample.shape(alloc).expect(rt, MEMORY);
    let is_found = is_readable(&shape);
    let_go(shape);
    is_found
}

/// Checks that the name leads to a type of this tag, whose shape can be read.
fn assert_sample(rt: &impl Abort, alloc: Global, name: &str, tag: Tag) {
    assert_of(rt, is_sample_name(name), name);
    let sample = Sample::named(name).expect(rt, name);
    let wanted = (tag, (tag == Tag::EOC, true));
    assert_of(rt, constants_of(sample) == wanted, name);
    assert_of(rt, has_readable_shape(rt, alloc, sample), name);
}

/// A name leads to a type of its tag, whose shape can be read; that it is the type of the sample's
/// shape is the contract of `accept`. The tags are the universal ones of X.680, section 8.
#[test]
fn a_visitor_is_run_at_the_type_of_the_name(rt: HostRuntime) {
    for row in TAGS.iter() {
        assert_sample(&rt, rt.alloc(), row.0, row.1);
    }
}

/// Names of other case, with a blank, or of other types are none.
#[test]
fn other_names_are_no_samples(rt: HostRuntime) {
    for &name in &["", "Bool", "bool ", "SequenceOf<Nest>"] {
        assert_of(&rt, !is_sample_name(name), name);
    }
}

/// Returns whether the shape is a CHOICE of two alternatives, and of one extension addition of this
/// identifier and tag.
fn has_addition(shape: &Shape, identifier: &str, tag: u32) -> bool {
    match shape {
        Shape::Choice {
            alternatives,
            added: Some(added),
        } => match added.as_slice() {
            [only] => {
                alternatives.len() == 2
                    && only.identifier.as_str() == identifier
                    && only.tag.value == tag
            }
            _ => false,
        },
        _ => false,
    }
}

/// The shape of a CHOICE has the alternatives of the root and the extension additions apart, and
/// the tags of these go on from those of the root.
#[test]
fn a_choice_shows_its_additions(rt: HostRuntime) {
    let shape = Sample::ExtChoice.shape(rt.alloc()).expect(&rt, MEMORY);
    assert_true(&rt, has_addition(&shape, "Test3", 2));
    let_go(shape);
}
