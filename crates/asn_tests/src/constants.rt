//! Compares constants with the numbers that X.680 gives, with their names, and with what each type
//! and call states.
use crate::checks::{assert_of, assert_same, assert_true};
use asn_core::{Any, Bits, Class, Identifier, ObjectIdentifier, OctetString, Tag, TagTree};
use asn_strings::{
    BmpString, GeneralString, GraphicString, Ia5String, NumericString, PrintableString,
    UniversalString, VisibleString,
};
use asn_times::{Date, GeneralizedTime, UtcTime};
use asn_traits::{AsnType, Field, Fields, Presence, optional, required, with_default};

/// Lists the universal tags with their numbers (X.680, table 1).
const UNIVERSAL: [(Tag, u32); 24] = [
    (Tag::EOC, 0),
    (Tag::BOOL, 1),
    (Tag::INTEGER, 2),
    (Tag::BIT_STRING, 3),
    (Tag::OCTET_STRING, 4),
    (Tag::NULL, 5),
    (Tag::OBJECT_IDENTIFIER, 6),
    (Tag::REAL, 9),
    (Tag::ENUMERATED, 10),
    (Tag::UTF8_STRING, 12),
    (Tag::SEQUENCE, 16),
    (Tag::SET, 17),
    (Tag::NUMERIC_STRING, 18),
    (Tag::PRINTABLE_STRING, 19),
    (Tag::TELETEX_STRING, 20),
    (Tag::IA5_STRING, 22),
    (Tag::UTC_TIME, 23),
    (Tag::GENERALIZED_TIME, 24),
    (Tag::GRAPHIC_STRING, 25),
    (Tag::VISIBLE_STRING, 26),
    (Tag::GENERAL_STRING, 27),
    (Tag::UNIVERSAL_STRING, 28),
    (Tag::BMP_STRING, 30),
    (Tag::DATE, 31),
];

/// Each universal constant of `Tag` has its number.
#[test]
fn universal_tags(rt: HostRuntime) {
    for &(tag, value) in &UNIVERSAL {
        // No other class is among them.
        assert_same(&rt, tag, Tag::new(Class::Universal, value));
    }
}

/// Lists the context tags with their numbers, which their names have.
const CONTEXT: [(Tag, u32); 16] = [
    (Tag::CONTEXT_0, 0),
    (Tag::CONTEXT_1, 1),
    (Tag::CONTEXT_2, 2),
    (Tag::CONTEXT_3, 3),
    (Tag::CONTEXT_4, 4),
    (Tag::CONTEXT_5, 5),
    (Tag::CONTEXT_6, 6),
    (Tag::CONTEXT_7, 7),
    (Tag::CONTEXT_8, 8),
    (Tag::CONTEXT_9, 9),
    (Tag::CONTEXT_10, 10),
    (Tag::CONTEXT_11, 11),
    (Tag::CONTEXT_12, 12),
    (Tag::CONTEXT_13, 13),
    (Tag::CONTEXT_14, 14),
    (Tag::CONTEXT_15, 15),
];

/// Each context constant of `Tag` has the number of its name.
#[test]
fn context_tags(rt: HostRuntime) {
    for &(tag, value) in &CONTEXT {
        // No other class is among them.
        assert_same(&rt, tag, Tag::new(Class::Context, value));
    }
}

/// Returns the tag of a tree that is one tag alone.
fn only_tag(tree: &TagTree) -> Option<Tag> {
    match tree {
        TagTree::Leaf(tag) => Some(*tag),
        TagTree::Choice(..) => None,
    }
}

/// Returns whether two trees have the same tags in the same order.
pub fn is_same_tree(one: &TagTree, other: &TagTree) -> bool {
    match (one, other) {
        (TagTree::Leaf(tag), TagTree::Leaf(same)) => tag == same,
        (TagTree::Choice(parts), TagTree::Choice(others)) => {
            if parts.len() != others.len() {
                return false;
            }
            for (part, same) in parts.iter().zip(*others) {
                if !is_same_tree(part, same) {
                    return false;
                }
            }
            true
        }
        _ => false,
    }
}

/// Returns whether the tags, the kind and the constraints of a type are those that its calls state
/// of its shape.
pub fn has_its_tags<T: AsnType>() -> bool {
    let (tag, tree, choice) = T::tag_table();
    T::TAG == tag
        && is_same_tree(&T::TAG_TREE, &tree)
        && T::IS_CHOICE == choice
        && T::CONSTRAINTS.items.len() == T::constraint_table().items.len()
}

/// Returns whether the constants of a type are those that its calls state of its shape, and it has
/// one tag, no identifier of its own and no type below it at the same tree.
fn agree<T: AsnType>() -> bool {
    only_tag(&T::TAG_TREE) == Some(T::TAG)
        && has_its_tags::<T>()
        && T::IDENTIFIER == Identifier::EMPTY
        && T::RANK == 0
}

/// No contract names the constants of a type. Its calls state them, and tie them to its shape; here
/// both are the same.
#[test]
fn constants_are_what_calls_state(rt: HostRuntime) {
    let strings = [
        agree::<String>(),
        agree::<NumericString>(),
        agree::<PrintableString>(),
        agree::<VisibleString>(),
        agree::<Ia5String>(),
        agree::<GeneralString>(),
        agree::<GraphicString>(),
        agree::<BmpString>(),
        agree::<UniversalString>(),
    ];
    let others = [
        agree::<bool>(),
        agree::<()>(),
        agree::<u8>(),
        agree::<i128>(),
        agree::<Bits>(),
        agree::<OctetString>(),
        agree::<Any>(),
        agree::<ObjectIdentifier>(),
        agree::<UtcTime>(),
        agree::<GeneralizedTime>(),
        agree::<Date>(),
        agree::<Vec<bool>>(),
    ];
    for &same in strings.iter().chain(others.iter()) {
        // A row stands for a type.
        assert_true(&rt, same);
    }
}

/// Lists a field of each presence, as the macros make them.
const ROWS: &'static [Field] = &[
    required!(0, Tag::CONTEXT_0, "a"),
    optional!(1, Tag::CONTEXT_1, "b"),
    with_default!(2, Tag::CONTEXT_2, "c"),
];

/// Returns whether both state the same presence.
fn is_same_presence(one: Presence, other: Presence) -> bool {
    match one {
        Presence::Required => matches!(other, Presence::Required),
        Presence::Optional => matches!(other, Presence::Optional),
        Presence::Default => matches!(other, Presence::Default),
    }
}

/// Returns whether the two fields are the same.
pub fn is_same_field(one: &Field, other: &Field) -> bool {
    one.index == other.index
        && one.tag == other.tag
        && is_same_tree(&one.tag_tree, &other.tag_tree)
        && is_same_presence(one.presence, other.presence)
        && one.name == other.name
}

/// The macros for constants make the fields that the calls make, and a table has its rows.
#[test]
fn fields_are_made_by_macros_and_calls(rt: HostRuntime) {
    let (first, second, third) = (Tag::CONTEXT_0, Tag::CONTEXT_1, Tag::CONTEXT_2);
    let made = [
        Field::new_required(0, first, TagTree::Leaf(first), "a"),
        Field::new_optional(1, second, TagTree::Leaf(second), "b"),
        Field::new_default(2, third, TagTree::Leaf(third), "c"),
    ];
    let table = Fields::from_static(ROWS);
    assert_same(&rt, table.items.len(), made.len());
    for (one, other) in made.iter().zip(table.items) {
        assert_of(&rt, is_same_field(one, other), one.name);
    }
}
