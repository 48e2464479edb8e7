//! Compares the tables of described types, which stand in constants that no contract can name, with
//! what the calls return that are tied to the types' shapes.
use crate::checks::assert_true;
use crate::constants::{has_its_tags, is_same_field, is_same_tree};
use asn_by_hand::{GrowingSet, Wide};
use asn_document::Document;
use asn_samples::{
    Blank, Defaulted, ExtChoice, ExtEnum, ExtensibleBitStringField, Inner, MarkSet, Nested,
    NewMode, NewPart, NewReport, OldMode, OldPart, OldReport, Renamed, SimpleChoice, SimpleEnum,
    Struct, TestTypeA, Very, WithNullOpt, Wrap1, Wrap2,
};
use asn_traits::{AsnType, Choice, Constructed, Enumerated, Fields, TagTree};

/// Returns whether two tables have the same rows.
fn is_same_table(one: Fields, other: Fields) -> bool {
    if one.items.len() != other.items.len() {
        return false;
    }
    for (row, same) in one.items.iter().zip(other.items) {
        if !is_same_field(row, same) {
            return false;
        }
    }
    true
}

/// Returns whether the fields of a SEQUENCE or SET are those that its calls return.
fn has_its_fields<T: Constructed>() -> bool {
    let added = match (T::EXTENDED_FIELDS, T::extended_field_table()) {
        (None, None) => true,
        (Some(one), Some(other)) => is_same_table(one, other),
        _ => false,
    };
    added && is_same_table(T::FIELDS, T::field_table())
}

/// Each SEQUENCE and SET has the fields that its calls return.
#[test]
fn fields_are_what_calls_return(rt: HostRuntime) {
    let fields = [
        has_its_fields::<Blank>(),
        has_its_fields::<Defaulted>(),
        has_its_fields::<ExtensibleBitStringField>(),
        has_its_fields::<GrowingSet>(),
        has_its_fields::<MarkSet>(),
        has_its_fields::<Nested>(),
        has_its_fields::<NewReport>(),
        has_its_fields::<OldReport>(),
        has_its_fields::<Renamed>(),
        has_its_fields::<Struct>(),
        has_its_fields::<TestTypeA>(),
        has_its_fields::<Very>(),
        has_its_fields::<Wide>(),
        has_its_fields::<WithNullOpt>(),
    ];
    for &same in fields.iter() {
        // A row stands for a type.
        assert_true(&rt, same);
    }
}

/// Returns whether two lists have the same tags in the same order.
fn are_same_trees(one: &[TagTree], other: &[TagTree]) -> bool {
    if one.len() != other.len() {
        return false;
    }
    for (tree, same) in one.iter().zip(other) {
        if !is_same_tree(tree, same) {
            return false;
        }
    }
    true
}

/// Returns whether the alternatives of a CHOICE are those that its calls return.
fn has_its_alternatives<T: Choice>() -> bool {
    let added = match (T::EXTENDED_VARIANTS, T::extended_variant_table()) {
        (None, None) => true,
        (Some(one), Some(other)) => are_same_trees(one, other),
        _ => false,
    };
    added
        && are_same_trees(T::VARIANTS, T::variant_table())
        && T::IDENTIFIERS == T::identifier_table()
}

/// Each CHOICE has the alternatives that its calls return.
#[test]
fn alternatives_are_what_calls_return(rt: HostRuntime) {
    let alternatives = [
        has_its_alternatives::<Document>(),
        has_its_alternatives::<ExtChoice>(),
        has_its_alternatives::<Inner>(),
        has_its_alternatives::<NewPart>(),
        has_its_alternatives::<OldPart>(),
        has_its_alternatives::<SimpleChoice>(),
    ];
    for &same in alternatives.iter() {
        assert_true(&rt, same);
    }
}

/// Returns whether the items of an ENUMERATED type are those that its calls return.
fn has_its_items<T: Enumerated>() -> bool {
    let added = match (T::EXTENDED_IDENTIFIERS, T::extended_identifier_table()) {
        (None, None) => true,
        (Some(one), Some(other)) => one == other,
        _ => false,
    };
    added && T::IDENTIFIERS == T::identifier_table()
}

/// Each ENUMERATED type has the items that its calls return.
#[test]
fn items_are_what_calls_return(rt: HostRuntime) {
    let items = [
        has_its_items::<ExtEnum>(),
        has_its_items::<NewMode>(),
        has_its_items::<OldMode>(),
        has_its_items::<SimpleEnum>(),
    ];
    for &same in items.iter() {
        assert_true(&rt, same);
    }
}

/// Returns whether a type that is decoded as another one has this rank, and the tags that its calls
/// state.
fn is_ranked<T: AsnType>(rank: u32) -> bool {
    T::RANK == rank && has_its_tags::<T>()
}

/// A type that hands its tree on to another one ranks above it.
#[test]
fn types_that_hand_on_rank_above(rt: HostRuntime) {
    assert_true(&rt, is_ranked::<Wrap1>(1));
    assert_true(&rt, is_ranked::<Wrap2>(2));
}
