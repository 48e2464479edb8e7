//! Looks things up in tables of constants, by which fields and alternatives are found by their
//! tags. A table has a part for the root and one for the extension additions, which are looked
//! through as one list, in order; the cost of a look-up is the length of that list.
ghost use Rattle.asn_core.specs.Tags.{smallest};
ghost use Rattle.asn_model.specs.Shape.{tag_eq, is_tag, name_tagged, class_number};
ghost use Rattle.asn_model.specs.Shape.{end_tag};
ghost use Rattle.asn_model.specs.Components.{tag_cmp};
ghost use Rattle.asn_model.specs.Sorting.{insert_in_order, sort};
ghost use Rattle.asn_coding.specs.Tables.{field_tag, smallest_tags, or_end, place_tagged};
ghost use Rattle.std.specs.Prelude.{◌≡◌, ◌+◌, ◌++◌, [], map, length, option_map, get_or};
ghost use Rattle.std.specs.List.{insert};
ghost use Rattle.std.specs.Ordering.{is_gt, on};
ghost use Rattle.std.specs.Prelude.{◌≤◌, IfOk, Option, Some, None, unwrap_or};

use crate::field::{Field, Fields};
use asn_core::{OutOfMemory, Tag, TagTree};
use asn_model::same_tag;
use std::alloc::Global;

/// Returns the items of a table, and none where there is no table.
pub fn listed<T: Copy>(table: Option<&'static [T]>) -> &'static [T]
    ensures { result.now ≡ unwrap_or (option_map (λ t. t.now) table.entry) [] }
{
    match table {
        Some(items) => items,
        None => &[],
    }
}

/// Returns the fields of a table, and none where there is no table.
pub fn listed_fields(table: Option<Fields>) -> &'static [Field]
    ensures { result.now ≡ unwrap_or (option_map (λ t. t.items.now) table) [] }
{
    listed(table.map(|fields| fields.items))
}

/// Returns the fields in the order of their smallest tags (X.680, section 8.6). Those of equal tags
/// stay in order.
///
/// # Errors
///
/// `OutOfMemory` alone.
pub fn fields_by_tag(alloc: Global, fields: &[Field]) -> Result<Vec<Field>, OutOfMemory>
    ensures { IfOk result (λ v. v.items ≡ sort (on field_tag tag_cmp) fields.now) }
{
    let Some((first, others)) = fields.split_first() else {
        return Ok(Vec::new(alloc));
    };
    let mut sorted = fields_by_tag(alloc, others)?;
    let place = place_by_tag(sorted.as_slice(), first);
    match sorted.insert(place, *first) {
        Ok(()) => Ok(sorted),
        Err(_) => Err(OutOfMemory),
    }
}

/// Returns the fields of a SET in the order in which they are read: those of the root by their
/// tags, and then the extension additions.
///
/// # Errors
///
/// `OutOfMemory` alone.
pub fn fields_as_read(
    alloc: Global,
    root: &[Field],
    additions: &[Field],
) -> Result<Vec<Field>, OutOfMemory>
    ensures { IfOk result (λ v. v.items
        ≡ sort (on field_tag tag_cmp) root.now ++ additions.now) }
{
    let mut fields = fields_by_tag(alloc, root)?;
    fields.extend_from_slice(additions)?;
    Ok(fields)
}

/// Returns the place of a field among all fields, and its smallest tag, by which a SET is ordered.
pub fn place_and_tag(field: &Field) -> (usize, Tag)
    ensures { result ≡ (field.now.index, field_tag field.now) }
{
    (field.index, or_end(field.tag_tree.least_leaf()))
}

/// Returns the place of the first field whose tag is not below that of this one.
fn place_by_tag(fields: &[Field], field: &Field) -> usize
    ensures below { result ≤ length fields.now }
    ensures is { insert_in_order (on field_tag tag_cmp) field.now fields.now
        ≡ insert fields.now result field.now }
{
    let Some((first, others)) = fields.split_first() else {
        return 0;
    };
    if is_above(field, first) {
        // No overflow: a place is below the number of rows.
        place_by_tag(others, field) + 1
    } else {
        0
    }
}

/// Returns whether the tag of the first field is above that of the second.
fn is_above(first: &Field, second: &Field) -> bool
    ensures { result ≡ is_gt (tag_cmp (field_tag first.now) (field_tag second.now)) }
{
    or_end(first.tag_tree.least_leaf()) > or_end(second.tag_tree.least_leaf())
}

/// Returns the tag, or `EOC` where there is none.
fn or_end(tag: Option<Tag>) -> Tag
    ensures { result ≡ or_end tag }
{
    match tag {
        Some(tag) => tag,
        None => Tag::EOC,
    }
}

/// Returns the identifier beside the alternative of this smallest tag, where extension additions
/// come last, or `None` where no alternative has the tag.
pub fn identifier_of(
    variants: &[TagTree],
    added: &[TagTree],
    identifiers: &[&'static str],
    tag: Tag,
) -> Option<&'static str>
    ensures { option_map (λ s. s.now) result
        ≡ name_tagged (smallest_tags variants.now ++ smallest_tags added.now)
        (map (λ s. s.now) identifiers.now) tag }
{
    let Some((first, other_variants)) = variants.split_first() else {
        return if added.is_empty() {
            None
        } else {
            identifier_of(added, &[], identifiers, tag)
        };
    };
    // Tags and identifiers go along together: each tree of tags takes one identifier.
    let Some((name, other_names)) = identifiers.split_first() else {
        return None;
    };
    if has_tag(first, tag) {
        Some(*name)
    } else {
        identifier_of(other_variants, added, other_names, tag)
    }
}

/// Returns the place of the first alternative of this smallest tag, where extension additions come
/// last, or how many there are where no alternative has the tag.
pub fn place_of_tag(variants: &[TagTree], added: &[TagTree], tag: Tag) -> usize
    ensures below { result ≤ length variants.now + length added.now }
    ensures is { result ≡ place_tagged
        (smallest_tags variants.now ++ smallest_tags added.now) tag }
{
    let Some((first, others)) = variants.split_first() else {
        return if added.is_empty() {
            0
        } else {
            place_of_tag(added, &[], tag)
        };
    };
    if has_tag(first, tag) {
        0
    } else {
        // No overflow: both tables are in memory.
        place_of_tag(others, added, tag) + 1
    }
}

/// Returns the smallest tag of the alternative at the place, where extension additions come last,
/// or `EOC` where there is none.
pub fn tag_at(variants: &[TagTree], added: &[TagTree], place: usize) -> Tag
    ensures { result ≡ get_or (map or_end (smallest_tags variants.now ++ smallest_tags added.now))
        place end_tag }
{
    if place < variants.len() {
        least_at(variants, place)
    } else {
        least_at(added, place - variants.len())
    }
}

/// Returns the smallest tag of the alternative at the place, or `EOC` where there is none.
fn least_at(variants: &[TagTree], place: usize) -> Tag
    ensures { result ≡ get_or (map or_end (smallest_tags variants.now)) place end_tag }
{
    match variants.get(place) {
        Some(tree) => or_end(tree.least_leaf()),
        None => Tag::EOC,
    }
}

/// Returns whether the smallest tag of an alternative is this one.
fn has_tag(tree: &TagTree, tag: Tag) -> bool
    ensures { result ≡ is_tag (smallest tree.now) tag }
{
    match tree.least_leaf() {
        Some(least) => same_tag(tag, least),
        None => false,
    }
}
