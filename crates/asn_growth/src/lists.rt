//! Compares the names, tags and presences of two lists. No comparison takes memory.
ghost use Rattle.asn_growth.specs.Parts.{field_tags, presences};
ghost use Rattle.asn_growth.specs.Reasons.{alike, begins, same_plain, same_presence};
ghost use Rattle.asn_model.specs.Shape.{field_names, identifiers, tag_eq, tags};
ghost use Rattle.asn_model.specs.ShapeView.{alternative_views, field_views, plain_view};
ghost use Rattle.asn_model.specs.ShapeView.{presence_view};
ghost use Rattle.std.specs.Prelude.{◌≡◌, map, string_bytes};
ghost use Rattle.std.specs.Str.{bytes_eq};

use asn_model::{AlternativeShape, FieldShape, Plain, PresenceShape, same_tag};

/// Returns whether both lists have the same items.
pub fn same_items(old: &[String], new: &[String]) -> bool
    ensures { result ≡ alike bytes_eq (map string_bytes old.now) (map string_bytes new.now) }
{
    old.len() == new.len() && items_begin(old, new)
}

/// Returns whether the items of the second list begin with those of the first.
pub fn items_begin(old: &[String], new: &[String]) -> bool
    ensures { result ≡ begins bytes_eq (map string_bytes old.now) (map string_bytes new.now) }
{
    if old.len() > new.len() {
        return false;
    }
    for (index, older) in old.iter().enumerate() {
        if older.as_str() != new[index].as_str() {
            return false;
        }
    }
    true
}

/// Returns whether both lists have the same names.
pub fn same_field_names(old: &[FieldShape], new: &[FieldShape]) -> bool
    ensures { result ≡ alike bytes_eq (field_names (field_views old.now))
        (field_names (field_views new.now)) }
{
    old.len() == new.len() && field_names_begin(old, new)
}

/// Returns whether the names of the second list begin with those of the first.
pub fn field_names_begin(old: &[FieldShape], new: &[FieldShape]) -> bool
    ensures { result ≡ begins bytes_eq (field_names (field_views old.now))
        (field_names (field_views new.now)) }
{
    if old.len() > new.len() {
        return false;
    }
    for (index, older) in old.iter().enumerate() {
        if older.name.as_str() != new[index].name.as_str() {
            return false;
        }
    }
    true
}

/// Returns whether both lists have the same identifiers.
pub fn same_identifiers(old: &[AlternativeShape], new: &[AlternativeShape]) -> bool
    ensures { result ≡ alike bytes_eq (identifiers (alternative_views old.now))
        (identifiers (alternative_views new.now)) }
{
    old.len() == new.len() && identifiers_begin(old, new)
}

/// Returns whether the identifiers of the second list begin with those of the first.
pub fn identifiers_begin(old: &[AlternativeShape], new: &[AlternativeShape]) -> bool
    ensures { result ≡ begins bytes_eq (identifiers (alternative_views old.now))
        (identifiers (alternative_views new.now)) }
{
    if old.len() > new.len() {
        return false;
    }
    for (index, older) in old.iter().enumerate() {
        if older.identifier.as_str() != new[index].identifier.as_str() {
            return false;
        }
    }
    true
}

/// Returns whether both lists have the same tags.
pub fn same_field_tags(old: &[FieldShape], new: &[FieldShape]) -> bool
    ensures { result ≡ alike tag_eq (field_tags (field_views old.now))
        (field_tags (field_views new.now)) }
{
    old.len() == new.len() && field_tags_begin(old, new)
}

/// Returns whether the tags of the second list begin with those of the first.
pub fn field_tags_begin(old: &[FieldShape], new: &[FieldShape]) -> bool
    ensures { result ≡ begins tag_eq (field_tags (field_views old.now))
        (field_tags (field_views new.now)) }
{
    if old.len() > new.len() {
        return false;
    }
    for (index, older) in old.iter().enumerate() {
        if !same_tag(older.tag, new[index].tag) {
            return false;
        }
    }
    true
}

/// Returns whether both lists have the same tags.
pub fn same_alternative_tags(old: &[AlternativeShape], new: &[AlternativeShape]) -> bool
    ensures { result ≡ alike tag_eq (tags (alternative_views old.now))
        (tags (alternative_views new.now)) }
{
    old.len() == new.len() && alternative_tags_begin(old, new)
}

/// Returns whether the tags of the second list begin with those of the first.
pub fn alternative_tags_begin(old: &[AlternativeShape], new: &[AlternativeShape]) -> bool
    ensures { result ≡ begins tag_eq (tags (alternative_views old.now))
        (tags (alternative_views new.now)) }
{
    if old.len() > new.len() {
        return false;
    }
    for (index, older) in old.iter().enumerate() {
        if !same_tag(older.tag, new[index].tag) {
            return false;
        }
    }
    true
}

/// Returns whether both lists have the same presences.
pub fn same_presences(old: &[FieldShape], new: &[FieldShape]) -> bool
    ensures { result ≡ alike same_presence (presences (field_views old.now))
        (presences (field_views new.now)) }
{
    old.len() == new.len() && presences_begin(old, new)
}

/// Returns whether the presences of the second list begin with those of the first.
pub fn presences_begin(old: &[FieldShape], new: &[FieldShape]) -> bool
    ensures { result ≡ begins same_presence (presences (field_views old.now))
        (presences (field_views new.now)) }
{
    if old.len() > new.len() {
        return false;
    }
    for (index, older) in old.iter().enumerate() {
        if !same_presence(&older.presence, &new[index].presence) {
            return false;
        }
    }
    true
}

/// Returns whether both have to be present, or both may be absent and the same stands for them.
fn same_presence(old: &PresenceShape, new: &PresenceShape) -> bool
    ensures { result ≡ same_presence (presence_view old.now) (presence_view new.now) }
{
    match (old, new) {
        (PresenceShape::Required, PresenceShape::Required) => true,
        (PresenceShape::Optional, PresenceShape::Optional) => true,
        (PresenceShape::Default(older), PresenceShape::Default(newer)) => same_plain(older, newer),
        _ => false,
    }
}

/// Returns whether the values of two DEFAULTs are the same.
fn same_plain(old: &Plain, new: &Plain) -> bool
    ensures { result ≡ same_plain (plain_view old.now) (plain_view new.now) }
{
    match (old, new) {
        (Plain::Bool(older), Plain::Bool(newer)) => *older == *newer,
        (Plain::Int(older), Plain::Int(newer)) => *older == *newer,
        (Plain::Text(older), Plain::Text(newer)) => older.as_str() == newer.as_str(),
        (Plain::Item(older), Plain::Item(newer)) => older.as_str() == newer.as_str(),
        _ => false,
    }
}
