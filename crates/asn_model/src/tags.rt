//! Compares tags. Contracts see a class as its place among the classes, so that two tags are
//! compared as numbers. The tests of the tags of a CHOICE go over its two lists of alternatives
//! as those of `names` do.
ghost use Rattle.asn_model.specs.Shape.{class_number, has_tag, tag_eq, tags_distinct};
ghost use Rattle.std.specs.Prelude.{◌≡◌, ◌++◌, map};

use crate::AlternativeShape;
use asn_core::{Class, Tag};

/// Returns whether the tags are equal in class and value.
pub fn same_tag(a: Tag, b: Tag) -> bool
    ensures { result ≡ tag_eq a b }
{
    class_number(a.class) == class_number(b.class) && a.value == b.value
}

/// Returns the place of the class in the order of classes (X.680, section 8.6).
pub fn class_number(class: Class) -> u8
    ensures { result ≡ class_number class }
{
    match class {
        Class::Universal => 0,
        Class::Application => 1,
        Class::Context => 2,
        Class::Private => 3,
    }
}

/// Returns whether the tag is one of those of both lists.
pub fn has_tag(list: &[AlternativeShape], more: &[AlternativeShape], tag: Tag) -> bool
    ensures { result ≡ has_tag (map (λ a. a.tag) list.now ++ map (λ a. a.tag) more.now) tag }
{
    match list.split_first() {
        Some((first, rest)) => same_tag(first.tag, tag) || has_tag(rest, more, tag),
        None => !more.is_empty() && has_tag(more, &[], tag),
    }
}

/// Returns whether no tag stands twice in both lists.
pub fn are_tags_distinct(list: &[AlternativeShape], more: &[AlternativeShape]) -> bool
    ensures { result ≡ tags_distinct (map (λ a. a.tag) list.now ++ map (λ a. a.tag) more.now) }
{
    match list.split_first() {
        Some((first, rest)) => !has_tag(rest, more, first.tag) && are_tags_distinct(rest, more),
        None => more.is_empty() || are_tags_distinct(more, &[]),
    }
}
