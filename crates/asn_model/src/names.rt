//! Tests the names of the parts of shapes. Each test goes over two lists, the names of the root
//! and those of the extension additions, as over one: no list of both is made, and no memory is
//! taken. The time of a test that compares names with one another grows with the square of their
//! number; `distinct` has tests that take memory instead.
ghost use Rattle.avn_grammar.specs.WellFormed.{is_identifier};
ghost use Rattle.asn_model.specs.Readable.{differ_ignoring_case, are_identifiers, are_no_keywords};
ghost use Rattle.asn_model.specs.Readable.{has_identifier};
ghost use Rattle.asn_model.specs.Shape.{are_distinct, is_item};
ghost use Rattle.std.specs.Prelude.{◌≡◌, ◌++◌, ℕ, List, map};

use crate::{AlternativeShape, FieldShape};
use avn_grammar::names::{is_identifier, is_keyword};

/// Is a part of a shape that has a name.
pub trait Named {
    // The bytes of the name.
    ghost name_of: { Self → List ℕ };

    /// Returns the name.
    fn name(&self) -> &str
        ensures { result.now ≡ name_of self.now };
}

/// Is an item of an ENUMERATED type, which is its identifier.
impl Named for String {
    ghost use Rattle.std.specs.Prelude.{string_bytes};

    ghost name_of = { string_bytes };

    fn name(&self) -> &str {
        self.as_str()
    }
}

/// Is a field of a SEQUENCE or SET, by its name.
impl Named for FieldShape {
    ghost use Rattle.std.specs.Prelude.{string_bytes};

    ghost name_of = { λ f. string_bytes f.name };

    fn name(&self) -> &str {
        self.name.as_str()
    }
}

/// Is an alternative of a CHOICE, by its identifier.
impl Named for AlternativeShape {
    ghost use Rattle.std.specs.Prelude.{string_bytes};

    ghost name_of = { λ a. string_bytes a.identifier };

    fn name(&self) -> &str {
        self.identifier.as_str()
    }
}

/// Returns whether the name is one of those of both lists.
pub fn has_name<T: Named>(list: &[T], more: &[T], name: &str) -> bool
    ensures { result ≡ is_item (map T.name_of list.now ++ map T.name_of more.now) name.now }
{
    match list.split_first() {
        Some((first, rest)) => name == first.name() || has_name(rest, more, name),
        // The second list takes the place of the first one, and no list that of the second.
        None => !more.is_empty() && has_name(more, &[], name),
    }
}

/// Returns whether no name stands twice in both lists.
pub fn are_distinct<T: Named>(list: &[T], more: &[T]) -> bool
    ensures { result ≡ are_distinct (map T.name_of list.now ++ map T.name_of more.now) }
{
    match list.split_first() {
        Some((first, rest)) => !has_name(rest, more, first.name()) && are_distinct(rest, more),
        None => more.is_empty() || are_distinct(more, &[]),
    }
}

/// Returns whether the name is one of those of both lists but for the case of ASCII letters.
fn has_identifier<T: Named>(list: &[T], more: &[T], name: &str) -> bool
    ensures { result ≡ has_identifier (map T.name_of list.now ++ map T.name_of more.now) name.now }
{
    match list.split_first() {
        Some((first, rest)) => {
            first.name().eq_ignore_ascii_case(name) || has_identifier(rest, more, name)
        }
        None => !more.is_empty() && has_identifier(more, &[], name),
    }
}

/// Returns whether no two names of both lists are the same but for the case of ASCII letters.
pub fn differ_ignoring_case<T: Named>(list: &[T], more: &[T]) -> bool
    ensures { result ≡ differ_ignoring_case (map T.name_of list.now ++ map T.name_of more.now) }
{
    match list.split_first() {
        Some((first, rest)) => !has_identifier(rest, more, first.name())
            && differ_ignoring_case(rest, more),
        None => more.is_empty() || differ_ignoring_case(more, &[]),
    }
}

/// Returns whether each name of both lists is an identifier of AVN.
pub fn are_identifiers<T: Named>(list: &[T], more: &[T]) -> bool
    ensures { result ≡ are_identifiers (map T.name_of list.now ++ map T.name_of more.now) }
{
    match list.split_first() {
        Some((first, rest)) => is_identifier(first.name()) && are_identifiers(rest, more),
        None => more.is_empty() || are_identifiers(more, &[]),
    }
}

/// Returns whether each name of both lists is an identifier of AVN and none of its keywords, so
/// that a bare word in a text means the item of that name.
pub fn are_no_keywords<T: Named>(list: &[T], more: &[T]) -> bool
    ensures { result ≡ are_no_keywords (map T.name_of list.now ++ map T.name_of more.now) }
{
    match list.split_first() {
        Some((first, rest)) => {
            is_identifier(first.name()) && !is_keyword(first.name()) && are_no_keywords(rest, more)
        }
        None => more.is_empty() || are_no_keywords(more, &[]),
    }
}
