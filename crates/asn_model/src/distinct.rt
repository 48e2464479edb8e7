//! Tests that the parts of a shape have names or tags of their own. Where a caller gives memory, a
//! set holds those that were seen, so that time grows with the number of parts, and not with its
//! square. Where no memory is given, where it runs out, and where there are few parts, the lists
//! are walked (`names`, `tags`), with the same answer.
ghost use Rattle.asn_model.specs.Readable.{differ_ignoring_case};
ghost use Rattle.asn_model.specs.Shape.{are_distinct, tags_distinct};
ghost use Rattle.std.specs.Char.{to_ascii_lowercase};
ghost use Rattle.std.specs.Prelude.{◌≡◌, ◌++◌, IfOk, IfSome, OnOk, Some, map, string_bytes};

use crate::AlternativeShape;
use crate::names::{Named, are_distinct, differ_ignoring_case};
use crate::tags::{are_tags_distinct, class_number};
use asn_core::Tag;
use std::alloc::{AllocError, Global};
use std::collections::HashSet;

/// Is the greatest length of a list that is walked even where there is memory, which takes less
/// time than a set.
const FEW: usize = 16;

/// Returns whether no name stands twice in both lists.
pub fn have_distinct_names<T: Named>(memory: Option<Global>, list: &[T], more: &[T]) -> bool
    ensures { result ≡ are_distinct (map T.name_of list.now ++ map T.name_of more.now) }
{
    if let Some(alloc) = memory_for_set(memory, list, more) {
        if let Ok(distinct) = are_names_new(alloc, list, more) {
            return distinct;
        }
    }
    are_distinct(list, more)
}

/// Returns whether no two names of both lists are the same but for the case of ASCII letters.
pub fn have_distinct_identifiers<T: Named>(memory: Option<Global>, list: &[T], more: &[T]) -> bool
    ensures { result ≡ differ_ignoring_case (map T.name_of list.now ++ map T.name_of more.now) }
{
    if let Some(alloc) = memory_for_set(memory, list, more) {
        if let Ok(distinct) = are_identifiers_new(alloc, list, more) {
            return distinct;
        }
    }
    differ_ignoring_case(list, more)
}

/// Returns whether no tag stands twice in both lists.
pub fn have_distinct_tags(
    memory: Option<Global>,
    list: &[AlternativeShape],
    more: &[AlternativeShape],
) -> bool
    ensures { result ≡ tags_distinct (map (λ a. a.tag) list.now ++ map (λ a. a.tag) more.now) }
{
    if let Some(alloc) = memory_for_set(memory, list, more) {
        if let Ok(distinct) = are_tags_new(alloc, list, more) {
            return distinct;
        }
    }
    are_tags_distinct(list, more)
}

/// Returns the memory for a set, and none where both lists are short.
fn memory_for_set<T>(memory: Option<Global>, list: &[T], more: &[T]) -> Option<Global>
    ensures { IfSome result (λ alloc. memory ≡ Some alloc) }
{
    if list.len() > FEW || more.len() > FEW {
        memory
    } else {
        None
    }
}

/// Returns whether no name stands twice in both lists, by a set of them.
///
/// # Errors
///
/// Where memory runs out.
fn are_names_new<T: Named>(alloc: Global, list: &[T], more: &[T]) -> Result<bool, AllocError>
    ensures { IfOk result (λ distinct.
        distinct ≡ are_distinct (map T.name_of list.now ++ map T.name_of more.now)) }
{
    let mut names = Vec::new(alloc);
    add_names(&mut names, list)?;
    add_names(&mut names, more)?;
    are_texts_new(alloc, names.as_slice())
}

/// Appends the names of the parts.
///
/// # Errors
///
/// Where memory runs out.
fn add_names<'a, T: Named>(names: &mut Vec<&'a str>, parts: &'a [T]) -> Result<(), AllocError>
    ensures { OnOk result (map (λ n. n.now) names.new.items
        ≡ map (λ n. n.now) names.old.items ++ map T.name_of parts.now) }
{
    for part in parts {
        names.push(part.name())?;
    }
    Ok(())
}

/// Returns whether no text stands twice.
///
/// # Errors
///
/// Where memory runs out.
fn are_texts_new(alloc: Global, texts: &[&str]) -> Result<bool, AllocError>
    ensures { IfOk result (λ distinct. distinct ≡ are_distinct (map (λ t. t.now) texts.now)) }
{
    let mut seen = HashSet::new(alloc);
    for text in texts {
        let is_new = seen.insert(*text)?;
        if !is_new {
            return Ok(false);
        }
    }
    Ok(true)
}

/// Returns whether no two names of both lists are the same but for the case of ASCII letters, by a
/// set of copies in lower case.
///
/// # Errors
///
/// Where memory runs out.
fn are_identifiers_new<T: Named>(alloc: Global, list: &[T], more: &[T]) -> Result<bool, AllocError>
    ensures { IfOk result (λ distinct.
        distinct ≡ differ_ignoring_case (map T.name_of list.now ++ map T.name_of more.now)) }
{
    let mut names = Vec::new(alloc);
    add_lowered(alloc, &mut names, list)?;
    add_lowered(alloc, &mut names, more)?;
    are_names_new(alloc, names.as_slice(), &[])
}

/// Appends the names of the parts in lower case.
///
/// # Errors
///
/// Where memory runs out.
fn add_lowered<T: Named>(
    alloc: Global,
    names: &mut Vec<String>,
    parts: &[T],
) -> Result<(), AllocError>
    ensures { OnOk result (map string_bytes names.new.items ≡ map string_bytes names.old.items
        ++ map (map to_ascii_lowercase) (map T.name_of parts.now)) }
{
    for part in parts {
        names.push(part.name().to_ascii_lowercase(alloc)?)?;
    }
    Ok(())
}

/// Returns whether no tag stands twice in both lists, by a set of them.
///
/// # Errors
///
/// Where memory runs out.
fn are_tags_new(
    alloc: Global,
    list: &[AlternativeShape],
    more: &[AlternativeShape],
) -> Result<bool, AllocError>
    ensures { IfOk result (λ distinct.
        distinct ≡ tags_distinct (map (λ a. a.tag) list.now ++ map (λ a. a.tag) more.now)) }
{
    let mut tags = Vec::new(alloc);
    add_tags(&mut tags, list)?;
    add_tags(&mut tags, more)?;
    are_numbers_new(alloc, tags.as_slice())
}

/// Appends the tags of the alternatives.
///
/// # Errors
///
/// Where memory runs out.
fn add_tags(tags: &mut Vec<Tag>, alternatives: &[AlternativeShape]) -> Result<(), AllocError>
    ensures { OnOk result (tags.new.items
        ≡ tags.old.items ++ map (λ a. a.tag) alternatives.now) }
{
    for alternative in alternatives {
        tags.push(alternative.tag)?;
    }
    Ok(())
}

/// Returns whether no tag stands twice, by a set of the numbers that a tag and its class have.
///
/// # Errors
///
/// Where memory runs out.
fn are_numbers_new(alloc: Global, tags: &[Tag]) -> Result<bool, AllocError>
    ensures { IfOk result (λ distinct. distinct ≡ tags_distinct tags.now) }
{
    let mut seen = HashSet::new(alloc);
    for tag in tags {
        let is_new = seen.insert((class_number(tag.class), tag.value))?;
        if !is_new {
            return Ok(false);
        }
    }
    Ok(true)
}
