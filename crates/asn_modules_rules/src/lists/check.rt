//! Checks the lists of all texts.
ghost use Rattle.asn_modules_rules.specs.lists.Listed.{first_listed_twice, listed_twice};
ghost use Rattle.asn_modules_rules.specs.lists.Written.{written_view};
ghost use Rattle.asn_modules_names.specs.Assigned.{first_found};
ghost use Rattle.asn_modules_names.specs.Faults.{Checks};
ghost use Rattle.asn_modules_names.specs.Mentions.{source_view};
ghost use Rattle.std.specs.Prelude.{map};

use crate::lists::listed::{listed_names, mentions_of};
use crate::lists::written::{WrittenType, written_types};
use asn_modules_errors::{ModuleError, NameRule};
use asn_modules_names::check_distinct;
use asn_modules_reader::text::Source;
use std::alloc::Global;

/// Checks that no name stands twice in the list of the type.
///
/// # Errors
///
/// The first name that stands there a second time, and `OutOfMemory`.
fn check_type(alloc: Global, written: WrittenType<'_, '_>) -> Result<(), ModuleError>
    ensures { Checks (listed_twice (written_view written.entry)) result }
{
    let names = listed_names(alloc, written.base)?;
    let mentions = mentions_of(alloc, written.source, names.as_slice())?;
    check_distinct(alloc, NameRule::ListedTwice, mentions.as_slice())
}

/// Checks that no name stands twice in the list of one of the types.
///
/// # Errors
///
/// The first name that stands twice in its list, and `OutOfMemory`.
fn check_types(alloc: Global, types: &[WrittenType<'_, '_>]) -> Result<(), ModuleError>
    ensures { Checks (first_found listed_twice (map written_view types.now)) result }
{
    for written in types {
        check_type(alloc, *written)?;
    }
    Ok(())
}

/// Checks that no name stands twice in a list: of components or alternatives, those between version
/// brackets among them, of items, of named numbers, or of bits.
///
/// # Errors
///
/// The first name that stands twice in its list, where lists are in the order in which their types
/// begin, and `OutOfMemory`.
pub fn check_lists(alloc: Global, sources: &[Source<'_>]) -> Result<(), ModuleError>
    ensures { Checks (first_listed_twice (map source_view sources.now)) result }
{
    let types = written_types(alloc, sources)?;
    check_types(alloc, types.as_slice())
}
