//! Checks names.
ghost use Rattle.asn_modules_names.specs.Faults.{Checks};
ghost use Rattle.asn_modules_names.specs.Mentions.{source_view};
ghost use Rattle.asn_modules_names.specs.Names.{first_fault};
ghost use Rattle.std.specs.Prelude.{map};

use crate::assigned::check_assigned;
use crate::headed::check_modules;
use asn_modules_errors::ModuleError;
use asn_modules_reader::text::Source;
use std::alloc::Global;

/// Checks the names of modules, and those that they assign, over all texts.
///
/// # Errors
///
/// The first module whose name one before it has, else the first name that a module assigns a
/// second time, as a type or a value, and `OutOfMemory`.
pub fn check_names(alloc: Global, sources: &[Source<'_>]) -> Result<(), ModuleError>
    ensures { Checks (first_fault (map source_view sources.now)) result }
{
    check_modules(alloc, sources)?;
    check_assigned(alloc, sources)
}
