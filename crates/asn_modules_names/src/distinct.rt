//! Checks that names are distinct.
ghost use Rattle.asn_modules_names.specs.Faults.{Checks};
ghost use Rattle.asn_modules_names.specs.Mentions.{mention_view};
ghost use Rattle.asn_modules_names.specs.Repeats.{repeated};
ghost use Rattle.std.specs.Prelude.{map};

use crate::errors::broken;
use crate::mention::Mention;
use asn_modules_errors::{ModuleError, NameRule, text_of};
use std::alloc::Global;
use std::collections::HashSet;

/// Checks that no name stands twice.
///
/// # Errors
///
/// The first name that is one of those before it, which breaks the rule, and `OutOfMemory`.
pub fn check_distinct(
    alloc: Global,
    rule: NameRule,
    names: &[Mention<'_>],
) -> Result<(), ModuleError>
    ensures { Checks (repeated rule (map mention_view names.now)) result }
{
    let mut seen = HashSet::new(alloc);
    for name in names {
        let is_new = seen.insert(text_of(name.text, name.token))?;
        if !is_new {
            return Err(broken(alloc, rule, *name));
        }
    }
    Ok(())
}
