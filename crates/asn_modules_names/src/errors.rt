//! Makes errors of names.
ghost use Rattle.asn_modules_names.specs.Faults.{Tells, fault_of};
ghost use Rattle.asn_modules_names.specs.Mentions.{mention_view};
ghost use Rattle.std.specs.Prelude.{Some};

use crate::mention::Mention;
use asn_modules_errors::{Cause, ModuleError, NameRule, place_at, refused, shown};
use std::alloc::Global;

/// Returns the error that the name breaks the rule.
pub fn broken(alloc: Global, rule: NameRule, name: Mention<'_>) -> ModuleError
    ensures { Tells (Some (fault_of rule (mention_view name.entry))) result }
{
    let place = place_at(name.text, name.token.start);
    match shown(alloc, name.text, name.token) {
        Ok(shown) => {
            let cause = Cause::Name { rule, name: shown };
            refused(alloc, name.file, place, cause)
        }
        Err(_refused) => ModuleError::OutOfMemory,
    }
}
