//! Says whether a type is a later version of an older one.
ghost use Rattle.asn_command.specs.versions.Versions.{IsGrowthReply};
ghost use Rattle.asn_modules.specs.Modules.{modules_view};
ghost use Rattle.std.specs.Prelude.{IfOk};

use crate::versions::versions::versions_of;
use asn_core::OutOfMemory;
use asn_modules::Modules;
use asn_replies::Reply;
use std::alloc::Global;

/// Returns the line `grows` where the type of the name in the newer modules is a later version of
/// that in the older ones, and else the refusal that `versions_of` returns.
///
/// # Errors
///
/// `OutOfMemory` alone.
pub fn growth_reply(
    alloc: Global,
    old: &Modules,
    new: &Modules,
    name: &str,
) -> Result<Reply, OutOfMemory>
    ensures { IfOk result (IsGrowthReply (modules_view old.now) (modules_view new.now) name.now) }
{
    match versions_of(alloc, old, new, name)? {
        Ok(_versions) => Ok(Reply::Answer(String::from_str(alloc, "grows\n")?)),
        Err(reply) => Ok(reply),
    }
}
