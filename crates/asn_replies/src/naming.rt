//! Says that a type isn't found.
ghost use Rattle.asn_replies.specs.Namings.{IsMissingReply};
ghost use Rattle.std.specs.Prelude.{IfOk};

use crate::reply::Reply;
use asn_core::OutOfMemory;
use std::alloc::Global;

/// Returns the refusal of a command whose type isn't found: no type has the name, or more than one.
///
/// # Errors
///
/// `OutOfMemory` alone.
pub fn missing_reply(alloc: Global, name: &str) -> Result<Reply, OutOfMemory>
    ensures { IfOk result (IsMissingReply name.now) }
{
    let line = format!(in alloc; "asn: no type or more than one is named `{name}`\n")?;
    Ok(Reply::refused(line))
}
