//! Reads modules.
ghost use Rattle.asn_command.specs.Readings.{IsModulesReply, IsReplyTo};
ghost use Rattle.asn_modules.specs.Modules.{modules_view};
ghost use Rattle.asn_modules.specs.Reading.{AreModules};
ghost use Rattle.asn_modules_names.specs.sources.Reading.{named_view};
ghost use Rattle.std.specs.Prelude.{IfErr, IfOk, map};

use asn_core::OutOfMemory;
use asn_modules::{ModuleError, Modules, read_modules};
use asn_replies::Reply;
use std::alloc::Global;

/// Returns the types of the modules of these texts, each after the name of its file.
///
/// # Errors
///
/// The reply that refuses the texts, with the file, the line and the column; `OutOfMemory` in its
/// place where memory runs out.
pub fn types_of(
    alloc: Global,
    texts: &[(&str, &str)],
) -> Result<Modules, Result<Reply, OutOfMemory>>
    ensures ok { IfOk result (λ m. AreModules (map named_view texts.now) (modules_view m)) }
    ensures refused { IfErr result (λ reply.
        IfOk reply (IsModulesReply (map named_view texts.now))) }
{
    match read_modules(alloc, texts) {
        Ok(modules) => Ok(modules),
        Err(error) => Err(modules_reply(alloc, &error)),
    }
}

/// Returns the reply that refuses texts for the error.
///
/// # Errors
///
/// `OutOfMemory` alone, and always where that is the error.
fn modules_reply(alloc: Global, error: &ModuleError) -> Result<Reply, OutOfMemory>
    ensures { IfOk result (IsReplyTo error.now) }
{
    match error {
        ModuleError::OutOfMemory => Err(OutOfMemory),
        error => Ok(Reply::refused(format!(in alloc; "{error}\n")?)),
    }
}
