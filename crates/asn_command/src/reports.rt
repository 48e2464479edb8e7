//! Checks modules, and lists their types.
ghost use Rattle.asn_command.specs.Listings.{check_text, types_text};
ghost use Rattle.asn_command.specs.Readings.{IsReport};
ghost use Rattle.asn_modules_names.specs.sources.Reading.{named_view};
ghost use Rattle.std.specs.Prelude.{IfOk, map};

use crate::checking::check_text;
use crate::reading::types_of;
use crate::types::types_text;
use asn_core::OutOfMemory;
use asn_replies::Reply;
use std::alloc::Global;

/// Returns how many types the modules of these texts have, each text after the name of its file,
/// which parts of them have no values, and which modules aren't given that they import from; or why
/// the texts are refused.
///
/// # Errors
///
/// `OutOfMemory` alone.
pub fn check_reply(alloc: Global, texts: &[(&str, &str)]) -> Result<Reply, OutOfMemory>
    ensures { IfOk result (IsReport check_text (map named_view texts.now)) }
{
    match types_of(alloc, texts) {
        Ok(modules) => Ok(Reply::Answer(check_text(alloc, &modules)?)),
        Err(refused) => Ok(refused?),
    }
}

/// Returns a line for each type of the modules of these texts, or why the texts are refused.
///
/// # Errors
///
/// `OutOfMemory` alone.
pub fn types_reply(alloc: Global, texts: &[(&str, &str)]) -> Result<Reply, OutOfMemory>
    ensures { IfOk result (IsReport types_text (map named_view texts.now)) }
{
    match types_of(alloc, texts) {
        Ok(modules) => Ok(Reply::Answer(types_text(alloc, &modules)?)),
        Err(refused) => Ok(refused?),
    }
}
