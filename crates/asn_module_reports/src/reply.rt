//! Makes what a program writes of a module: a report, or the line of a refusal.
ghost use Rattle.asn_module_reports.specs.Replies.{IsAnswered, IsReply, IsReplyWith};
ghost use Rattle.asn_module_reports.specs.Reports.{AreTypesOf, IsGrowthRefusal, IsGrowthReport};
ghost use Rattle.asn_module_reports.specs.Reports.{IsModuleText, IsPrinting, IsPrintingRefusal};
ghost use Rattle.std.specs.Prelude.{IfOk};

use crate::report::{growth_report, printed_module};
use asn_core::OutOfMemory;
use asn_module::ModuleFault;
use std::alloc::Global;

/// Holds what is written of a module.
#[derive(Debug, Drop)]
pub enum Reply {
    /// Holds a report whole.
    Answer(String),
    /// Holds the line that states why there is no report, with a line feed.
    Refusal(String),
}

/// Returns the report, or `refused: `, the text of the fault that comes in its place, and a line
/// feed.
///
/// # Errors
///
/// `OutOfMemory` alone, also where that is the fault.
fn reply_with(alloc: Global, report: Result<String, ModuleFault>) -> Result<Reply, OutOfMemory>
    ensures { IfOk result (IsReplyWith report) }
{
    match report {
        Ok(text) => Ok(Reply::Answer(text)),
        Err(ModuleFault::OutOfMemory) => Err(OutOfMemory),
        Err(fault) => Ok(Reply::Refusal(format!(in alloc; "refused: {fault}\n")?)),
    }
}

/// Returns the printed text of the module that the text stands for, or the line that states why it
/// stands for none.
///
/// # Errors
///
/// `OutOfMemory` alone.
pub fn printing_reply(alloc: Global, text: &str) -> Result<Reply, OutOfMemory>
    ensures reply { IfOk result (IsReply (IsPrinting text.now) (IsPrintingRefusal text.now)) }
    // A text that stands for a module is not refused.
    ensures complete { IsModuleText text.now → IfOk result IsAnswered }
{
    reply_with(alloc, printed_module(alloc, text))
}

/// Returns the line that says whether the newer type of the module that the text stands for is a
/// later version of the older one, as `growth_report` has it, or the line that states why the text
/// stands for no module, else why the older type has no shape, else why the newer one has none.
///
/// # Errors
///
/// `OutOfMemory` alone.
pub fn growth_reply(alloc: Global, old: &str, new: &str, text: &str) -> Result<Reply, OutOfMemory>
    ensures reply { IfOk result (IsReply (IsGrowthReport old.now new.now text.now)
        (IsGrowthRefusal old.now new.now text.now)) }
    // Where both types have shapes, nothing is refused.
    ensures complete { AreTypesOf old.now new.now text.now → IfOk result IsAnswered }
{
    reply_with(alloc, growth_report(alloc, old, new, text))
}
