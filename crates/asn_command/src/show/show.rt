//! Shows a type.
ghost use Rattle.asn_command.specs.show.Shown.{IsShown};
ghost use Rattle.asn_modules.specs.Modules.{modules_view};
ghost use Rattle.std.specs.Prelude.{IfOk};

use crate::show::names::shown_names;
use asn_core::OutOfMemory;
use asn_modules::Modules;
use asn_replies::Reply;
use asn_type_printing::printed_types;
use std::alloc::Global;

/// Returns the assignment of the type that the text names and those of all types that it reaches,
/// as `asn_type_printing` prints them, or `None` where no type or more than one is named so. A type
/// is named as the command line names it: by its own name, or where another type has it too by that
/// of its module, a point and its own.
///
/// # Errors
///
/// `OutOfMemory` alone.
pub fn show_reply(
    alloc: Global,
    modules: &Modules,
    name: &str,
) -> Result<Option<Reply>, OutOfMemory>
    ensures { IfOk result (IsShown (modules_view modules.now) name.now) }
{
    let Some(number) = modules.number(name) else {
        return Ok(None);
    };
    let names = shown_names(alloc, modules)?;
    let text = printed_types(alloc, names.as_slice(), modules.types(), number)?;
    Ok(Some(Reply::Answer(text)))
}
