//! Shows a value of a type.
ghost use Rattle.asn_command.specs.show.Example.{IsExample, IsExampleOf, IsExampleText};
ghost use Rattle.asn_command.specs.show.Example.{large_line, valueless_line};
ghost use Rattle.asn_dynamic_values.specs.DynView.{dyn_value};
ghost use Rattle.asn_example_values.specs.Made.{is_full};
ghost use Rattle.asn_model.specs.Readable.{is_readable};
ghost use Rattle.asn_model.specs.ShapeView.{shape_view};
ghost use Rattle.asn_model.specs.Value.{Fits};
ghost use Rattle.asn_modules.specs.Modules.{modules_view};
ghost use Rattle.asn_replies.specs.Reading.{IsRefusal};
ghost use Rattle.asn_replies.specs.declared.status.Status.TheVariants as status;
ghost use Rattle.std.specs.Prelude.{◌≡◌, IfOk, true};

use asn_core::{Codec, OutOfMemory};
use asn_dynamic::{DynValue, write};
use asn_example_values::{Extent, example};
use asn_linked_types::expander::{ExpansionFault, expand};
use asn_model::Shape;
use asn_modules::Modules;
use asn_replies::{Reply, with_feed};
use std::alloc::Global;

/// Returns the refusal of a command whose type is too large for an example.
///
/// # Errors
///
/// `OutOfMemory` alone.
fn large_reply(alloc: Global, name: &str) -> Result<Reply, OutOfMemory>
    ensures { IfOk result (IsRefusal status.Refused (large_line name.now)) }
{
    let line = format!(in alloc; "asn: the type `{name}` is too large for an example\n")?;
    Ok(Reply::refused(line))
}

/// Returns the refusal of a command whose type has no value that is read.
///
/// # Errors
///
/// `OutOfMemory` alone.
fn valueless_reply(alloc: Global, name: &str) -> Result<Reply, OutOfMemory>
    ensures { IfOk result (IsRefusal status.Refused (valueless_line name.now)) }
{
    let line = format!(in alloc; "asn: no value of the type `{name}` is read\n")?;
    Ok(Reply::refused(line))
}

/// Returns the canonical text of the value and a line feed, or the refusal of one that the notation
/// can't write.
///
/// # Errors
///
/// `OutOfMemory` alone.
fn text_reply(
    alloc: Global,
    notation: Codec,
    shape: &Shape,
    value: &DynValue,
) -> Result<Reply, OutOfMemory>
    requires readable { is_readable (shape_view shape.now) ≡ true }
    requires fits { Fits (shape_view shape.now) (dyn_value value.now) }
    ensures { IfOk result (IsExampleText notation (dyn_value value.now)) }
{
    match write(alloc, notation, shape, value) {
        Ok(text) => Ok(Reply::Answer(with_feed(text)?)),
        Err(error) => {
            if error.is_out_of_memory() {
                return Err(OutOfMemory);
            }
            Ok(Reply::refused(format!(in alloc; "asn: {error}\n")?))
        }
    }
}

/// Returns what showing an example of the type of this name and shape comes to.
///
/// # Errors
///
/// `OutOfMemory` alone.
fn reply_on(
    alloc: Global,
    extent: Extent,
    notation: Codec,
    name: &str,
    shape: &Shape,
) -> Result<Reply, OutOfMemory>
    requires { is_readable (shape_view shape.now) ≡ true }
    ensures { IfOk result
        (IsExample (shape_view shape.now) (is_full extent) notation name.now) }
{
    match example(alloc, extent, shape)? {
        Some(value) => text_reply(alloc, notation, shape, &value),
        None => valueless_reply(alloc, name),
    }
}

/// Returns the canonical text of an example of the type that the text names, in this notation, or
/// `None` where no type or more than one is named so. Refused is a type of which no value is read,
/// and one that is too large: in which each type that it names stands in the place of its name, as
/// `asn_linked_types::expander` limits it.
///
/// # Errors
///
/// `OutOfMemory` alone.
pub fn example_reply(
    alloc: Global,
    modules: &Modules,
    name: &str,
    extent: Extent,
    notation: Codec,
) -> Result<Option<Reply>, OutOfMemory>
    ensures { IfOk result
        (IsExampleOf (modules_view modules.now) name.now (is_full extent) notation) }
{
    let Some(number) = modules.number(name) else {
        return Ok(None);
    };
    match expand(alloc, modules.types(), number as u32) {
        Ok(shape) => Ok(Some(reply_on(alloc, extent, notation, name, &shape)?)),
        Err(ExpansionFault::TooLarge) => Ok(Some(large_reply(alloc, name)?)),
        Err(ExpansionFault::OutOfMemory) => Err(OutOfMemory),
    }
}
