//! Finds an older and a newer version of a type.
ghost use Rattle.asn_command.specs.versions.Versions.{AreVersions, IsWhole, large_line};
ghost use Rattle.asn_modules.specs.Modules.{modules_view};
ghost use Rattle.asn_replies.specs.Reading.{IsRefusal};
ghost use Rattle.asn_replies.specs.declared.status.Status.TheVariants as status;
ghost use Rattle.std.specs.Prelude.{IfOk};

use crate::versions::pair::Versions;
use asn_core::OutOfMemory;
use asn_growth::{Growth, grows_check};
use asn_linked_types::expander::{ExpansionFault, expand};
use asn_model::Shape;
use asn_modules::Modules;
use asn_replies::{Reply, Status, missing_reply};
use asn_version_reports::{differences_report, uncompared_report};
use std::alloc::Global;

/// Returns the refusal of a command whose type is too large to be compared.
///
/// # Errors
///
/// `OutOfMemory` alone.
fn large_reply(alloc: Global, name: &str) -> Result<Reply, OutOfMemory>
    ensures { IfOk result (IsRefusal status.Refused (large_line name.now)) }
{
    Ok(Reply::Refusal {
        status: Status::Refused,
        line: format!(in alloc; "asn: the type `{name}` is too large to be compared\n")?,
    })
}

/// Returns the shape of the type that the text names, in which each type stands in the place of its
/// name, or the refusal: no type or more than one is named so, or the shape is too large.
///
/// # Errors
///
/// `OutOfMemory` alone.
fn whole_type(
    alloc: Global,
    modules: &Modules,
    name: &str,
) -> Result<Result<Shape, Reply>, OutOfMemory>
    ensures { IfOk result (IsWhole (modules_view modules.now) name.now) }
{
    let Some(number) = modules.number(name) else {
        return Ok(Err(missing_reply(alloc, name)?));
    };
    match expand(alloc, modules.types(), number as u32) {
        Ok(shape) => Ok(Ok(shape)),
        Err(ExpansionFault::TooLarge) => Ok(Err(large_reply(alloc, name)?)),
        Err(ExpansionFault::OutOfMemory) => Err(OutOfMemory),
    }
}

/// Returns the types of the name in the older and in the newer modules, where the newer one is a
/// later version and each part of the older one has values. Else it returns the refusal: one of the
/// two has no such type, or one that is too large; or a line for each place of the older type that
/// differs, and one for each part of it that has no values, so that nothing is known of it.
///
/// # Errors
///
/// `OutOfMemory` alone.
pub fn versions_of(
    alloc: Global,
    old: &Modules,
    new: &Modules,
    name: &str,
) -> Result<Result<Versions, Reply>, OutOfMemory>
    ensures { IfOk result (AreVersions (modules_view old.now) (modules_view new.now) name.now) }
{
    let older = match whole_type(alloc, old, name)? {
        Ok(shape) => shape,
        Err(reply) => return Ok(Err(reply)),
    };
    let newer = match whole_type(alloc, new, name)? {
        Ok(shape) => shape,
        Err(reply) => return Ok(Err(reply)),
    };
    let uncompared = uncompared_report(alloc, &older)?;
    match grows_check(&older, &newer) {
        Growth::Grows => {
            if uncompared.is_empty() {
                Ok(Ok(Versions::new(older, newer)))
            } else {
                Ok(Err(Reply::refused(uncompared)))
            }
        }
        Growth::Differs { .. } => {
            let mut report = differences_report(alloc, &older, &newer)?;
            report.push_str(&uncompared)?;
            Ok(Err(Reply::refused(report)))
        }
    }
}
