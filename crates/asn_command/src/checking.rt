//! Says what was read of modules.
ghost use Rattle.asn_command.specs.Listings.{check_text, count_line, missing_line};
ghost use Rattle.asn_command.specs.Listings.{valueless_line, valueless_lines};
ghost use Rattle.asn_modules.specs.Missing.{missing_view};
ghost use Rattle.asn_modules.specs.Modules.{modules_view};
ghost use Rattle.std.specs.List.{flat_map};
ghost use Rattle.std.specs.Prelude.{◌≡◌, IfOk, map, string_bytes};

use crate::listing::{TypeText, texts_on};
use crate::types::full_name;
use asn_core::OutOfMemory;
use asn_model::Shape;
use asn_modules::{MissingModule, Modules, TypeName};
use asn_version_reports::parts_without_values;
use std::alloc::Global;

/// Returns the line on how many types there are.
///
/// # Errors
///
/// `OutOfMemory` alone.
fn count_line(alloc: Global, count: usize) -> Result<String, OutOfMemory>
    ensures { IfOk result (λ s. string_bytes s ≡ count_line count) }
{
    if count == 1 {
        return Ok(String::from_str(alloc, "1 type\n")?);
    }
    Ok(format!(in alloc; "{count} types\n")?)
}

/// Returns a line for each of these parts of the type of the name.
///
/// # Errors
///
/// `OutOfMemory` alone.
fn lines_on_parts(alloc: Global, name: &str, parts: &[String]) -> Result<String, OutOfMemory>
    ensures { IfOk result (λ s. string_bytes s
        ≡ flat_map (valueless_line name.now) (map string_bytes parts.now)) }
{
    let mut lines = String::new(alloc);
    for part in parts {
        let line = format!(in alloc; "{name}: {part}: no value of it is read\n")?;
        lines.push_str(line.as_str())?;
    }
    Ok(lines)
}

/// Returns the line on a module that isn't given.
///
/// # Errors
///
/// `OutOfMemory` alone.
fn missing_line(alloc: Global, missing: &MissingModule) -> Result<String, OutOfMemory>
    ensures { IfOk result (λ s. string_bytes s ≡ missing_line (missing_view missing.now)) }
{
    let file = missing.file.as_str();
    let line = missing.place.line;
    let column = missing.place.column;
    let name = missing.name.as_str();
    Ok(format!(in alloc; "{file}:{line}:{column}: module {name} isn't given\n")?)
}

/// Returns a line for each of these modules that aren't given.
///
/// # Errors
///
/// `OutOfMemory` alone.
fn lines_on_missing(alloc: Global, modules: &[MissingModule]) -> Result<String, OutOfMemory>
    ensures { IfOk result (λ s. string_bytes s
        ≡ flat_map missing_line (map missing_view modules.now)) }
{
    let mut lines = String::new(alloc);
    for missing in modules {
        let line = missing_line(alloc, missing)?;
        lines.push_str(line.as_str())?;
    }
    Ok(lines)
}

/// Makes a line for each part of a type of which no value is read.
struct Valueless;

impl TypeText for Valueless {
    ghost text = { valueless_lines };

    fn text_on(alloc: Global, name: &TypeName, shape: &Shape) -> Result<String, OutOfMemory> {
        let name = full_name(alloc, name)?;
        let parts = parts_without_values(alloc, shape)?;
        lines_on_parts(alloc, &name, &parts)
    }
}

/// Returns a line on how many types the modules have, then one for each part of them of which no
/// value is read, in the order of the types, and then one for each module that they import from and
/// that isn't given.
///
/// # Errors
///
/// `OutOfMemory` alone.
pub fn check_text(alloc: Global, modules: &Modules) -> Result<String, OutOfMemory>
    ensures { IfOk result (λ s. string_bytes s ≡ check_text (modules_view modules.now)) }
{
    let mut lines = count_line(alloc, modules.names().len())?;
    let parts = texts_on::<Valueless>(alloc, modules)?;
    lines.push_str(parts.as_str())?;
    let missing = lines_on_missing(alloc, modules.missing())?;
    lines.push_str(missing.as_str())?;
    Ok(lines)
}
