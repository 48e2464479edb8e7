//! Checks imports.
ghost use Rattle.asn_modules_grammar.specs.headers.Views as headers;
ghost use Rattle.asn_modules_names.specs.imports.Imported.{first_import_fault, import_fault};
ghost use Rattle.asn_modules_names.specs.imports.Imported.{imports_fault, names_fault};
ghost use Rattle.asn_modules_names.specs.imports.Tables.{IsExportIndex, module_at, modules_of};
ghost use Rattle.asn_modules_names.specs.lookup.Homes.{home_view};
ghost use Rattle.asn_modules_names.specs.Assigned.{first_found};
ghost use Rattle.asn_modules_names.specs.Faults.{Checks};
ghost use Rattle.std.specs.Prelude.{map};

use crate::imports::index::{ExportIndex, export_index_of};
use crate::imports::rule::{import_rule, is_named};
use crate::lookup::{Home, imports_of};
use crate::{broken, mention_of};
use asn_lexer::Token;
use asn_modules_errors::{ModuleError, text_of};
use asn_modules_grammar::headers::Import;
use std::alloc::Global;

/// Checks that the module may import these names, from itself or from another one, where `named` is
/// the number of the module of the name that it states, if there is one.
///
/// # Errors
///
/// The first name that it may not import, and `OutOfMemory`.
fn check_names<'t>(
    alloc: Global,
    index: &ExportIndex<'_, '_, 't>,
    home: Home<'_, 't>,
    is_own: bool,
    named: Option<usize>,
    names: &[Token],
) -> Result<(), ModuleError>
    requires { IsExportIndex index.now }
    ensures { Checks (first_found (import_fault (modules_of index.now) (home_view home.entry) is_own
        (module_at index.now named)) names.now) result }
{
    for name in names {
        if let Some(rule) = import_rule(index, is_own, named, text_of(home.source.text, *name)) {
            return Err(broken(alloc, rule, mention_of(home.source, *name)));
        }
    }
    Ok(())
}

/// Checks that the module may import the names that it imports from one module.
///
/// # Errors
///
/// The first name that it may not import, and `OutOfMemory`.
fn check_import<'t>(
    alloc: Global,
    index: &ExportIndex<'_, '_, 't>,
    home: Home<'_, 't>,
    import: &Import,
) -> Result<(), ModuleError>
    requires { IsExportIndex index.now }
    ensures { Checks (names_fault (modules_of index.now) (home_view home.entry)
        (headers.import_view import.now)) result }
{
    let from = text_of(home.source.text, import.module);
    let is_own = is_named(home, from);
    let named = index.module_named(from);
    check_names(alloc, index, home, is_own, named, import.names.as_slice())
}

/// Checks that the module may import what these imports name.
///
/// # Errors
///
/// The first name that it may not import, and `OutOfMemory`.
fn check_module<'t>(
    alloc: Global,
    index: &ExportIndex<'_, '_, 't>,
    home: Home<'_, 't>,
    imports: &[Import],
) -> Result<(), ModuleError>
    requires { IsExportIndex index.now }
    ensures { Checks (first_found (names_fault (modules_of index.now) (home_view home.entry))
        (map headers.import_view imports.now)) result }
{
    for import in imports {
        check_import(alloc, index, home, import)?;
    }
    Ok(())
}

/// Checks that no module imports from itself, and that a name that is imported is exported by the
/// module that it is imported from, if that is one of these, and by the only one of these that
/// assigns it, if one alone does. What none of them assigns may be imported from any other module.
///
/// # Errors
///
/// The first name that is imported against this, and `OutOfMemory`.
pub fn check_imports(alloc: Global, homes: &[Home<'_, '_>]) -> Result<(), ModuleError>
    ensures { Checks (first_import_fault (map home_view homes.now)) result }
{
    let index = export_index_of(alloc, homes)?;
    for home in homes {
        check_module(alloc, &index, *home, imports_of(&home.parsed.header))?;
    }
    Ok(())
}
