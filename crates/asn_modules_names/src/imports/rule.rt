//! Tells which rule an import breaks.
ghost use Rattle.asn_modules_names.specs.imports.Imported.{held_rule, import_rule, is_named};
ghost use Rattle.asn_modules_names.specs.imports.Tables.{IsExportIndex, module_at, modules_of};
ghost use Rattle.asn_modules_names.specs.lookup.Homes.{home_view};
ghost use Rattle.std.specs.Prelude.{◌≡◌};

use crate::imports::index::ExportIndex;
use crate::lookup::{Home, module_name};
use asn_modules_errors::{NameRule, text_of};

/// Returns whether the module has this name.
pub fn is_named(home: Home<'_, '_>, name: &[u8]) -> bool
    ensures { result ≡ is_named (home_view home.entry) name.now }
{
    match module_name(home.parsed) {
        Some(token) => name == text_of(home.source.text, token),
        None => false,
    }
}

/// Returns the rule that is broken where the module of the number, if there is one, neither assigns
/// nor imports the name.
fn held_rule<'t>(
    index: &ExportIndex<'_, '_, 't>,
    named: Option<usize>,
    name: &'t [u8],
) -> Option<NameRule>
    requires { IsExportIndex index.now }
    ensures { result ≡ held_rule (module_at index.now named) name.now }
{
    if index.is_held(named, name) {
        None
    } else {
        Some(NameRule::NotHeld)
    }
}

/// Returns the rule that a module breaks by importing the name from itself, or from another one,
/// where `named` is the number of the module of the name that it states, if there is one; `None`
/// where it breaks none.
pub fn import_rule<'t>(
    index: &ExportIndex<'_, '_, 't>,
    is_own: bool,
    named: Option<usize>,
    name: &'t [u8],
) -> Option<NameRule>
    requires { IsExportIndex index.now }
    ensures { result
        ≡ import_rule (modules_of index.now) is_own (module_at index.now named) name.now }
{
    if is_own {
        return Some(NameRule::OwnImport);
    }
    let only = index.only_assigning(name);
    if index.is_exported(named, name) && index.is_exported(only, name) {
        held_rule(index, named, name)
    } else {
        Some(NameRule::NotExported)
    }
}
