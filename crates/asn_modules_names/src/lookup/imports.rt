//! Lists what modules import.
ghost use Rattle.asn_modules_grammar.specs.headers.Views as headers;
ghost use Rattle.asn_modules_names.specs.lookup.Entries.{import_entries, imported_in, imports_in};
ghost use Rattle.asn_modules_names.specs.lookup.Entries.{imports_of};
ghost use Rattle.asn_modules_names.specs.lookup.Homes.{home_view};
ghost use Rattle.asn_modules_names.specs.lookup.Views.{import_view};
ghost use Rattle.std.specs.Prelude.{◌≡◌, ◌++◌, IfOk, OnOk, map};
ghost use Rattle.std.specs.Option.{option_map};

use crate::lookup::entries::Key;
use crate::lookup::home::Home;
use asn_lexer::Token;
use asn_modules_errors::text_of;
use asn_modules_grammar::headers::{Header, Import};
use std::alloc::{AllocError, Global};

/// Is an imported name after the number of the module that imports it, with the name of the module
/// that it is imported from.
pub type ImportEntry<'t> = (Key<'t>, &'t [u8]);

/// Appends these names, imported by the module of the number.
///
/// # Errors
///
/// Where memory runs out.
fn add_names<'t>(
    entries: &mut Vec<ImportEntry<'t>>,
    number: usize,
    home: Home<'_, 't>,
    from: Token,
    names: &[Token],
) -> Result<(), AllocError>
    ensures { OnOk result (map import_view entries.new.items ≡ map import_view entries.old.items
        ++ imported_in number (home_view home.entry) from names.now) }
{
    let origin = text_of(home.source.text, from);
    for name in names {
        entries.push(((number, text_of(home.source.text, *name)), origin))?;
    }
    Ok(())
}

/// Appends what the module of the number imports by these imports.
///
/// # Errors
///
/// Where memory runs out.
fn add_imports<'t>(
    entries: &mut Vec<ImportEntry<'t>>,
    number: usize,
    home: Home<'_, 't>,
    imports: &[Import],
) -> Result<(), AllocError>
    ensures { OnOk result (map import_view entries.new.items ≡ map import_view entries.old.items
        ++ imports_in number (home_view home.entry) (map headers.import_view imports.now)) }
{
    for import in imports {
        add_names(
            entries,
            number,
            home,
            import.module,
            import.names.as_slice(),
        )?;
    }
    Ok(())
}

/// Returns the imports of the header, if there is one.
pub fn imports_of(header: &Option<Header>) -> &[Import]
    ensures { map headers.import_view result.now
        ≡ imports_of (option_map headers.header_view header.now) }
{
    match header {
        Some(header) => header.imports.as_slice(),
        None => &[],
    }
}

/// Returns what the modules import.
///
/// # Errors
///
/// Where memory runs out.
pub fn import_entries<'t>(
    alloc: Global,
    homes: &[Home<'_, 't>],
) -> Result<Vec<ImportEntry<'t>>, AllocError>
    ensures { IfOk result (λ entries.
        map import_view entries.items ≡ import_entries 0 (map home_view homes.now)) }
{
    let mut entries = Vec::new(alloc);
    for (number, home) in homes.iter().enumerate() {
        add_imports(&mut entries, number, *home, imports_of(&home.parsed.header))?;
    }
    Ok(entries)
}
