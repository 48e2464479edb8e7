//! Lists names of modules: their own, those that they assign, and those that they export.
ghost use Rattle.asn_modules_grammar.specs.headers.Views as headers;
ghost use Rattle.asn_modules_names.specs.imports.Imported.{assigned_by, exports_of, held_names};
ghost use Rattle.asn_modules_names.specs.imports.Imported.{imported_names};
ghost use Rattle.asn_modules_names.specs.imports.Tables.{names_by, names_in, names_of, numbered_by};
ghost use Rattle.asn_modules_names.specs.lookup.Homes.{bytes_in, home_view};
ghost use Rattle.asn_modules_names.specs.lookup.Views.{entry_view};
ghost use Rattle.asn_modules_names.specs.Assigned.{assigned_name};
ghost use Rattle.asn_modules_grammar.specs.notation.View.{assignment_view};
ghost use Rattle.std.specs.Prelude.{◌≡◌, ◌++◌, IfOk, OnOk, map};
ghost use Rattle.std.specs.Option.{option_map};

use crate::lookup::{Home, imports_of, module_name};
use asn_lexer::Token;
use asn_modules_errors::text_of;
use asn_modules_grammar::headers::{Header, Import};
use asn_modules_grammar::notation::Assignment;
use std::alloc::{AllocError, Global};

/// Is a name with the number of its module.
pub type Entry<'t> = (&'t [u8], usize);

/// Says which names of a module are listed.
#[derive(Clone, Copy, Drop)]
pub enum Listed {
    /// Is its own name.
    Title,
    /// Is the names that it assigns.
    Assigned,
    /// Is the names that it lists as exports.
    Exported,
    /// Is the names that it assigns or imports.
    Held,
}

/// Returns the name that is assigned.
fn name_of(assignment: &Assignment) -> Token
    ensures { result ≡ assigned_name (assignment_view assignment.now) }
{
    match assignment {
        Assignment::Type { name, .. } => *name,
        Assignment::Value { name, .. } => *name,
        Assignment::Template { name, .. } => *name,
    }
}

/// Returns the names that the header lists as exports: none where it exports all.
fn exports_of(header: &Option<Header>) -> &[Token]
    ensures { result.now
        ≡ names_in (exports_of (option_map headers.header_view header.now)) }
{
    match header {
        Some(header) => match &header.exports {
            Some(names) => names.as_slice(),
            None => &[],
        },
        None => &[],
    }
}

/// Appends these names, of the module of the number.
///
/// # Errors
///
/// Where memory runs out.
fn add_names<'t>(
    entries: &mut Vec<Entry<'t>>,
    number: usize,
    home: Home<'_, 't>,
    names: &[Token],
) -> Result<(), AllocError>
    ensures { OnOk result (map entry_view entries.new.items ≡ map entry_view entries.old.items
        ++ numbered_by number (map (bytes_in (home_view home.entry)) names.now)) }
{
    for name in names {
        entries.push((text_of(home.source.text, *name), number))?;
    }
    Ok(())
}

/// Appends the names that these assignments of the module of the number assign.
///
/// # Errors
///
/// Where memory runs out.
fn add_assigned<'t>(
    entries: &mut Vec<Entry<'t>>,
    number: usize,
    home: Home<'_, 't>,
    assignments: &[Assignment],
) -> Result<(), AllocError>
    ensures { OnOk result (map entry_view entries.new.items ≡ map entry_view entries.old.items
        ++ numbered_by number
        (assigned_by (home_view home.entry) (map assignment_view assignments.now))) }
{
    for assignment in assignments {
        entries.push((text_of(home.source.text, name_of(assignment)), number))?;
    }
    Ok(())
}

/// Appends the names that these imports of the module of the number list.
///
/// # Errors
///
/// Where memory runs out.
fn add_imports<'t>(
    entries: &mut Vec<Entry<'t>>,
    number: usize,
    home: Home<'_, 't>,
    imports: &[Import],
) -> Result<(), AllocError>
    ensures { OnOk result (map entry_view entries.new.items ≡ map entry_view entries.old.items
        ++ numbered_by number
        (imported_names (home_view home.entry) (map headers.import_view imports.now))) }
{
    for import in imports {
        add_names(entries, number, home, import.names.as_slice())?;
    }
    Ok(())
}

/// Appends the names that the module of the number assigns or imports.
///
/// # Errors
///
/// Where memory runs out.
fn add_held<'t>(
    entries: &mut Vec<Entry<'t>>,
    number: usize,
    home: Home<'_, 't>,
) -> Result<(), AllocError>
    ensures { OnOk result (map entry_view entries.new.items ≡ map entry_view entries.old.items
        ++ numbered_by number (held_names (home_view home.entry))) }
{
    add_assigned(entries, number, home, home.parsed.assignments.as_slice())?;
    add_imports(entries, number, home, imports_of(&home.parsed.header))
}

/// Appends the names that are listed of the module of the number.
///
/// # Errors
///
/// Where memory runs out.
fn add_listed<'t>(
    entries: &mut Vec<Entry<'t>>,
    listed: Listed,
    number: usize,
    home: Home<'_, 't>,
) -> Result<(), AllocError>
    ensures { OnOk result (map entry_view entries.new.items ≡ map entry_view entries.old.items
        ++ numbered_by number (names_of listed (home_view home.entry))) }
{
    match listed {
        Listed::Title => match module_name(home.parsed) {
            Some(name) => add_names(entries, number, home, &[name]),
            None => Ok(()),
        },
        Listed::Assigned => {
            add_assigned(entries, number, home, home.parsed.assignments.as_slice())
        }
        Listed::Exported => add_names(entries, number, home, exports_of(&home.parsed.header)),
        Listed::Held => add_held(entries, number, home),
    }
}

/// Returns the names that are listed of the modules, each with the number of its module.
///
/// # Errors
///
/// Where memory runs out.
pub fn entries_of<'t>(
    alloc: Global,
    listed: Listed,
    homes: &[Home<'_, 't>],
) -> Result<Vec<Entry<'t>>, AllocError>
    ensures { IfOk result (λ entries. map entry_view entries.items
        ≡ names_by (names_of listed) 0 (map home_view homes.now)) }
{
    let mut entries = Vec::new(alloc);
    for (number, home) in homes.iter().enumerate() {
        add_listed(&mut entries, listed, number, *home)?;
    }
    Ok(entries)
}
