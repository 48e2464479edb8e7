//! Makes the tables by which it is found who exports a name, and finds it.
ghost use Rattle.asn_modules_grammar.specs.headers.Views as headers;
ghost use Rattle.asn_modules_names.specs.imports.Imported.{exports_of, is_exported_by, is_held_by};
ghost use Rattle.asn_modules_names.specs.imports.Imported.{module_named, only_assigning};
ghost use Rattle.asn_modules_names.specs.imports.Tables.{IsExportIndex, module_at, modules_of};
ghost use Rattle.asn_modules_names.specs.lookup.Homes.{home_view};
ghost use Rattle.asn_modules_names.specs.lookup.Lookup.{if_same, last_of};
ghost use Rattle.std.specs.HashMap.{get};
ghost use Rattle.std.specs.HashSet.{contains};
ghost use Rattle.std.specs.Option.{is_none, option_map};
ghost use Rattle.std.specs.Prelude.{◌≡◌, IfOk, map};
ghost use Rattle.std.specs.Set.{is_member};

use crate::imports::entries::{Entry, Listed, entries_of};
use crate::lookup::Home;
use asn_modules_grammar::headers::Header;
use std::alloc::{AllocError, Global};
use std::collections::{HashMap, HashSet};
use std::hash::Hash;

/// Holds the modules, and tables of their names, by which it is found who exports a name. Modules
/// are numbered from 0.
#[derive(Drop)]
pub struct ExportIndex<'h, 's, 't> {
    /// Lists the modules.
    pub homes: &'h [Home<'s, 't>],
    /// Holds the number of the first module of each name.
    pub titles: HashMap<&'t [u8], usize>,
    /// Holds the number of the first module that assigns each name.
    pub first: HashMap<&'t [u8], usize>,
    /// Holds the number of the last module that assigns each name.
    pub last: HashMap<&'t [u8], usize>,
    /// Holds the names that modules list as exports, each with the number of its module.
    pub exported: HashSet<Entry<'t>>,
    /// Holds the names that modules assign or import, each with the number of its module.
    pub held: HashSet<Entry<'t>>,
}

/// Returns the table of the entries, in which the last one of a key counts.
///
/// # Errors
///
/// Where memory runs out.
fn table_of<K: Eq + Hash + Copy + Drop, V: Copy + Drop>(
    alloc: Global,
    entries: &[(K, V)],
) -> Result<HashMap<K, V>, AllocError>
    ensures { IfOk result (λ table. (q : K) → get K.eq table q ≡ last_of K.eq entries.now q) }
{
    let table: HashMap<K, V> = entries.iter().copied().collect(alloc)?;
    Ok(table)
}

/// Returns the keys as a set.
///
/// # Errors
///
/// Where memory runs out.
fn set_of<K: Eq + Hash + Copy + Drop>(alloc: Global, keys: &[K]) -> Result<HashSet<K>, AllocError>
    ensures { IfOk result (λ set. (q : K) → contains K.eq set q ≡ is_member K.eq keys.now q) }
{
    let set: HashSet<K> = keys.iter().copied().collect(alloc)?;
    Ok(set)
}

/// Returns the modules with the tables of their names.
///
/// # Errors
///
/// Where memory runs out.
pub fn export_index_of<'h, 's, 't>(
    alloc: Global,
    homes: &'h [Home<'s, 't>],
) -> Result<ExportIndex<'h, 's, 't>, AllocError>
    ensures modules { IfOk result (λ index. modules_of index ≡ map home_view homes.now) }
    ensures tables { IfOk result IsExportIndex }
{
    let mut titled = entries_of(alloc, Listed::Title, homes)?;
    titled.reverse();
    let titles = table_of(alloc, titled.as_slice())?;
    let mut assigned = entries_of(alloc, Listed::Assigned, homes)?;
    let last = table_of(alloc, assigned.as_slice())?;
    assigned.reverse();
    let first = table_of(alloc, assigned.as_slice())?;
    let listed = entries_of(alloc, Listed::Exported, homes)?;
    let exported = set_of(alloc, listed.as_slice())?;
    let known = entries_of(alloc, Listed::Held, homes)?;
    let held = set_of(alloc, known.as_slice())?;
    Ok(ExportIndex {
        homes,
        titles,
        first,
        last,
        exported,
        held,
    })
}

/// Returns whether a module with this header exports all names: it has no list of them.
fn exports_all(header: &Option<Header>) -> bool
    ensures { result ≡ is_none (exports_of (option_map headers.header_view header.now)) }
{
    match header {
        Some(header) => match &header.exports {
            Some(_names) => false,
            None => true,
        },
        None => true,
    }
}

/// Returns the number where both are the same.
fn if_same(last: Option<usize>, first: Option<usize>) -> Option<usize>
    ensures { result ≡ if_same last first }
{
    match last {
        Some(number) => match first {
            Some(other) => { if number == other { Some(number) } else { None } }
            None => None,
        },
        None => None,
    }
}

/// Finds who exports names.
impl<'h, 's, 't> ExportIndex<'h, 's, 't> {
    /// Returns the number of the first module of this name, or `None` where there is none.
    pub fn module_named(&self, name: &'t [u8]) -> Option<usize>
        requires { IsExportIndex self.now }
        ensures { module_at self.now result ≡ module_named (modules_of self.now) name.now }
    {
        self.titles.get(name).copied()
    }

    /// Returns the number of the only module that assigns the name, to a type or a value, or `None`
    /// where none or several do.
    pub fn only_assigning(&self, name: &'t [u8]) -> Option<usize>
        requires { IsExportIndex self.now }
        ensures { module_at self.now result ≡ only_assigning (modules_of self.now) name.now }
    {
        let last = self.last.get(name).copied();
        let first = self.first.get(name).copied();
        if_same(last, first)
    }

    /// Returns whether the module of the number exports the name. Where there is none, nothing is
    /// kept back.
    pub fn is_exported(&self, number: Option<usize>, name: &'t [u8]) -> bool
        requires { IsExportIndex self.now }
        ensures { result ≡ is_exported_by (module_at self.now number) name.now }
    {
        let Some(number) = number else {
            return true;
        };
        let Some(home) = self.homes.get(number) else {
            return true;
        };
        if exports_all(&home.parsed.header) {
            return true;
        }
        self.exported.contains(&(name, number))
    }

    /// Returns whether the module of the number assigns or imports the name. Where there is none,
    /// nothing is missing.
    pub fn is_held(&self, number: Option<usize>, name: &'t [u8]) -> bool
        requires { IsExportIndex self.now }
        ensures { result ≡ is_held_by (module_at self.now number) name.now }
    {
        let Some(number) = number else {
            return true;
        };
        let Some(_home) = self.homes.get(number) else {
            return true;
        };
        self.held.contains(&(name, number))
    }
}
