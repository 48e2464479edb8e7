//! Makes the tables that names are found by.
ghost use Rattle.asn_modules_names.specs.lookup.Indexes.{IsIndexOf};
ghost use Rattle.asn_modules_names.specs.Mentions.{source_view};
ghost use Rattle.std.specs.Prelude.{IfOk, map};

use crate::lookup::entries::{Key, by_name, keys_of, module_entries, numbered};
use crate::lookup::home::homes_of;
use crate::lookup::imports::import_entries;
use crate::lookup::sort::Sort;
use crate::lookup::table::table_of;
use asn_modules_reader::text::Source;
use std::alloc::{AllocError, Global};
use std::collections::HashMap;

/// Holds tables of the names in texts that were read together: those of modules, and those of types
/// or those of values.
#[derive(Drop)]
pub struct Index<'t> {
    /// Holds the number of each module beside its name.
    pub modules: HashMap<&'t [u8], usize>,
    /// Holds the number of each type or value beside its name and the number of its module.
    pub assigned: HashMap<Key<'t>, usize>,
    /// Holds the number of the last type or value of each name.
    pub last: HashMap<&'t [u8], usize>,
    /// Holds the number of the first type or value of each name.
    pub first: HashMap<&'t [u8], usize>,
    /// Holds the name of the module that a name is imported from, beside that and the number of the
    /// module that imports it.
    pub imports: HashMap<Key<'t>, &'t [u8]>,
}

/// Returns the tables of the texts, with the names of assignments of the sort.
///
/// # Errors
///
/// Where memory runs out.
pub fn index_of<'t>(
    alloc: Global,
    sort: Sort,
    sources: &[Source<'t>],
) -> Result<Index<'t>, AllocError>
    ensures { IfOk result (λ index. IsIndexOf sort (map source_view sources.now) index) }
{
    let homes = homes_of(alloc, sources)?;
    let headed = module_entries(alloc, homes.as_slice())?;
    let imported = import_entries(alloc, homes.as_slice())?;
    let keys = keys_of(alloc, sort, homes.as_slice())?;
    let counted = numbered(alloc, keys.as_slice())?;
    let mut named = by_name(alloc, counted.as_slice())?;
    let modules = table_of(alloc, headed.as_slice())?;
    let assigned = table_of(alloc, counted.as_slice())?;
    let last = table_of(alloc, named.as_slice())?;
    named.reverse();
    let first = table_of(alloc, named.as_slice())?;
    let imports = table_of(alloc, imported.as_slice())?;
    Ok(Index {
        modules,
        assigned,
        last,
        first,
        imports,
    })
}
