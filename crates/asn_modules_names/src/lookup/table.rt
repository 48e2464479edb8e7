//! Makes tables of entries.
ghost use Rattle.asn_modules_names.specs.lookup.Lookup.{last_of};
ghost use Rattle.std.specs.HashMap.{get};
ghost use Rattle.std.specs.Prelude.{◌≡◌, IfOk};

use std::alloc::{AllocError, Global};
use std::collections::HashMap;
use std::hash::Hash;

/// Returns the table of the entries, in which the last one of a key counts.
///
/// # Errors
///
/// Where memory runs out.
pub fn table_of<K: Eq + Hash + Copy + Drop, V: Copy + Drop>(
    alloc: Global,
    entries: &[(K, V)],
) -> Result<HashMap<K, V>, AllocError>
    ensures { IfOk result (λ table. (q : K) → get K.eq table q ≡ last_of K.eq entries.now q) }
{
    let table: HashMap<K, V> = entries.iter().copied().collect(alloc)?;
    Ok(table)
}
