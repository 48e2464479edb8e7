//! Makes the table that named numbers are found by.
ghost use Rattle.asn_modules_names.specs.lookup.Lookup.{last_of};
ghost use Rattle.asn_modules_types.specs.named_numbers.Named as spec;
ghost use Rattle.asn_modules_types.specs.named_numbers.Numbers.{AreNumbersOf};
ghost use Rattle.asn_modules_types.specs.named_numbers.Views.{type_view};
ghost use Rattle.std.specs.HashMap.{get};
ghost use Rattle.std.specs.Prelude.{◌≡◌, IfOk, List, map};

use crate::named_numbers::entries::{Key, StatedType, entries_of};
use asn_modules_grammar::notation::Constant;
use std::alloc::{AllocError, Global};
use std::collections::HashMap;
use std::hash::Hash;

/// Holds the named numbers of types.
#[derive(Drop)]
pub struct NamedNumbers<'t> {
    /// Holds what stands for the first number of each name in a type, beside that and the number of
    /// the type.
    pub first: HashMap<Key<'t>, Constant>,
}

/// Returns the table of the entries, in which the last one of a key counts.
///
/// # Errors
///
/// Where memory runs out.
fn table_of<K: Eq + Hash + Copy + Drop, V: Copy + Drop>(
    alloc: Global,
    entries: &[(K, V)],
) -> Result<HashMap<K, V>, AllocError>
    ensures { IfOk result (λ table. (q : K) → get K.eq table q ≡ last_of K.eq entries.now q) }
{
    let table: HashMap<K, V> = entries.iter().copied().collect(alloc)?;
    Ok(table)
}

/// Returns the named numbers of these types, of which each has its place as its number.
///
/// # Errors
///
/// Where memory runs out.
pub fn named_numbers<'t>(
    alloc: Global,
    types: &[StatedType<'_, 't>],
) -> Result<NamedNumbers<'t>, AllocError>
    ensures { IfOk result (λ numbers. AreNumbersOf (map type_view types.now) numbers) }
{
    let mut entries = entries_of(alloc, types)?;
    entries.reverse();
    let first = table_of(alloc, entries.as_slice())?;
    Ok(NamedNumbers { first })
}

/// Finds named numbers.
impl<'t> NamedNumbers<'t> {
    /// Returns what stands for the number that the word names first in the type of the number, or
    /// `None` where it names none.
    pub fn constant(&self, number: usize, word: &'t [u8]) -> Option<Constant>
        ensures { (types : List spec.StatedType) → AreNumbersOf types self.now
            → result ≡ spec.constant_named types number word.now }
    {
        self.first.get(&(number, word)).copied()
    }
}
