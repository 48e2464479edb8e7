//! Tables of counts over `indexmap`, and the multisets over them.
use asn_core::OutOfMemory;
use asn_multisets::{Counts, Multiset};
use indexmap::IndexMap;
use std::alloc::Global;
use std::hash::Hash;

/// A multiset of at most `usize::MAX` elements, repeats counted, as a program holds it. An element
/// is found by its hash. The seed of the hash is fixed.
pub type SetOf<D> = Multiset<D, Indexed<D>>;

/// Holds the count of each element of a multiset in a map.
#[derive(Drop)]
pub struct Indexed<D: Eq + Hash + Drop> {
    /// Has how often each element is there.
    map: IndexMap<D, usize>,
}

/// Keeps the entries in the order in which the elements came first.
impl<D: Eq + Hash + Drop> Counts<D> for Indexed<D> {
    ghost entries = { λ counts. counts.map.entries };

    fn empty(alloc: Global) -> Indexed<D> {
        Indexed {
            map: IndexMap::new(alloc),
        }
    }

    fn len(&self) -> usize {
        self.map.len()
    }

    fn entry(&self, index: usize) -> (&D, usize) {
        // The index is below the length.
        let (element, count) = self.map.get_index(index).unwrap();
        (element, *count)
    }

    fn count(&self, element: &D) -> usize {
        self.map.get(element).copied().unwrap_or(0)
    }

    fn set_count(&mut self, element: D, count: usize) -> Result<(), OutOfMemory> {
        self.map.insert(element, count)?;
        Ok(())
    }

    fn agrees(&self, other: &Indexed<D>) -> bool {
        self.map == other.map
    }
}
