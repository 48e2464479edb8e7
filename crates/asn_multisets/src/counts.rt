//! Tables that hold how often each element is there.
ghost use Rattle.asn_multisets.specs.Entries.{Agree, count_in, with_count};
ghost use Rattle.std.specs.List.{IsDistinct};
ghost use Rattle.std.specs.Map.{keys_of};
ghost use Rattle.std.specs.Prelude.{◌≡◌, ℕ, ◌<◌, ◌↔◌, IsTrue, List, OnErr, OnOk, Some, [], length};
ghost use Rattle.std.specs.Prelude.{slice_get};

use asn_core::OutOfMemory;
use std::alloc::Global;
use std::hash::Hash;

/// Holds the count of each element of a multiset. Contracts see the entries: each element that was
/// given a count, in the order of the first time, with its last count.
pub trait Counts<D: Eq + Hash + Drop>: Drop {
    // The elements with their counts.
    ghost entries: { Self → List (D × ℕ) };

    /// Returns the table with no entry. It takes no memory.
    fn empty(alloc: Global) -> Self
        ensures { entries result ≡ [] };

    /// Returns how many entries there are.
    fn len(&self) -> usize
        ensures { result ≡ length (entries self.now) };

    /// Returns the entry at the index.
    fn entry(&self, index: usize) -> (&D, usize)
        requires { index < length (entries self.now) }
        ensures { slice_get (entries self.now) index ≡ Some (result.0.now, result.1) };

    /// Returns the count of the element, or zero where it has none.
    fn count(&self, element: &D) -> usize
        ensures { result ≡ count_in D.eq (entries self.now) element.now };

    /// Gives the element this count. Where one that is equal to it has an entry, that one stays.
    ///
    /// # Errors
    ///
    /// `OutOfMemory`, and then the entries are as they were.
    fn set_count(&mut self, element: D, count: usize) -> Result<(), OutOfMemory>
        ensures set { OnOk result (entries self.new
            ≡ with_count D.eq (entries self.old) element count) }
        ensures distinct { IsDistinct D.eq (keys_of (entries self.new)) }
        ensures unchanged { OnErr result (entries self.new ≡ entries self.old) };

    /// Returns whether each element has the same entry in both tables, or none in both.
    fn agrees(&self, other: &Self) -> bool
        ensures { IsTrue result ↔ Agree D.eq (entries self.now) (entries other.now) };
}
