//! Multisets.
ghost use Rattle.asn_multisets.specs.Multiplicities.{same_multiset_equiv};
ghost use Rattle.asn_multisets.specs.Multisets.{IsSameMultiset, same_multiset};
ghost use Rattle.std.specs.Cmp.{partial_equiv_from_equiv};
ghost use Rattle.std.specs.Map.Iter.{deref};
ghost use Rattle.std.specs.Prelude.{◌≡◌, ◌∷◌, [], ◌<◌, ◌+◌, ◌↔◌, IfOk, IsTrue, OnErr, OnOk, length};
ghost use Rattle.std.specs.Prelude.{map};

use crate::Counts;
use asn_core::OutOfMemory;
use std::alloc::Global;
use std::fmt;
use std::hash::Hash;
use std::marker::{Model, PhantomData};

/// A multiset of at most `usize::MAX` elements, repeats counted. It is seen as the list of its
/// elements, each as often as it is there, whose order is of no account.
///
/// Elements that are equal are counted under the first one that was inserted. `M` is the table of
/// the counts.
#[derive(Drop)]
pub struct Multiset<D: Eq + Hash + Drop, M: Counts<D>> {
    /// How often each element is there, at least once.
    counts: M,
    /// The sum of the counts.
    total: usize,
    /// Names the type of the elements, and takes no memory.
    elements: PhantomData<D>,
}

impl<D: Eq + Hash + Drop, M: Counts<D>> Model for Multiset<D, M> {
    ghost use Rattle.asn_multisets.specs.Entries.{AllPositive, expanded};
    ghost use Rattle.std.specs.List.{IsDistinct};
    ghost use Rattle.std.specs.Map.{keys_of};
    ghost use Rattle.std.specs.Prelude.{◌≡◌, List, length};

    ghost Value = { List D };

    ghost view = { λ set. expanded (M.entries set.counts) };

    ghost invariant = { λ set. (set.total ≡ length (expanded (M.entries set.counts)))
        × IsDistinct D.eq (keys_of (M.entries set.counts))
        × AllPositive (M.entries set.counts) };
}

impl<D: Eq + Hash + Drop, M: Counts<D>> Multiset<D, M> {
    /// Returns the empty set. It takes no memory.
    pub fn new(alloc: Global) -> Multiset<D, M>
        ensures { result ≡ [] }
    {
        Multiset {
            counts: M::empty(alloc),
            total: 0,
            elements: PhantomData,
        }
    }

    /// Returns the set of the values, each as often as it is there.
    ///
    /// # Errors
    ///
    /// `OutOfMemory`.
    pub fn from_vec(alloc: Global, values: Vec<D>) -> Result<Multiset<D, M>, OutOfMemory>
        ensures same { IfOk result (λ set. IsSameMultiset D.eq values.items set) }
        ensures counted { IfOk result (λ set. length set ≡ length values.items) }
    {
        let mut set = Multiset::new(alloc);
        for value in values {
            set.insert(value)?;
        }
        Ok(set)
    }

    /// Adds an element. An element that is equal to one of the set makes its number greater.
    ///
    /// # Errors
    ///
    /// `OutOfMemory`, and then the set is as it was.
    pub fn insert(&mut self, value: D) -> Result<(), OutOfMemory>
        requires { length self.old < usize.MAX }
        ensures added { OnOk result (IsSameMultiset D.eq (value ∷ self.old) self.new) }
        ensures counted { OnOk result (length self.new ≡ length self.old + 1) }
        ensures unchanged { OnErr result (self.new ≡ self.old) }
    {
        let count = self.counts.count(&value);
        self.counts.set_count(value, count + 1)?;
        self.total += 1;
        Ok(())
    }

    /// Returns how many elements there are, repeats counted.
    pub fn len(&self) -> usize
        ensures { result ≡ length self.now }
    {
        self.total
    }

    /// Returns whether there are no elements.
    pub fn is_empty(&self) -> bool
        ensures { IsTrue result ↔ (self.now ≡ []) }
    {
        self.total == 0
    }

    /// Returns the elements, each as often as it is there.
    ///
    /// # Errors
    ///
    /// `OutOfMemory`.
    pub fn to_vec(&self, alloc: Global) -> Result<Vec<&D>, OutOfMemory>
        ensures { IfOk result (λ elements. map (deref {X = D}) elements.items ≡ self.now) }
    {
        let mut elements = Vec::with_capacity(alloc, self.total)?;
        for index in 0..self.counts.len() {
            let (element, count) = self.counts.entry(index);
            for _ in 0..count {
                elements.push(element)?;
            }
        }
        Ok(elements)
    }
}

/// Shows the elements, each as often as it is there.
impl<D: Eq + Hash + Drop + fmt::Debug, M: Counts<D>> fmt::Debug for Multiset<D, M> {
    fn fmt<W: fmt::Write>(&self, f: &mut fmt::Formatter<W>) -> fmt::Result {
        let mut shown = f.debug_set();
        for index in 0..self.counts.len() {
            let (element, count) = self.counts.entry(index);
            for _ in 0..count {
                shown.entry(element);
            }
        }
        shown.finish()
    }
}

/// Two sets are equal where each element is in both as often.
impl<D: Eq + Hash + Drop, M: Counts<D>> PartialEq for Multiset<D, M> {
    ghost eq = { same_multiset D.eq };

    ghost laws = { partial_equiv_from_equiv (same_multiset_equiv D.eq D.Eq.laws) };

    fn eq(&self, other: &Multiset<D, M>) -> bool
        ensures is { result ≡ same_multiset D.eq self.now other.now }
        ensures same { IsTrue result ↔ IsSameMultiset D.eq self.now other.now }
    {
        self.counts.agrees(&other.counts)
    }
}

impl<D: Eq + Hash + Drop, M: Counts<D>> Eq for Multiset<D, M> {
    ghost laws = { same_multiset_equiv D.eq D.Eq.laws };
}
