//! Gathers the entries of a list between braces, with its extension markers.
ghost use Rattle.asn_modules_reader.specs.parts.EntryLists.{entries_of, is_marker, markers_by};
ghost use Rattle.std.specs.Prelude.{◌≡◌, ◌++◌, ◌≤◌, [], ◌∷◌, OnOk, None, Some, nat_le, true};
ghost use Rattle.std.specs.List.{count_by};

use std::alloc::{AllocError, Global};

/// Holds the entries of a list that were read so far. Contracts see them in order, with `None` for
/// an extension marker (`entries_of`).
#[derive(Drop)]
pub struct Entries<T: Drop> {
    /// Lists those of the root.
    pub root: Vec<T>,
    /// Lists those after the first extension marker, if it was read.
    pub added: Option<Vec<T>>,
    /// Lists those after the second one, if that was read. It means nothing without the first.
    pub tail: Option<Vec<T>>,
}

/// Returns how many extension markers there are, where the first is and where the second is.
fn count(first: bool, second: bool) -> usize
    ensures { result ≡ markers_by first second }
{
    match (first, second) {
        (false, _) => 0,
        (true, false) => 1,
        (true, true) => 2,
    }
}

impl<T: Drop> Entries<T> {
    /// Returns no entries.
    pub fn new(alloc: Global) -> Entries<T>
        ensures { entries_of result ≡ [] }
    {
        Entries {
            root: Vec::new(alloc),
            added: None,
            tail: None,
        }
    }

    /// Returns how many extension markers were read.
    fn markers(&self) -> usize
        ensures { result ≡ count_by is_marker (entries_of self.now) }
    {
        count(self.added.is_some(), self.tail.is_some())
    }

    /// Returns whether no more than so many extension markers are read with the entry.
    pub fn may_add(&self, entry: &Option<T>, markers: usize) -> bool
        ensures { result
            ≡ nat_le (count_by is_marker (entries_of self.now ++ entry.now ∷ [])) markers }
    {
        match entry {
            Some(_) => self.markers() <= markers,
            None => self.markers() < markers,
        }
    }

    /// Adds an extension marker after the others.
    fn mark(&mut self, alloc: Global)
        requires { count_by is_marker (entries_of self.old) ≤ 1 }
        ensures { entries_of self.new ≡ entries_of self.old ++ None ∷ [] }
    {
        if self.added.is_none() {
            self.added = Some(Vec::new(alloc));
            self.tail = None;
        } else {
            self.tail = Some(Vec::new(alloc));
        }
    }

    /// Adds an entry that is no extension marker after the others.
    ///
    /// # Errors
    ///
    /// Where memory runs out.
    fn push(&mut self, entry: T) -> Result<(), AllocError>
        ensures { OnOk result (entries_of self.new ≡ entries_of self.old ++ Some entry ∷ []) }
    {
        match &mut self.added {
            None => self.root.push(entry)?,
            Some(added) => match &mut self.tail {
                None => added.push(entry)?,
                Some(tail) => tail.push(entry)?,
            },
        }
        Ok(())
    }

    /// Adds an entry, or an extension marker, after the others.
    ///
    /// # Errors
    ///
    /// Where memory runs out.
    pub fn add(&mut self, alloc: Global, entry: Option<T>) -> Result<(), AllocError>
        requires { nat_le (count_by is_marker (entries_of self.old ++ entry ∷ [])) 2 ≡ true }
        ensures { OnOk result (entries_of self.new ≡ entries_of self.old ++ entry ∷ []) }
    {
        match entry {
            Some(entry) => self.push(entry),
            None => {
                self.mark(alloc);
                Ok(())
            }
        }
    }
}
