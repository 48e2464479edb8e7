//! Gathers the entries of a list between braces, before and behind its extension marker.
ghost use Rattle.asn_module_reader.specs.EntryLists.{entries_of, is_marker};
ghost use Rattle.asn_notation.specs.Notation.{any};
ghost use Rattle.std.specs.Prelude.{◌≡◌, ◌++◌, [], ◌∷◌, OnOk, None, Some, false};

use asn_core::OutOfMemory;
use std::alloc::Global;

/// Holds the entries of a list that were read so far. Contracts see them in order, with `None` for
/// the extension marker (`entries_of`).
#[derive(Drop)]
pub struct Entries<T: Drop> {
    /// Lists those of the root.
    pub root: Vec<T>,
    /// Lists those behind the extension marker, if it was read.
    pub added: Option<Vec<T>>,
}

impl<T: Drop> Entries<T> {
    /// Returns no entries.
    pub fn new(alloc: Global) -> Entries<T>
        ensures { entries_of result ≡ [] }
    {
        Entries {
            root: Vec::new(alloc),
            added: None,
        }
    }

    /// Returns whether the extension marker was read.
    pub fn is_extensible(&self) -> bool
        ensures { result ≡ any is_marker (entries_of self.now) }
    {
        self.added.is_some()
    }

    /// Adds the extension marker behind the others.
    pub fn mark(&mut self, alloc: Global)
        requires { any is_marker (entries_of self.old) ≡ false }
        ensures { entries_of self.new ≡ entries_of self.old ++ None ∷ [] }
    {
        self.added = Some(Vec::new(alloc));
    }

    /// Adds an entry behind the others.
    ///
    /// # Errors
    ///
    /// `OutOfMemory` alone.
    pub fn push(&mut self, entry: T) -> Result<(), OutOfMemory>
        ensures { OnOk result (entries_of self.new ≡ entries_of self.old ++ Some entry ∷ []) }
    {
        match &mut self.added {
            Some(added) => added.push(entry)?,
            None => self.root.push(entry)?,
        }
        Ok(())
    }
}
