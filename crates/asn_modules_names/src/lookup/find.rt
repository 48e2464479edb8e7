//! Finds types and values.
ghost use Rattle.asn_modules_names.specs.lookup.Entries.{import_entries, module_entries};
ghost use Rattle.asn_modules_names.specs.lookup.Homes.{homes};
ghost use Rattle.asn_modules_names.specs.lookup.Indexes.{IsIndexOf};
ghost use Rattle.asn_modules_names.specs.lookup.Lookup.{assigned, found, if_same, imported};
ghost use Rattle.asn_modules_names.specs.lookup.Lookup.{in_module, is_known, last_of, only, same_key};
ghost use Rattle.asn_modules_names.specs.lookup.Views.{key_view};
ghost use Rattle.asn_modules_names.specs.declared.lookup.sort.Sort.{Sort};
ghost use Rattle.asn_modules_names.specs.Mentions.{Source};
ghost use Rattle.std.specs.Prelude.{◌≡◌, List, option_map};
ghost use Rattle.std.specs.Str.{bytes_eq};

use crate::lookup::entries::Key;
use crate::lookup::index::Index;

/// Returns the number where both are the same.
fn if_same(last: Option<usize>, first: Option<usize>) -> Option<usize>
    ensures { result ≡ if_same last first }
{
    match last {
        Some(number) => match first {
            Some(other) => { if number == other { Some(number) } else { None } }
            None => None,
        },
        None => None,
    }
}

/// Finds the types or values that names stand for.
impl<'t> Index<'t> {
    /// Returns the number of the module of this name, or `None` where there is none.
    pub fn module_named(&self, home: &'t [u8]) -> Option<usize>
        ensures { (sort : Sort) (ss : List Source) → IsIndexOf sort ss self.now
            → result ≡ last_of bytes_eq (module_entries 0 (homes ss)) home.now }
    {
        self.modules.get(home).copied()
    }

    /// Returns the number of the type or value of this name that the module of the number assigns,
    /// or `None` where it assigns none.
    fn assigned(&self, key: Key<'t>) -> Option<usize>
        ensures { (sort : Sort) (ss : List Source) → IsIndexOf sort ss self.now
            → result ≡ last_of same_key (assigned sort ss) (key_view key.entry) }
    {
        self.assigned.get(&key).copied()
    }

    /// Returns the name of the module that the module of the number imports this name from, or
    /// `None` where it doesn't import it.
    fn origin(&self, key: Key<'t>) -> Option<&'t [u8]>
        ensures { (sort : Sort) (ss : List Source) → IsIndexOf sort ss self.now
            → option_map (λ home. home.now) result
            ≡ last_of same_key (import_entries 0 (homes ss)) (key_view key.entry) }
    {
        self.imports.get(&key).copied()
    }

    /// Returns the number of the one type or value of this name in all modules, or `None` where
    /// there is none or several have it.
    pub fn only(&self, name: &'t [u8]) -> Option<usize>
        ensures { (sort : Sort) (ss : List Source) → IsIndexOf sort ss self.now
            → result ≡ only sort ss name.now }
    {
        let last = self.last.get(name).copied();
        let first = self.first.get(name).copied();
        if_same(last, first)
    }

    /// Returns the number of the type or value of this name in the module of this name, or `None`
    /// where there is none.
    pub fn in_module(&self, home: &'t [u8], name: &'t [u8]) -> Option<usize>
        ensures { (sort : Sort) (ss : List Source) → IsIndexOf sort ss self.now
            → result ≡ in_module sort ss home.now name.now }
    {
        match self.module_named(home) {
            Some(number) => self.assigned((number, name)),
            None => None,
        }
    }

    /// Returns the number of the type or value that the module of the number imports by this name,
    /// or `None` where it is missing.
    fn imported(&self, number: usize, name: &'t [u8]) -> Option<usize>
        ensures { (sort : Sort) (ss : List Source) → IsIndexOf sort ss self.now
            → result ≡ imported sort ss number name.now }
    {
        let Some(home) = self.origin((number, name)) else {
            return None;
        };
        match self.in_module(home, name) {
            Some(found) => Some(found),
            None => self.only(name),
        }
    }

    /// Returns the number of the type or value that a name stands for in the module of the number,
    /// or `None` where it is missing. After the name of a module, it is the one of that module;
    /// else the module's own, else the one that it imports: of the module that it imports it from,
    /// or where that has none, the only one of this name in all modules.
    pub fn find(&self, number: usize, home: Option<&'t [u8]>, name: &'t [u8]) -> Option<usize>
        ensures { (sort : Sort) (ss : List Source) → IsIndexOf sort ss self.now
            → result ≡ found sort ss number (option_map (λ m. m.now) home.entry) name.now }
    {
        if let Some(home) = home {
            return self.in_module(home, name);
        }
        match self.assigned((number, name)) {
            Some(own) => Some(own),
            None => self.imported(number, name),
        }
    }

    /// Returns whether the module of the number assigns a type or value of this name, or imports
    /// the name.
    pub fn is_known(&self, number: usize, name: &'t [u8]) -> bool
        ensures { (sort : Sort) (ss : List Source) → IsIndexOf sort ss self.now
            → result ≡ is_known sort ss number name.now }
    {
        let own = self.assigned((number, name));
        let origin = self.origin((number, name));
        own.is_some() || origin.is_some()
    }
}
