//! Says where names after COMPONENTS OF stand, and how deep.
ghost use Rattle.std.specs.Prelude.{◌≡◌, ◌+◌, MatchOption};

use crate::included::types::AssignedType;
use asn_modules_names::lookup::{Home, Index};

/// Is where a type stands: in a module.
#[derive(Clone, Copy, Drop)]
pub struct Scope<'a, 's, 't> {
    /// Holds the numbers of types beside their names.
    pub index: &'a Index<'t>,
    /// Lists the types that are assigned.
    pub types: &'a [AssignedType<'s, 't>],
    /// Is the number of the module.
    pub number: usize,
    /// Is the module in its text.
    pub home: Home<'s, 't>,
}

/// States how deep what is counted may still be.
#[derive(Clone, Copy, Drop)]
pub struct Depth {
    /// Is how many names may be followed after COMPONENTS OF, one after another.
    pub names: usize,
    /// Is how many levels of types may nest.
    pub levels: usize,
}

/// Says how deep what is counted within a type may still be.
impl Depth {
    /// Returns how deep what stands within a type may be, or `None` where no level is left.
    pub fn within(self) -> Option<Depth>
        ensures { MatchOption result (self.levels ≡ 0)
            (λ d. (d.names ≡ self.names) × (self.levels ≡ d.levels + 1)) }
    {
        let levels = self.levels.checked_sub(1)?;
        Some(Depth {
            names: self.names,
            levels,
        })
    }
}
