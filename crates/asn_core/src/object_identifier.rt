//! OBJECT IDENTIFIER.
ghost use Rattle.asn_core.specs.ObjectIdentifiers.{is_object_identifier};
ghost use Rattle.std.specs.Cmp.Lexicographic.{nat_list_eq_equiv};
ghost use Rattle.std.specs.Cmp.{partial_equiv_from_equiv};
ghost use Rattle.std.specs.Hash as fed;
ghost use Rattle.std.specs.Hash.{same_Alike};
ghost use Rattle.std.proofs.lemmas.Slice.Eq.{bytes_eq-Decides};
ghost use Rattle.std.specs.Prelude.{◌≡◌, IfOk, IsTrue, SomeIff, bytes_eq};

use crate::OutOfMemory;
use std::alloc::Global;
use std::hash::{Hash, Hasher};
use std::marker::Model;

/// The arcs of an object identifier (X.680, section 32) that stand elsewhere, seen as their list.
#[derive(Debug, Drop)]
pub struct Oid<'a> {
    /// At least two arcs, which are those of an object identifier.
    arcs: &'a [u32],
}

impl<'a> Model for Oid<'a> {
    ghost use Rattle.asn_core.specs.ObjectIdentifiers.{is_object_identifier};
    ghost use Rattle.std.specs.Prelude.{IsTrue, List, ℕ};

    ghost Value = { List ℕ };

    ghost view = { λ oid. oid.arcs.now };

    ghost invariant = { λ oid. IsTrue (is_object_identifier oid.arcs.now) };
}

impl<'a> Oid<'a> {
    /// Returns the object identifier of the arcs, or none where they aren't those of one: two arcs
    /// at least, the first at most 2, and the second at most 39 unless the first is 2 (X.690,
    /// section 8.19.4).
    pub fn new(arcs: &'a [u32]) -> Option<Oid<'a>>
        ensures { SomeIff result (IsTrue (is_object_identifier arcs.now)) arcs.now }
    {
        if !is_accepted(arcs) {
            return None;
        }
        Some(Oid { arcs })
    }

    /// Returns the arcs.
    pub fn arcs(&self) -> &[u32]
        ensures arcs { result.now ≡ self.now }
        ensures accepted { IsTrue (is_object_identifier self.now) }
    {
        self.arcs
    }
}

/// An object identifier (X.680, section 32), seen as the list of its arcs.
#[derive(Debug, Drop)]
pub struct ObjectIdentifier {
    /// At least two arcs, which are those of an object identifier.
    arcs: Vec<u32>,
}

impl Model for ObjectIdentifier {
    ghost use Rattle.asn_core.specs.ObjectIdentifiers.{is_object_identifier};
    ghost use Rattle.std.specs.Prelude.{IsTrue, List, ℕ};

    ghost Value = { List ℕ };

    ghost view = { λ oid. oid.arcs.items };

    ghost invariant = { λ oid. IsTrue (is_object_identifier oid.arcs.items) };
}

impl ObjectIdentifier {
    /// Returns the object identifier of a copy of the arcs, or none where they aren't those of one,
    /// as `Oid::new` says.
    ///
    /// # Errors
    ///
    /// `OutOfMemory`.
    pub fn new(alloc: Global, arcs: &[u32]) -> Result<Option<ObjectIdentifier>, OutOfMemory>
        ensures { IfOk result
            (λ oid. SomeIff oid (IsTrue (is_object_identifier arcs.now)) arcs.now) }
    {
        if !is_accepted(arcs) {
            return Ok(None);
        }
        Ok(Some(ObjectIdentifier {
            arcs: Vec::from_slice(alloc, arcs)?,
        }))
    }

    /// Returns the object identifier of the arcs, which aren't copied, or none where they aren't
    /// those of one, as `Oid::new` says.
    pub fn from_vec(arcs: Vec<u32>) -> Option<ObjectIdentifier>
        ensures { SomeIff result (IsTrue (is_object_identifier arcs.items)) arcs.items }
    {
        if !is_accepted(arcs.as_slice()) {
            return None;
        }
        Some(ObjectIdentifier { arcs })
    }

    /// Returns the arcs.
    pub fn arcs(&self) -> &[u32]
        ensures arcs { result.now ≡ self.now }
        ensures accepted { IsTrue (is_object_identifier self.now) }
    {
        self.arcs.as_slice()
    }
}

/// Two object identifiers are equal where their arcs are.
impl PartialEq for ObjectIdentifier {
    ghost eq = { bytes_eq };

    ghost laws = { partial_equiv_from_equiv nat_list_eq_equiv };

    fn eq(&self, other: &ObjectIdentifier) -> bool {
        self.arcs == other.arcs
    }
}

impl Eq for ObjectIdentifier {
    ghost laws = { nat_list_eq_equiv };
}

impl Hash for ObjectIdentifier {
    ghost hash_input = { λ arcs. fed.slice fed.u32 arcs };

    ghost respects_eq = { (same_Alike (fed.slice fed.u32) bytes_eq-Decides).fed };

    fn hash<H: Hasher>(&self, state: &mut H) {
        self.arcs.hash(state);
    }
}

/// Returns whether the arcs are those of an object identifier.
fn is_accepted(arcs: &[u32]) -> bool
    ensures { result ≡ is_object_identifier arcs.now }
{
    match arcs {
        [first, second, ..] => *first <= 2 && (*second <= 39 || *first == 2),
        _ => false,
    }
}
