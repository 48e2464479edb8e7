//! OCTET STRING, and values of types that aren't known.
ghost use Rattle.std.specs.Cmp.Lexicographic.{nat_list_eq_equiv};
ghost use Rattle.std.specs.Cmp.{partial_equiv_from_equiv};
ghost use Rattle.std.specs.Hash as fed;
ghost use Rattle.std.specs.Hash.{same_Alike};
ghost use Rattle.std.proofs.lemmas.Slice.Eq.{bytes_eq-Decides};
ghost use Rattle.std.specs.Prelude.{◌≡◌, bytes_eq};

use std::hash::{Hash, Hasher};
use std::marker::Model;

/// An octet string (X.680, section 23), seen as the list of its octets.
#[derive(Debug, Drop)]
pub struct OctetString {
    octets: Vec<u8>,
}

impl Model for OctetString {
    ghost use Rattle.std.specs.Prelude.{List, ℕ};

    ghost Value = { List ℕ };

    ghost view = { λ s. s.octets.items };
}

impl OctetString {
    /// Returns the string of the octets, which aren't copied.
    pub fn from_vec(octets: Vec<u8>) -> OctetString
        ensures { result ≡ octets.items }
    {
        OctetString { octets }
    }

    /// Returns the octets.
    pub fn as_bytes(&self) -> &[u8]
        ensures { result.now ≡ self.now }
    {
        self.octets.as_slice()
    }

    /// Returns the octets by move.
    pub fn into_vec(self) -> Vec<u8>
        ensures { result.items ≡ self }
    {
        self.octets
    }
}

/// Two octet strings are equal where their octets are.
impl PartialEq for OctetString {
    ghost eq = { bytes_eq };

    ghost laws = { partial_equiv_from_equiv nat_list_eq_equiv };

    fn eq(&self, other: &OctetString) -> bool {
        self.octets == other.octets
    }
}

impl Eq for OctetString {
    ghost laws = { nat_list_eq_equiv };
}

impl Hash for OctetString {
    ghost hash_input = { λ octets. fed.slice fed.u8 octets };

    ghost respects_eq = { (same_Alike (fed.slice fed.u8) bytes_eq-Decides).fed };

    fn hash<H: Hasher>(&self, state: &mut H) {
        self.octets.hash(state);
    }
}

/// A value of a type that isn't known, as an open type has it (X.681, section 14), seen as the list
/// of the octets of its encoding.
#[derive(Debug, Drop, PartialEq, Eq, Hash)]
pub struct Any {
    octets: OctetString,
}

impl Model for Any {
    ghost use Rattle.std.specs.Prelude.{List, ℕ};

    ghost Value = { List ℕ };

    ghost view = { λ a. a.octets };

    ghost inverse = { λ octets. record { octets = octets } };
}

impl Any {
    /// Returns the value of the octets, which aren't copied.
    pub fn new(octets: Vec<u8>) -> Any
        ensures { result ≡ octets.items }
    {
        Any {
            octets: OctetString::from_vec(octets),
        }
    }

    /// Returns the octets.
    pub fn as_bytes(&self) -> &[u8]
        ensures { result.now ≡ self.now }
    {
        self.octets.as_bytes()
    }

    /// Returns the octets by move.
    pub fn into_vec(self) -> Vec<u8>
        ensures { result.items ≡ self }
    {
        self.octets.into_vec()
    }
}
