//! Lists the names of members as codecs take them.
ghost use Rattle.asn_dynamic.specs.encoding.Sent.{member_names};
ghost use Rattle.std.specs.List.{slice_get};
ghost use Rattle.std.specs.Prelude.{◌≡◌, ◌<◌, Some, length};

use asn_dynamic_values::DynValue;
use asn_names::NameList;

/// Lists members by their own names, in their order.
#[derive(Clone, Copy)]
pub struct MemberNames<'a> {
    /// Holds the members.
    pub members: &'a [(String, Option<DynValue>)],
}

/// Finds names.
impl<'a> MemberNames<'a> {
    /// Returns the name of the member at a place.
    fn member_name(&self, place: usize) -> &'a str
        requires { place < length self.now.members.now }
        ensures { slice_get (member_names self.now.members.now) place ≡ Some result.now }
    {
        self.members[place].0.as_str()
    }
}

/// Finds a name at the place of its member.
impl<'a> NameList for MemberNames<'a> {
    ghost use Rattle.asn_coding.specs.Tables.{numbered};
    ghost use Rattle.asn_dynamic.specs.encoding.Sent.{member_names};

    ghost rows = { λ names. numbered 0 (member_names names.members.now) };

    fn count(&self) -> usize {
        self.members.len()
    }

    fn name(&self, place: usize) -> &str {
        self.member_name(place)
    }

    fn index(&self, place: usize) -> usize {
        place
    }

    fn constant(&self, _place: usize) -> Option<&'static str> {
        None
    }
}
