//! Defines the object of a JSON document by itself: a map of texts to JSON values without floats.
ghost use Rattle.serde_json.specs.Data.{put};
ghost use Rattle.serde_json.specs.View.{view, members_view};
ghost use Rattle.serde_json.specs.Written.{members_have_float};
ghost use Rattle.std.specs.Prelude.{◌≡◌, [], false, length, string_bytes, OnErr, OnOk};

use crate::Document;
use asn_core::OutOfMemory;
use serde_json::{Map, Value};
use std::alloc::Global;

/// Holds the members of a JSON object without floats, in byte order of their keys.
#[derive(Drop)]
pub struct DocumentMap {
    /// Holds the values by their keys.
    members: Map<String, Value>,
    ghost whole: { members_have_float (members_view members.entries) ≡ false },
}

/// Makes a map, member by member. Keys and values are moved in.
impl DocumentMap {
    /// Returns a map without members. It takes no memory.
    pub fn new(alloc: Global) -> DocumentMap
        ensures { result.members.entries ≡ [] }
    {
        DocumentMap {
            members: Map::new(alloc),
        }
    }

    /// Returns the map of these members, which hold no float.
    pub(crate) fn of_whole(members: Map<String, Value>) -> DocumentMap
        requires { members_have_float (members_view members.entries) ≡ false }
        ensures { result.members ≡ members }
    {
        DocumentMap { members }
    }

    /// Returns the members.
    pub(crate) fn members(&self) -> &Map<String, Value>
        ensures is { result.now ≡ self.now.members }
        ensures whole { members_have_float (members_view result.now.entries) ≡ false }
    {
        &self.members
    }

    /// Puts a value at a key. A value that the key had before is replaced.
    ///
    /// # Errors
    ///
    /// `OutOfMemory` alone, and then the map is as it was.
    pub fn insert(&mut self, key: String, value: Document) -> Result<(), OutOfMemory>
        ensures put { OnOk result (members_view self.new.members.entries
            ≡ put (string_bytes key) (view value.value) (members_view self.old.members.entries)) }
        ensures kept { OnErr result (self.new.members.entries ≡ self.old.members.entries) }
    {
        put_member(&mut self.members, key, value.into_value())
    }

    /// Returns the number of members.
    pub fn len(&self) -> usize
        ensures { result ≡ length self.now.members.entries }
    {
        self.members.len()
    }
}

/// Puts a value at a key of a map. A value that the key had before is replaced.
///
/// # Errors
///
/// `OutOfMemory` alone, and then the map is as it was.
#[tactic(auto, using(crate::proofs::Puts::insertion))]
pub(crate) fn put_member(
    members: &mut Map<String, Value>,
    key: String,
    value: Value,
) -> Result<(), OutOfMemory>
    ensures put { OnOk result (members_view members.new.entries
        ≡ put (string_bytes key) (view value) (members_view members.old.entries)) }
    ensures kept { OnErr result (members.new.entries ≡ members.old.entries) }
{
    match members.insert(key, value) {
        Ok(replaced) => {
            drop(replaced);
            Ok(())
        }
        Err(_) => Err(OutOfMemory),
    }
}
