//! Makes objects, whose members stand in byte order of their names.
ghost use Rattle.jer_values.specs.Names.{name_bytes};
ghost use Rattle.jer_values.specs.Views.{data_of, members_view};
ghost use Rattle.serde_json.specs.Data.{Data, Members, put};
ghost use Rattle.std.specs.Prelude.{◌≡◌, IfOk, OnOk};

use crate::{JerName, JerValue};
use std::alloc::{AllocError, Global};
use std::cmp::Ordering;

/// Puts a member into an object, in the place of one of that name. It walks over the members, of
/// which there are as many as the type has fields at most.
///
/// # Errors
///
/// `AllocError` where memory is refused.
pub fn put_member(
    members: &mut Vec<(JerName, JerValue)>,
    name: JerName,
    value: JerValue,
) -> Result<(), AllocError>
    ensures { OnOk result (members_view members.new.items
        ≡ put (name_bytes name) (data_of value) (members_view members.old.items)) }
{
    for place in 0..members.len() {
        match name.as_str().cmp(members[place].0.as_str()) {
            Ordering::Greater => {}
            Ordering::Equal => {
                members[place].1 = value;
                return Ok(());
            }
            Ordering::Less => {
                members.insert(place, (name, value))?;
                return Ok(());
            }
        }
    }
    members.push((name, value))?;
    Ok(())
}

/// Returns the object of one member.
///
/// # Errors
///
/// `AllocError` where memory is refused.
pub fn one_member(alloc: Global, name: JerName, value: JerValue) -> Result<JerValue, AllocError>
    ensures { IfOk result (λ v. data_of v
        ≡ Data.object (Members.member (name_bytes name) (data_of value) Members.no_members)) }
{
    let mut members = Vec::with_capacity(alloc, 1)?;
    members.push((name, value))?;
    Ok(JerValue::Members(members))
}
