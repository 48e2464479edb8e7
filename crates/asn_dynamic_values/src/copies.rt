//! Makes values of a SET OF, and copies of values.
ghost use Rattle.asn_dynamic_values.specs.DynView.{dyn_value, members_named, named_value};
ghost use Rattle.asn_model.specs.Value.{bag_of, values};
ghost use Rattle.std.specs.Prelude.{◌≡◌, map, IfOk};

use crate::DynValue;
use asn_core::{Bits, OutOfMemory};
use std::alloc::Global;

/// Returns the value of a SET OF with these elements, whose order is of no account.
///
/// # Errors
///
/// `OutOfMemory` alone.
pub fn bag(_alloc: Global, elements: Vec<DynValue>) -> Result<DynValue, OutOfMemory>
    ensures { IfOk result (λ bag. dyn_value bag ≡ bag_of (values dyn_value elements.items)) }
{
    let mut elements = elements;
    elements.sort_by(|left, right| left.compare(right))?;
    Ok(DynValue::Bag(elements))
}

impl DynValue {
    /// Returns an equal value.
    ///
    /// # Errors
    ///
    /// `OutOfMemory` alone.
    #[cycle(copy)]
    pub fn try_clone(&self, alloc: Global) -> Result<DynValue, OutOfMemory>
        ensures { IfOk result (λ copy. dyn_value copy ≡ dyn_value self.now) }
    {
        match self {
            DynValue::Null => Ok(DynValue::Null),
            DynValue::Bool(flag) => Ok(DynValue::Bool(*flag)),
            DynValue::Int(number) => Ok(DynValue::Int(*number)),
            DynValue::Bits { bits, fixed } => Ok(DynValue::Bits {
                bits: copy_of_bits(alloc, bits)?,
                fixed: *fixed,
            }),
            DynValue::Octets(octets) => Ok(DynValue::Octets(octets.to_vec(alloc)?)),
            DynValue::Arcs(arcs) => Ok(DynValue::Arcs(arcs.to_vec(alloc)?)),
            DynValue::Text(text) => Ok(DynValue::Text(text.to_vec(alloc)?)),
            DynValue::Units(units) => Ok(DynValue::Units(units.to_vec(alloc)?)),
            DynValue::Utc(time) => Ok(DynValue::Utc(*time)),
            DynValue::Gen(time) => Ok(DynValue::Gen(*time)),
            DynValue::Day(day) => Ok(DynValue::Day(*day)),
            DynValue::Item(item) => Ok(DynValue::Item(item.clone()?)),
            DynValue::Members(members) => Ok(DynValue::Members(copies_of_members(alloc, members)?)),
            DynValue::List(elements) => Ok(DynValue::List(copies(alloc, elements)?)),
            DynValue::Bag(elements) => Ok(DynValue::Bag(copies(alloc, elements)?)),
            DynValue::Choice { identifier, value } => Ok(DynValue::Choice {
                identifier: identifier.clone()?,
                value: Box::new(alloc, value.try_clone(alloc)?)?,
            }),
        }
    }
}

/// Returns the same bits.
///
/// # Errors
///
/// `OutOfMemory` alone.
fn copy_of_bits(alloc: Global, bits: &Bits) -> Result<Bits, OutOfMemory>
    ensures { IfOk result (λ copy. copy ≡ bits.now) }
{
    let octets = bits.octets().to_vec(alloc)?;
    Ok(Bits::from_first_bits(octets, bits.len()))
}

/// Returns copies of these values, in their order.
///
/// # Errors
///
/// `OutOfMemory` alone.
#[cycle(copy)]
fn copies(alloc: Global, elements: &[DynValue]) -> Result<Vec<DynValue>, OutOfMemory>
    ensures { IfOk result (λ made. map dyn_value made.items ≡ map dyn_value elements.now) }
{
    let mut made = Vec::with_capacity(alloc, elements.len())?;
    for element in elements {
        made.push(element.try_clone(alloc)?)?;
    }
    Ok(made)
}

/// Returns copies of these members, in their order.
///
/// # Errors
///
/// `OutOfMemory` alone.
#[cycle(copy)]
fn copies_of_members(
    alloc: Global,
    members: &[(String, Option<DynValue>)],
) -> Result<Vec<(String, Option<DynValue>)>, OutOfMemory>
    ensures { IfOk result (λ made. map named_value made.items ≡ map named_value members.now) }
{
    let mut made = Vec::with_capacity(alloc, members.len())?;
    for (name, value) in members {
        let copy = match value {
            Some(value) => Some(value.try_clone(alloc)?),
            None => None,
        };
        made.push((name.clone()?, copy))?;
    }
    Ok(made)
}
