//! The one total order on values: by kind, then by contents from left to right. The elements of a
//! SET OF stand in it.
ghost use Rattle.asn_dynamic_values.specs.DynView.{dyn_value, members_named, named_value};
ghost use Rattle.asn_dynamic_values.specs.Order.{contents_cmp, elements_cmp, kind_number};
ghost use Rattle.asn_dynamic_values.specs.Order.{members_cmp, size_cmp};
ghost use Rattle.asn_core.specs.Numbers.{signed};
ghost use Rattle.asn_model.specs.Value.{value_cmp, values};
ghost use Rattle.std.specs.Cmp.Lexicographic.{slice_cmp};
ghost use Rattle.std.specs.Ordering.{bool_cmp, int_cmp, nat_cmp};
ghost use Rattle.std.specs.Prelude.{◌≡◌, map};

use crate::DynValue;
use asn_core::{Bits, WholeNumber};
use std::cmp::Ordering;

impl DynValue {
    /// Returns the number of the value's kind, by which kinds are ordered.
    fn kind_number(&self) -> u8
        ensures { result ≡ kind_number (dyn_value self.now) }
    {
        match self {
            DynValue::Null => 0,
            DynValue::Bool(_) => 1,
            DynValue::Int(_) => 2,
            DynValue::Bits { .. } => 3,
            DynValue::Octets(_) => 4,
            DynValue::Arcs(_) => 5,
            DynValue::Text(_) => 6,
            DynValue::Units(_) => 7,
            DynValue::Utc(_) => 8,
            DynValue::Gen(_) => 9,
            DynValue::Day(_) => 10,
            DynValue::Item(_) => 11,
            DynValue::Members(_) => 12,
            DynValue::List(_) => 13,
            DynValue::Bag(_) => 14,
            DynValue::Choice { .. } => 15,
        }
    }

    /// Compares two values in the order of values. It takes no memory.
    #[cycle(compare)]
    pub fn compare(&self, other: &DynValue) -> Ordering
        ensures { result ≡ value_cmp (dyn_value self.now) (dyn_value other.now) }
    {
        match self.kind_number().cmp(&other.kind_number()) {
            Ordering::Equal => self.compare_contents(other),
            unequal => unequal,
        }
    }

    /// Compares the contents of two values, which are of one kind.
    #[cycle(compare)]
    fn compare_contents(&self, other: &DynValue) -> Ordering
        ensures { result ≡ contents_cmp (dyn_value self.now) (dyn_value other.now) }
    {
        match (self, other) {
            (DynValue::Bool(left), DynValue::Bool(right)) => left.cmp(right),
            (DynValue::Int(left), DynValue::Int(right)) => compare_numbers(*left, *right),
            (
                DynValue::Bits { bits: left, fixed },
                DynValue::Bits {
                    bits: right,
                    fixed: other_fixed,
                },
            ) => compare_bits(left, right).then(compare_sizes(*fixed, *other_fixed)),
            (DynValue::Octets(left), DynValue::Octets(right)) => left.cmp(right),
            (DynValue::Arcs(left), DynValue::Arcs(right)) => left.cmp(right),
            (DynValue::Text(left), DynValue::Text(right)) => left.cmp(right),
            (DynValue::Units(left), DynValue::Units(right)) => left.cmp(right),
            (DynValue::Utc(left), DynValue::Utc(right)) => left.seconds().cmp(&right.seconds()),
            (DynValue::Gen(left), DynValue::Gen(right)) => {
                left.nanoseconds().cmp(&right.nanoseconds())
            }
            (DynValue::Day(left), DynValue::Day(right)) => left.days().cmp(&right.days()),
            (DynValue::Item(left), DynValue::Item(right)) => left.cmp(right),
            (DynValue::Members(left), DynValue::Members(right)) => compare_members(left, right),
            (DynValue::List(left), DynValue::List(right)) => compare_elements(left, right),
            (DynValue::Bag(left), DynValue::Bag(right)) => compare_elements(left, right),
            (
                DynValue::Choice { identifier, value },
                DynValue::Choice {
                    identifier: other_identifier,
                    value: other_value,
                },
            ) => identifier
                .cmp(other_identifier)
                .then(value.compare(other_value)),
            // NULL has no contents.
            _ => Ordering::Equal,
        }
    }
}

/// Compares two whole numbers.
pub fn compare_numbers(left: WholeNumber, right: WholeNumber) -> Ordering
    ensures { result ≡ int_cmp (signed left.negative left.magnitude)
        (signed right.negative right.magnitude) }
{
    let is_below = left.negative && left.magnitude > 0;
    match (is_below, right.negative && right.magnitude > 0) {
        (false, false) => left.magnitude.cmp(&right.magnitude),
        (false, true) => Ordering::Greater,
        (true, false) => Ordering::Less,
        (true, true) => right.magnitude.cmp(&left.magnitude),
    }
}

/// Compares two bit strings, the first bits first.
fn compare_bits(left: &Bits, right: &Bits) -> Ordering
    ensures { result ≡ slice_cmp bool_cmp left.now right.now }
{
    for place in 0..left.len() {
        let (Some(bit), Some(other)) = (left.get(place), right.get(place)) else {
            return Ordering::Greater;
        };
        if bit != other {
            return bit.cmp(&other);
        }
    }
    match right.get(left.len()) {
        Some(_) => Ordering::Less,
        None => Ordering::Equal,
    }
}

/// Compares two sizes, of which none is below any.
fn compare_sizes(left: Option<usize>, right: Option<usize>) -> Ordering
    ensures { result ≡ size_cmp left right }
{
    match (left, right) {
        (None, None) => Ordering::Equal,
        (None, Some(_)) => Ordering::Less,
        (Some(_), None) => Ordering::Greater,
        (Some(left), Some(right)) => left.cmp(&right),
    }
}

/// Compares elements, the first ones first.
#[cycle(compare)]
fn compare_elements(left: &[DynValue], right: &[DynValue]) -> Ordering
    ensures { result ≡ elements_cmp (values dyn_value left.now) (values dyn_value right.now) }
{
    let mut others = right.iter();
    for element in left {
        let Some(other) = others.next() else {
            return Ordering::Greater;
        };
        match element.compare(other) {
            Ordering::Equal => {}
            unequal => return unequal,
        }
    }
    match others.next() {
        Some(_) => Ordering::Less,
        None => Ordering::Equal,
    }
}

/// Compares members, the first ones first: by name, then an absent one is below one that is
/// present, and then by value.
#[cycle(compare)]
fn compare_members(
    left: &[(String, Option<DynValue>)],
    right: &[(String, Option<DynValue>)],
) -> Ordering
    ensures { result ≡ members_cmp (members_named (map named_value left.now))
        (members_named (map named_value right.now)) }
{
    let mut others = right.iter();
    for (name, value) in left {
        let Some((other_name, other_value)) = others.next() else {
            return Ordering::Greater;
        };
        let by_name = name.cmp(other_name);
        if by_name != Ordering::Equal {
            return by_name;
        }
        let by_value = match (value, other_value) {
            (None, None) => Ordering::Equal,
            (None, Some(_)) => Ordering::Less,
            (Some(_), None) => Ordering::Greater,
            (Some(member), Some(other)) => member.compare(other),
        };
        if by_value != Ordering::Equal {
            return by_value;
        }
    }
    match others.next() {
        Some(_) => Ordering::Less,
        None => Ordering::Equal,
    }
}
