//! Shows what a value has inside, where it is of a kind.
ghost use Rattle.asn_dynamic_fits.specs.Contents.{bag_in, choice_in, item_in, list_in};
ghost use Rattle.asn_dynamic_fits.specs.Contents.{members_in};
ghost use Rattle.asn_dynamic_values.specs.DynView.{dyn_value, members_named, named_value};
ghost use Rattle.asn_model.specs.Value.{values};
ghost use Rattle.std.specs.Prelude.{◌≡◌, map, option_map};

use asn_dynamic_values::DynValue;

/// Returns the identifier of an item of an ENUMERATED, and `None` of another kind.
pub fn item_of(value: &DynValue) -> Option<&str>
    ensures { option_map (λ i. i.now) result ≡ item_in (dyn_value value.now) }
{
    match value {
        DynValue::Item(item) => Some(item.as_str()),
        _ => None,
    }
}

/// Returns the elements of a SEQUENCE OF or the entries of a table, and `None` of another kind.
pub fn list_of(value: &DynValue) -> Option<&[DynValue]>
    ensures { option_map (λ vs. values dyn_value vs.now) result ≡ list_in (dyn_value value.now) }
{
    match value {
        DynValue::List(elements) => Some(elements.as_slice()),
        _ => None,
    }
}

/// Returns the elements of a SET OF, and `None` of another kind.
pub fn bag_of(value: &DynValue) -> Option<&[DynValue]>
    ensures { option_map (λ vs. values dyn_value vs.now) result ≡ bag_in (dyn_value value.now) }
{
    match value {
        DynValue::Bag(elements) => Some(elements.as_slice()),
        _ => None,
    }
}

/// Returns the members of a SEQUENCE or SET, and `None` of another kind.
pub fn members_of(value: &DynValue) -> Option<&[(String, Option<DynValue>)]>
    ensures { option_map (λ ms. members_named (map named_value ms.now)) result
        ≡ members_in (dyn_value value.now) }
{
    match value {
        DynValue::Members(members) => Some(members.as_slice()),
        _ => None,
    }
}

/// Shows a value of a CHOICE.
#[derive(Clone, Copy)]
pub struct Chosen<'a> {
    /// Holds the identifier of the alternative.
    pub identifier: &'a str,
    /// Shows the payload.
    pub payload: &'a DynValue,
}

/// Returns what a CHOICE holds, and `None` of another kind.
pub fn choice_of(value: &DynValue) -> Option<Chosen<'_>>
    ensures { option_map (λ c. (c.identifier.now, dyn_value c.payload.now)) result
        ≡ choice_in (dyn_value value.now) }
{
    match value {
        DynValue::Choice { identifier, value } => Some(Chosen {
            identifier: identifier.as_str(),
            payload: &**value,
        }),
        _ => None,
    }
}
