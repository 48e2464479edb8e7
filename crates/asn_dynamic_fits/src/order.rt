//! Tells the elements of a SET OF and the entries of a table that stand as they have to.
ghost use Rattle.asn_dynamic_values.specs.DynView.{dyn_value};
ghost use Rattle.asn_model.specs.Value.{keys_rise, sort_values, values};
ghost use Rattle.std.specs.Prelude.{◌≡◌, Decides};

use asn_dynamic_values::{DynValue, key_of};

/// Returns whether elements stand in the order of values.
pub fn are_in_order(elements: &[DynValue]) -> bool
    ensures { Decides result
        (sort_values (values dyn_value elements.now) ≡ values dyn_value elements.now) }
{
    elements.is_sorted_by(|left, right| left.compare(right).is_le())
}

/// Returns whether the keys of entries rise.
pub fn do_keys_rise(entries: &[DynValue]) -> bool
    ensures { result ≡ keys_rise (values dyn_value entries.now) }
{
    entries.is_sorted_by(|left, right| key_of(left).cmp(key_of(right)).is_lt())
}
