//! Makes values of a table: a list of entries in which the last one of a key counts.
ghost use Rattle.asn_dynamic_values.specs.DynView.{dyn_value};
ghost use Rattle.asn_dynamic_values.specs.Order.{ties_with};
ghost use Rattle.asn_model.specs.Value.{Value, key_of, table_of, values};
ghost use Rattle.std.specs.Prelude.{◌≡◌, IfOk, option_map};

use crate::DynValue;
use asn_core::OutOfMemory;
use std::alloc::Global;
use std::cmp::Ordering;

/// Returns the value of a table with these entries: the last one of each key, in byte order of
/// keys.
///
/// # Errors
///
/// `OutOfMemory` alone.
pub fn table(alloc: Global, entries: Vec<DynValue>) -> Result<DynValue, OutOfMemory>
    ensures { IfOk result (λ table. dyn_value table
        ≡ Value.list (table_of (values dyn_value entries.items))) }
{
    let mut entries = entries;
    // Entries of one key stay in their order.
    entries.sort_by(|left, right| key_of(left).cmp(key_of(right)))?;
    let mut lasts: Vec<DynValue> = Vec::with_capacity(alloc, entries.len())?;
    for entry in entries {
        if has_key(lasts.last(), &entry) {
            lasts.truncate(lasts.len() - 1);
        }
        lasts.push(entry)?;
    }
    Ok(DynValue::List(lasts))
}

/// Returns the key of an entry: the text of its first member. It is empty where there is none.
pub fn key_of(entry: &DynValue) -> &[u8]
    ensures { result.now ≡ key_of (dyn_value entry.now) }
{
    match entry {
        DynValue::Members(members) => match members.first() {
            Some((_, Some(DynValue::Text(key)))) => key.as_slice(),
            _ => &[],
        },
        _ => &[],
    }
}

/// Returns whether there is a last entry, and it has the key of this one.
fn has_key(last: Option<&DynValue>, entry: &DynValue) -> bool
    ensures { result ≡ ties_with (option_map (λ v. dyn_value v.now) last.entry)
        (dyn_value entry.now) }
{
    match last {
        Some(last) => key_of(last).cmp(key_of(entry)) == Ordering::Equal,
        None => false,
    }
}
