//! Makes values without parts, which are held as their Rust types hold them.
ghost use Rattle.asn_dynamic_reading.specs.fitting.HeldValue.{IsHeldValue};
ghost use Rattle.asn_dynamic_values.specs.DynView.{dyn_value};
ghost use Rattle.asn_model.specs.Value.{Value};
ghost use Rattle.std.specs.Prelude.{◌≡◌, string_bytes};

use asn_dynamic_values::DynValue;
use asn_model::{are_arcs, are_octets};
use asn_times::laws::{day_is_held, generalized_is_held, utc_is_held};
use asn_times::{Date, GeneralizedTime, UtcTime};

/// Returns the value of an OCTET STRING, or of any type.
pub fn octets_value(octets: Vec<u8>) -> DynValue
    ensures value { dyn_value result ≡ Value.octets octets.items }
    ensures held { IsHeldValue (dyn_value result) }
{
    are_octets(octets.as_slice());
    DynValue::Octets(octets)
}

/// Returns the value of an OBJECT IDENTIFIER.
pub fn arcs_value(arcs: Vec<u32>) -> DynValue
    ensures value { dyn_value result ≡ Value.arcs arcs.items }
    ensures held { IsHeldValue (dyn_value result) }
{
    are_arcs(arcs.as_slice());
    DynValue::Arcs(arcs)
}

/// Returns the value of a character string.
pub fn text_value(text: String) -> DynValue
    ensures value { dyn_value result ≡ Value.text (string_bytes text) }
    ensures held { IsHeldValue (dyn_value result) }
{
    let bytes = text.into_bytes();
    are_octets(bytes.as_slice());
    DynValue::Text(bytes)
}

/// Returns the value of a UTCTime.
pub fn utc_value(time: UtcTime) -> DynValue
    ensures value { dyn_value result ≡ Value.utc time }
    ensures held { IsHeldValue (dyn_value result) }
{
    utc_is_held(&time);
    DynValue::Utc(time)
}

/// Returns the value of a GeneralizedTime.
pub fn gen_value(time: GeneralizedTime) -> DynValue
    ensures value { dyn_value result ≡ Value.gen time }
    ensures held { IsHeldValue (dyn_value result) }
{
    generalized_is_held(&time);
    DynValue::Gen(time)
}

/// Returns the value of a DATE.
pub fn day_value(day: Date) -> DynValue
    ensures value { dyn_value result ≡ Value.day day }
    ensures held { IsHeldValue (dyn_value result) }
{
    day_is_held(&day);
    DynValue::Day(day)
}
