//! Writes the values of the time types (X.680, sections 38, 46 and 47).
ghost use Rattle.asn_model.specs.Notation.{notation_of};
ghost use Rattle.asn_model.specs.Writable.{outside_years};
ghost use Rattle.asn_types.specs.TextTypes.{IsPutTime, IsEncodeFailure};

use crate::{EncodeText, Encoder};
use asn_core::Codec;
use asn_fault::EncodeError;
use asn_model::Leaf;
use asn_model::words::OUTSIDE_YEARS;
use asn_times::laws::{day_is_held, generalized_is_held, utc_is_held};
use asn_times::{
    Date, GeneralizedTime, TimeFault, UtcTime, write_date, write_generalized, write_utc,
};
use std::alloc::Global;

/// Returns the refusal of a time whose year has no place in its text. Memory may run out.
fn outside_years(alloc: Global, codec: Codec) -> EncodeError
    ensures { IsEncodeFailure (notation_of codec) outside_years result }
{
    match String::from_str(alloc, OUTSIDE_YEARS) {
        Ok(msg) => EncodeError::custom(msg, codec),
        Err(_) => EncodeError::out_of_memory(codec),
    }
}

/// Writes the text of a time, or refuses the time where it has none.
fn put_time<E: Encoder>(
    encoder: &mut E,
    written: Result<String, TimeFault>,
) -> Result<(), EncodeError>
    ensures { IsPutTime E.holds E.notation written encoder.old result encoder.new }
{
    match written {
        Ok(text) => encoder.put_leaf(Leaf::OwnedText(text)),
        Err(TimeFault::OutOfMemory) => Err(EncodeError::out_of_memory(encoder.codec())),
        Err(_) => Err(outside_years(encoder.allocator(), encoder.codec())),
    }
}

/// Writes a UTCTime, whose text has the years 1950 to 2049.
impl EncodeText for UtcTime {
    fn put_text<E: Encoder>(&self, encoder: &mut E) -> Result<(), EncodeError> {
        utc_is_held(self);
        let written = write_utc(encoder.allocator(), self);
        put_time(encoder, written)
    }
}

/// Writes a GeneralizedTime, whose text has the years 0 to 9999.
impl EncodeText for GeneralizedTime {
    fn put_text<E: Encoder>(&self, encoder: &mut E) -> Result<(), EncodeError> {
        generalized_is_held(self);
        let written = write_generalized(encoder.allocator(), self);
        put_time(encoder, written)
    }
}

/// Writes a DATE, whose text has the years 0 to 9999.
impl EncodeText for Date {
    fn put_text<E: Encoder>(&self, encoder: &mut E) -> Result<(), EncodeError> {
        day_is_held(self);
        let written = write_date(encoder.allocator(), self);
        put_time(encoder, written)
    }
}
