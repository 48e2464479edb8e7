//! States the laws of the texts of times, each as the contract of a function that does nothing:
//! what is written is read again, a text means one time, and a time has one written text. A text
//! that was read may differ from the written one, as by a zone.
ghost use Rattle.std.specs.Prelude.{◌≡◌, ◌↔◌, ℕ, List, ℤ, IsUtf8, Some, true};
ghost use Rattle.asn_times.specs.Days.{DayReads, IsInDayYears};
ghost use Rattle.asn_times.specs.Generalized.{GeneralizedReads, GeneralizedWritten};
ghost use Rattle.asn_times.specs.Generalized.{IsInGeneralizedYears};
ghost use Rattle.asn_times.specs.Held.{is_held_day, is_held_nanosecond, is_held_second};
ghost use Rattle.asn_times.specs.Meanings.{day_of_text, generalized_of_text, utc_of_text};
ghost use Rattle.asn_times.specs.Utc.{IsInUtcYears, UtcReads, UtcWritten};
ghost use Rattle.asn_times.specs.Written.{day_text, generalized_text, utc_text};

use crate::{Date, GeneralizedTime, UtcTime};

/// The written text of a day within its years means that day.
pub fn written_day_reads()
    ensures { (n : ℤ) → IsInDayYears n → DayReads (day_text n) n }
{}

/// A text of DATE means at most one day.
pub fn one_day()
    ensures { (text : List ℕ) (n other : ℤ) → DayReads text n → DayReads text other → n ≡ other }
{}

/// A day has one text, which is both read and written.
pub fn one_day_text()
    ensures { (n : ℤ) (text other : List ℕ) → DayReads text n → DayReads other n → text ≡ other }
{}

/// A moment of UTCTime within its years has a written text, which means that moment.
pub fn written_utc_reads()
    ensures written { (n : ℤ) → IsInUtcYears n → UtcWritten n (utc_text n) }
    ensures reads { (n : ℤ) → IsInUtcYears n → UtcReads (utc_text n) n }
{}

/// A text of UTCTime means at most one moment.
pub fn one_utc_moment()
    ensures { (text : List ℕ) (n other : ℤ) → UtcReads text n → UtcReads text other → n ≡ other }
{}

/// A moment of UTCTime has one written text.
pub fn one_utc_text()
    ensures { (n : ℤ) (text other : List ℕ)
        → UtcWritten n text → UtcWritten n other → text ≡ other }
{}

/// A moment of GeneralizedTime within its years has a written text, which means that moment.
pub fn written_generalized_reads()
    ensures written { (n : ℤ) → IsInGeneralizedYears n → GeneralizedWritten n (generalized_text n) }
    ensures reads { (n : ℤ) → IsInGeneralizedYears n → GeneralizedReads (generalized_text n) n }
{}

/// A text of GeneralizedTime means at most one moment.
pub fn one_generalized_moment()
    ensures { (text : List ℕ) (n other : ℤ)
        → GeneralizedReads text n → GeneralizedReads text other → n ≡ other }
{}

/// A moment of GeneralizedTime has one written text.
pub fn one_generalized_text()
    ensures { (n : ℤ) (text other : List ℕ)
        → GeneralizedWritten n text → GeneralizedWritten n other → text ≡ other }
{}

/// A text means what the functions from texts to numbers say.
pub fn meanings_are_functions()
    ensures day { (text : List ℕ) (n : ℤ) → DayReads text n ↔ (day_of_text text ≡ Some n) }
    ensures utc { (text : List ℕ) (n : ℤ) → UtcReads text n ↔ (utc_of_text text ≡ Some n) }
    ensures generalized { (text : List ℕ) (n : ℤ)
        → GeneralizedReads text n ↔ (generalized_of_text text ≡ Some n) }
{}

/// The written texts are UTF-8.
pub fn written_texts_are_utf8()
    ensures day { (n : ℤ) → IsInDayYears n → IsUtf8 (day_text n) }
    ensures utc { (n : ℤ) → IsInUtcYears n → IsUtf8 (utc_text n) }
    ensures generalized { (n : ℤ) → IsInGeneralizedYears n → IsUtf8 (generalized_text n) }
{}

/// A DATE lies in the years -9999 to 9999.
pub fn day_is_held(day: &Date)
    ensures { is_held_day day.now ≡ true }
{
    let _days = day.days();
}

/// A UTCTime lies in the years -9999 to 9999.
pub fn utc_is_held(time: &UtcTime)
    ensures { is_held_second time.now ≡ true }
{
    let _seconds = time.seconds();
}

/// A GeneralizedTime lies in the years -9999 to 9999.
pub fn generalized_is_held(time: &GeneralizedTime)
    ensures { is_held_nanosecond time.now ≡ true }
{
    let _nanoseconds = time.nanoseconds();
}
