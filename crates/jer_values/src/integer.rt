//! Defines the numbers of JER.
ghost use Rattle.jer_values.specs.Whole.{is_whole};
ghost use Rattle.serde_json.specs.Data.{Num};
ghost use Rattle.serde_json.specs.Events.{number_event};
ghost use Rattle.serde_json.specs.Find.{of_integer};
ghost use Rattle.serde_json.specs.View.{number_view};
ghost use Rattle.serde.specs.Event.{Logs};
ghost use Rattle.std.specs.Int.{w64, FitsUnsigned};
ghost use Rattle.std.specs.Prelude.{◌≡◌, true, FitsSigned, MatchOption};

use serde::{Described, Serialize, Serializer};
use serde_json::Number;

/// Holds a whole number that an `i64` or a `u64` has, which are those that JER writes.
#[derive(Drop)]
pub struct JsonInteger {
    /// A number that is whole.
    number: Number,
    ghost whole: { is_whole (number_view number) ≡ true },
}

/// Makes numbers, and gives them to `serde_json`.
impl JsonInteger {
    /// Returns the number, or `None` exactly where neither an `i64` nor a `u64` has it.
    pub fn from_i128(value: i128) -> Option<JsonInteger>
        ensures { MatchOption result (¬ FitsUnsigned w64 value × ¬ FitsSigned w64 value)
            (λ n. number_view n.number ≡ of_integer value) }
    {
        if value < -0x8000_0000_0000_0000 || value > 0xFFFF_FFFF_FFFF_FFFF {
            return None;
        }
        let number = Number::from_i128(value)?;
        Some(JsonInteger { number })
    }

    /// Returns the number of a length.
    pub fn from_usize(value: usize) -> JsonInteger
        ensures { number_view result.number ≡ Num.unsigned value }
    {
        JsonInteger {
            number: Number::from(value),
        }
    }

    /// Returns the number as `serde_json` has it.
    pub fn number(&self) -> Number
        ensures { number_view result ≡ number_view self.now.number }
    {
        self.number
    }
}

impl Described for JsonInteger {
    ghost writes = { λ n old new. Logs old new (number_event (number_view n.number)) };
}

impl Serialize for JsonInteger {
    fn serialize<S: Serializer>(&self, out: &mut S) -> Result<(), S::Error> {
        self.number.serialize(out)
    }
}
