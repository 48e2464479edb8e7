//! Writes values as text.
ghost use Rattle.jer_values.specs.Order.{IsOrdered};
ghost use Rattle.jer_values.specs.Views.{data_of};
ghost use Rattle.serde_json.specs.Data.{depth};
ghost use Rattle.serde_json.specs.Read.{max_depth, read};
ghost use Rattle.serde_json.specs.Written.{compact_text};
ghost use Rattle.std.specs.Prelude.{◌≡◌, ◌≤◌, Some, IfOk, string_bytes};

use crate::JerValue;
use std::alloc::{AllocError, Global};

/// Writes a value.
impl JerValue {
    /// Returns the compact text of the value.
    ///
    /// # Errors
    ///
    /// `AllocError` where memory is refused.
    pub fn to_text(&self, alloc: Global) -> Result<String, AllocError>
        ensures text { IfOk result (λ s. string_bytes s ≡ compact_text (data_of self.now)) }
        // It is read as the value, where its members are in order and it nests no deeper than
        // JSON is read.
        ensures reads_back { IfOk result (λ s. IsOrdered (data_of self.now)
            → depth (data_of self.now) ≤ max_depth
            → read (string_bytes s) ≡ Some (data_of self.now)) }
    {
        match serde_json::to_string(alloc, self) {
            Ok(text) => Ok(text),
            Err(_) => Err(AllocError),
        }
    }
}
