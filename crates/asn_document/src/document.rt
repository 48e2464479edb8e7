//! Defines a JSON document: a JSON value without floats.
ghost use Rattle.serde_json.specs.View.{view};
ghost use Rattle.serde_json.specs.Written.{has_float};
ghost use Rattle.std.specs.Prelude.{◌≡◌, true, false, IfErr, IfOk};

use json_floats::holds_float;
use serde_json::Value;

/// Holds a JSON value each of whose numbers is an `i64` or a `u64`.
#[derive(Drop)]
pub struct Document {
    /// Holds the value.
    value: Value,
    ghost whole: { has_float (view value) ≡ false },
}

/// Makes a document of a JSON value, and gives the value back. Values are moved.
impl Document {
    /// Returns the document that is this value.
    ///
    /// # Errors
    ///
    /// The value itself, exactly where it holds a float.
    pub fn from_value(value: Value) -> Result<Document, Value>
        ensures taken { IfOk result (λ d. (d.value ≡ value) × (has_float (view value) ≡ false)) }
        ensures back { IfErr result (λ v. (v ≡ value) × (has_float (view value) ≡ true)) }
    {
        if holds_float(&value) {
            Err(value)
        } else {
            Ok(Document { value })
        }
    }

    /// Returns the document that is this value, which holds no float.
    pub(crate) fn of_whole(value: Value) -> Document
        requires { has_float (view value) ≡ false }
        ensures { result.value ≡ value }
    {
        Document { value }
    }

    /// Returns the JSON value.
    pub fn value(&self) -> &Value
        ensures is { result.now ≡ self.now.value }
        ensures whole { has_float (view result.now) ≡ false }
    {
        &self.value
    }

    /// Returns the JSON value, which is moved out.
    pub fn into_value(self) -> Value
        ensures is { result ≡ self.value }
        ensures whole { has_float (view result) ≡ false }
    {
        self.value
    }
}
