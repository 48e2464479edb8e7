//! Makes the document of a request `make`, and reports on its texts: it is written in JER, that
//! text is converted to AVN, and that one back to JER.
ghost use Rattle.asn_convert.specs.Made.{IsRelayed, TextLengths, made, made_key, made_value};
ghost use Rattle.asn_convert.specs.Made.{report};
ghost use Rattle.asn_convert.specs.declared.limits.TheConstants.{MOST_ENTRIES};
ghost use Rattle.asn_codec.specs.Conversion.{is_refusal_out_of_memory, refusal_of};
ghost use Rattle.serde_json.specs.View.{view};
ghost use Rattle.std.specs.Prelude.{◌≡◌, ◌≤◌, ◌<◌, IfErr, IfOk, string_bytes, true};

use asn_codec::{CodecCalls, TranscodeError, transcode};
use asn_core::{Codec, OutOfMemory};
use asn_document::Document;
use asn_traits::{Decode, Encode};
use serde_json::{Map, Number, Value};
use std::alloc::Global;

/// Holds the lengths, in bytes, of three texts of one value.
#[derive(Clone, Copy, Drop)]
struct Lengths {
    /// Counts those of the text in JER.
    jer: usize,
    /// Counts those of the text in AVN.
    avn: usize,
    /// Counts those of the text in JER that was made of the text in AVN.
    back: usize,
}

/// Returns the report on the document with so many entries.
///
/// # Errors
///
/// `OutOfMemory` alone.
pub fn report_on(alloc: Global, entries: u32) -> Result<String, OutOfMemory>
    requires { entries ≤ MOST_ENTRIES }
    ensures { IfOk result (λ lines. string_bytes lines ≡ report entries) }
{
    let document = document(alloc, entries)?;
    // The document is read and written in both notations, so only memory can run out.
    let Ok(lengths) = relay(alloc, &document) else {
        return Err(OutOfMemory);
    };
    let Lengths { jer, avn, back } = lengths;
    Ok(format!(in alloc; "entries {entries}\njer {jer}\navn {avn}\nback {back}\n")?)
}

/// Writes a value in JER, converts that text to AVN and that one back to JER, and returns the
/// lengths of the three.
///
/// # Errors
///
/// Why one of the texts is refused. A value that both notations can write, and whose texts nest no
/// deeper than they are read, is refused for lack of memory alone.
fn relay<T: Encode + Decode>(alloc: Global, value: &T) -> Result<Lengths, TranscodeError>
    ensures lengths { IsRelayed (T.value_of value.now)
        → IfOk result (λ l. TextLengths (T.value_of value.now) l.jer l.avn l.back) }
    ensures complete { IsRelayed (T.value_of value.now)
        → IfErr result (λ e. is_refusal_out_of_memory (refusal_of e) ≡ true) }
{
    let jer = match Codec::Jer.encode_to_string(alloc, value) {
        Ok(text) => text,
        Err(error) => return Err(TranscodeError::Encode(error)),
    };
    let avn = transcode::<T>(alloc, Codec::Jer, Codec::Avn, jer.as_str())?;
    let back = transcode::<T>(alloc, Codec::Avn, Codec::Jer, avn.as_str())?;
    Ok(Lengths {
        jer: jer.as_str().len(),
        avn: avn.as_str().len(),
        back: back.as_str().len(),
    })
}

/// Returns the document that is an object with so many entries.
///
/// # Errors
///
/// `OutOfMemory` alone.
fn document(alloc: Global, entries: u32) -> Result<Document, OutOfMemory>
    requires { entries ≤ MOST_ENTRIES }
    ensures { IfOk result (λ d. view d.value ≡ made entries) }
{
    let mut members = Map::new(alloc);
    for place in 0..entries {
        let key = format!(in alloc; "k{place}")?;
        members.insert(key, entry(alloc, place)?)?;
    }
    match Document::from_value(Value::Object(members)) {
        Ok(document) => Ok(document),
        // None of its values is a float.
        Err(_) => unreachable!(),
    }
}

/// Returns the value of the entry at this place.
///
/// # Errors
///
/// `OutOfMemory` alone.
fn entry(alloc: Global, place: u32) -> Result<Value, OutOfMemory>
    requires { place < MOST_ENTRIES }
    ensures { IfOk result (λ v. view v ≡ made_value place) }
{
    match place % 4 {
        0 => Ok(Value::Number(Number::from(place as i64 * place as i64 - 1000))),
        1 => Ok(Value::String(format!(in alloc; "v{place}")?)),
        2 => {
            let mut items = Vec::with_capacity(alloc, 2)?;
            items.push(Value::Bool(place % 8 == 2))?;
            items.push(Value::Null)?;
            Ok(Value::Array(items))
        }
        _ => Ok(Value::Number(Number::from((1 << 63) + place as u64))),
    }
}
