//! Converts a text by a type.
ghost use Rattle.asn_command.specs.Conversions.{IsConversion, IsConverted};
ghost use Rattle.asn_model.specs.Readable.{is_readable};
ghost use Rattle.std.specs.Prelude.{◌≡◌, [], IfOk, true};

use asn_core::{Codec, OutOfMemory};
use asn_dynamic::{Part, convert_part};
use asn_replies::{Reply, with_feed};
use asn_value_refusals::{Origin, refusal_lines};
use std::alloc::Global;

/// States how texts are converted: by a type, from one notation to another.
#[derive(Clone, Copy)]
pub struct Conversion<P: Part> {
    /// Shows the type.
    pub part: P,
    /// Names the notation of the text.
    pub from: Codec,
    /// Names the notation that is written.
    pub to: Codec,
    /// States whether a refusal shows the place at which a text is at fault.
    pub explain: bool,
}

/// Returns the canonical text of the value that the text of this origin stands for, or the lines
/// that say why it is refused.
///
/// # Errors
///
/// `OutOfMemory` alone.
pub fn converted<P: Part>(
    alloc: Global,
    conversion: Conversion<P>,
    origin: Origin<'_>,
    text: &str,
) -> Result<Result<String, String>, OutOfMemory>
    requires { is_readable (P.shape [] conversion.part) ≡ true }
    ensures { IfOk result (IsConverted conversion.from conversion.to
        (P.shape [] conversion.part) origin.entry conversion.explain text.now) }
{
    let Conversion {
        part,
        from,
        to,
        explain,
    } = conversion;
    match convert_part(alloc, from, to, part, text) {
        Ok(written) => Ok(Ok(written)),
        Err(error) => {
            if error.is_out_of_memory() {
                return Err(OutOfMemory);
            }
            Ok(Err(refusal_lines(alloc, origin, text, &error, explain)?))
        }
    }
}

/// Returns the canonical text of the value that the text of this origin stands for, with a line
/// feed after it, or the lines that say why it is refused.
///
/// # Errors
///
/// `OutOfMemory` alone.
pub fn conversion_reply<P: Part>(
    alloc: Global,
    conversion: Conversion<P>,
    origin: Origin<'_>,
    text: &str,
) -> Result<Reply, OutOfMemory>
    requires { is_readable (P.shape [] conversion.part) ≡ true }
    ensures { IfOk result (IsConversion conversion.from conversion.to
        (P.shape [] conversion.part) origin.entry conversion.explain text.now) }
{
    match converted(alloc, conversion, origin, text)? {
        Ok(written) => Ok(Reply::Answer(with_feed(written)?)),
        Err(lines) => Ok(Reply::refused(lines)),
    }
}
