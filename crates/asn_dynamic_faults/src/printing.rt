//! Prints errors as a typed reader prints its own.
ghost use Rattle.asn_dynamic_faults.specs.Texts.{closing, closings, dyn_error_text, dyn_kind_text};
ghost use Rattle.asn_dynamic_faults.specs.Texts.{opening, openings};
ghost use Rattle.std.specs.Fmt.{WritesOnOk};
ghost use Rattle.std.specs.Prelude.{Some};

use crate::errors::{DynError, DynKind, Step};
use asn_core::Codec;
use std::error::Error;
use std::fmt;

/// Prints the kind with the words of a typed reader.
impl fmt::Display for DynKind {
    ghost output = { λ kind. Some (dyn_kind_text kind) };

    fn fmt<W: fmt::Write>(&self, f: &mut fmt::Formatter<W>) -> fmt::Result {
        match self {
            DynKind::MissingField(name) => write!(f, "Missing field `{name}`"),
            DynKind::DuplicateField(name) => write!(f, "Duplicate field for `{name}`"),
            DynKind::NoValues(_) => f.write_str("The type has no values that can be read"),
            DynKind::Other(kind) => kind.fmt(f),
        }
    }
}

/// Prints the fields on the way, the kind with its codec, and the notation of each field.
impl fmt::Display for DynError {
    ghost output = { λ error. Some (dyn_error_text error) };

    fn fmt<W: fmt::Write>(&self, f: &mut fmt::Formatter<W>) -> fmt::Result {
        let path = self.path.as_slice();
        write_openings(path, f)?;
        write!(f, "{} (Codec: {})", self.kind, self.codec)?;
        write_closings(path, self.notation, f)
    }
}

/// Has no source: the text has all of the error.
impl Error for DynError {}

/// Writes for each field on the way that the error is in it.
fn write_openings<W: fmt::Write>(path: &[Step], f: &mut fmt::Formatter<W>) -> fmt::Result
    ensures { WritesOnOk W.write_str_gives f.old result (openings path.now) f.new }
{
    for step in path {
        write_opening(step, f)?;
    }
    Ok(())
}

/// Writes that the error is in the field, where the step goes to one.
fn write_opening<W: fmt::Write>(step: &Step, f: &mut fmt::Formatter<W>) -> fmt::Result
    ensures { WritesOnOk W.write_str_gives f.old result (opening step.now) f.new }
{
    match step {
        Step::Field(name) => write!(f, "Error when decoding field `{name}`: "),
        Step::Alternative(_) => Ok(()),
        Step::Element(_) => Ok(()),
    }
}

/// Writes the codec of each field on the way.
fn write_closings<W: fmt::Write>(
    path: &[Step],
    codec: Codec,
    f: &mut fmt::Formatter<W>,
) -> fmt::Result
    ensures { WritesOnOk W.write_str_gives f.old result (closings codec path.now) f.new }
{
    for step in path {
        write_closing(step, codec, f)?;
    }
    Ok(())
}

/// Writes the codec, where the step goes to a field.
fn write_closing<W: fmt::Write>(step: &Step, codec: Codec, f: &mut fmt::Formatter<W>) -> fmt::Result
    ensures { WritesOnOk W.write_str_gives f.old result (closing codec step.now) f.new }
{
    match step {
        Step::Field(_) => write!(f, " (Codec: {codec})"),
        Step::Alternative(_) => Ok(()),
        Step::Element(_) => Ok(()),
    }
}
