//! Cuts a line to what the older version of a type knows.
ghost use Rattle.asn_codec.specs.Conversion.{is_refusal_out_of_memory};
ghost use Rattle.asn_dynamic.specs.Converting.{convert_refusal_of};
ghost use Rattle.asn_filter.specs.Kept.{IsCut};
ghost use Rattle.asn_growth.specs.Grows.{Grows};
ghost use Rattle.asn_model.specs.Readable.{is_readable};
ghost use Rattle.asn_model.specs.ShapeView.{shape_view};
ghost use Rattle.std.specs.Prelude.{◌≡◌, IfOk, OnErr, OnOk, false, true};

use crate::fault::LineFault;
use asn_core::{Codec, OutOfMemory};
use asn_dynamic::{convert, read};
use asn_model::Shape;
use std::alloc::Global;

/// Returns the JSON text of what the older shape knows of a line's value, or why there is none.
///
/// # Errors
///
/// `OutOfMemory` alone.
pub fn cut(
    alloc: Global,
    from: Codec,
    old: &Shape,
    new: &Shape,
    line: &str,
) -> Result<Result<String, LineFault>, OutOfMemory>
    requires readable_old { is_readable (shape_view old.now) ≡ true }
    requires readable_new { is_readable (shape_view new.now) ≡ true }
    requires grown { Grows (shape_view old.now) (shape_view new.now) }
    ensures { IfOk result (IsCut from (shape_view old.now) (shape_view new.now) line.now) }
{
    // The newer shape's value is let go here. Of a line that has one, the older shape reads that
    // value without what it lacks, or it stops at an alternative or item that it lacks.
    if let Err(error) = read(alloc, from, new, line) {
        return Ok(Err(unless_memory(LineFault::Read(error))?));
    }
    match convert(alloc, from, Codec::Jer, old, line) {
        Ok(text) => Ok(Ok(text)),
        Err(fault) => Ok(Err(unless_memory(fault)?)),
    }
}

/// Returns the fault.
///
/// # Errors
///
/// `OutOfMemory` where the fault is that memory ran out.
fn unless_memory(fault: LineFault) -> Result<LineFault, OutOfMemory>
    ensures same { IfOk result (λ f. f ≡ fault) }
    ensures other { OnOk result (is_refusal_out_of_memory (convert_refusal_of fault) ≡ false) }
    ensures memory { OnErr result (is_refusal_out_of_memory (convert_refusal_of fault) ≡ true) }
{
    if fault.is_out_of_memory() {
        Err(OutOfMemory)
    } else {
        Ok(fault)
    }
}
