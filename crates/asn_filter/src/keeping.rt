//! Cuts each line of a text to what the older version of a type knows.
ghost use Rattle.asn_filter.specs.Kept.{Filtered, StatesDifference, kept_part, refused_part};
ghost use Rattle.asn_filter.specs.Lines.{text_lines};
ghost use Rattle.asn_growth.specs.Grows.{Grows};
ghost use Rattle.asn_growth.specs.Parts.{node_count};
ghost use Rattle.asn_model.specs.Readable.{is_readable};
ghost use Rattle.asn_model.specs.ShapeView.{shape_view};
ghost use Rattle.std.specs.Prelude.{◌≡◌, ◌<◌, ◌^◌, ◌++◌, [], IfOk, OnOk, string_bytes, true};

use crate::cutting::cut;
use crate::fault::{FilterFault, LineFault};
use crate::lines::next_line;
use asn_core::{Codec, OutOfMemory};
use asn_growth::{Growth, grows_check};
use asn_model::Shape;
use std::alloc::Global;

/// Holds what a text was cut to.
#[derive(Debug, Drop)]
pub struct Kept {
    /// Holds the lines that were kept, in JSON, each with a line feed after it.
    pub text: String,
    /// Lists the lines that were not kept, by their numbers from 1, and why.
    pub refused: Vec<(usize, LineFault)>,
}

/// Cuts each line of a text, a value of the newer shape, to what the older shape knows of it, and
/// writes that in JSON. Lines stand between line feeds, with a carriage return before one; what
/// stands after the last one is a line unless it is empty. Under a codec that is no text notation
/// every line is refused. Memory is that of the result and of the longest line.
///
/// # Errors
///
/// `NotGrown` exactly where the newer shape is no later version of the older one, before a line is
/// read, with the first node that differs and why; `OutOfMemory`.
pub fn keep(
    alloc: Global,
    from: Codec,
    old: &Shape,
    new: &Shape,
    input: &str,
) -> Result<Kept, FilterFault>
    requires readable_old { is_readable (shape_view old.now) ≡ true }
    requires readable_new { is_readable (shape_view new.now) ≡ true }
    requires few_nodes { node_count (shape_view old.now) < 2 ^ 32 }
    // Each line is kept or refused as its own text says, in the order of the lines.
    ensures kept { IfOk result (λ k. Filtered from (shape_view old.now) (shape_view new.now) 1
        (text_lines input.now) (string_bytes k.text) k.refused.items) }
    // Lines are read only where the newer shape is a later version.
    ensures grown { OnOk result (Grows (shape_view old.now) (shape_view new.now)) }
    // Where it is none, and only there, the first difference is stated.
    ensures not_grown { StatesDifference (shape_view old.now) (shape_view new.now) result }
{
    match grows_check(old, new) {
        Growth::Grows => Ok(cut_lines(alloc, from, old, new, input)?),
        Growth::Differs { place, reason } => Err(FilterFault::NotGrown { place, reason }),
    }
}

/// Cuts each line.
///
/// # Errors
///
/// `OutOfMemory` alone.
fn cut_lines(
    alloc: Global,
    from: Codec,
    old: &Shape,
    new: &Shape,
    input: &str,
) -> Result<Kept, OutOfMemory>
    requires readable_old { is_readable (shape_view old.now) ≡ true }
    requires readable_new { is_readable (shape_view new.now) ≡ true }
    requires grown { Grows (shape_view old.now) (shape_view new.now) }
    ensures { IfOk result (λ k. Filtered from (shape_view old.now) (shape_view new.now) 1
        (text_lines input.now) (string_bytes k.text) k.refused.items) }
{
    let mut kept = Kept::empty(alloc);
    let mut rest = input;
    let mut number = 0;
    'lines: while let Some((line, after)) = next_line(rest) {
        number += 1;
        let outcome = cut(alloc, from, old, new, line)?;
        kept.add(number, outcome)?;
        rest = after;
    }
    Ok(kept)
}

/// Gathers what lines come to.
impl Kept {
    /// Returns what no line comes to.
    fn empty(alloc: Global) -> Kept
        ensures text { string_bytes result.text ≡ [] }
        ensures refused { result.refused.items ≡ [] }
    {
        Kept {
            text: String::new(alloc),
            refused: Vec::new(alloc),
        }
    }

    /// Adds what the line of this number comes to.
    ///
    /// # Errors
    ///
    /// `OutOfMemory` alone.
    fn add(&mut self, number: usize, outcome: Result<String, LineFault>) -> Result<(), OutOfMemory>
        ensures text { OnOk result (string_bytes self.new.text
            ≡ string_bytes self.old.text ++ kept_part outcome) }
        ensures refused { OnOk result (self.new.refused.items
            ≡ self.old.refused.items ++ refused_part number outcome) }
    {
        match outcome {
            Ok(text) => {
                self.text.push_str(&text)?;
                Ok(self.text.push('\n')?)
            }
            Err(fault) => Ok(self.refused.push((number, fault))?),
        }
    }
}
