//! Defines what a version of the sample `Tree` has after its extension marker.
ghost use Rattle.asn_fault.specs.Failure.{failure_of};
ghost use Rattle.asn_model.specs.Components.{Standing, components};
ghost use Rattle.asn_model.specs.Readable.{is_readable};
ghost use Rattle.asn_sample_trees.specs.TreeShape.{tree_shape};
ghost use Rattle.asn_coding.specs.FieldAnswer.Ahead.{ahead};
ghost use Rattle.asn_coding.specs.Passing.{AddsFields, RefusesAdding, RefusesFields, TakesFields};
ghost use Rattle.asn_traits.specs.Shape.{Shape, Fields, fill_fields};
ghost use Rattle.asn_traits.specs.ShapeView.{field_views};
ghost use Rattle.asn_coding.specs.Tables.{field_rows, rows_of};
ghost use Rattle.asn_coding.specs.Writing.{Frame};
ghost use Rattle.std.specs.Prelude.{◌≡◌, IfErr, IfOk, OnOk, true};

use asn_core::OutOfMemory;
use asn_fault::{DecodeError, EncodeError};
use asn_fields::FieldShapes;
use asn_traits::{Decoder, Encoder, Field, FieldNames};
use std::alloc::Global;

/// Describes the extension additions of a version of `Tree`, which hold no tree, as
/// `SequenceFields` does for a type that does not hold itself.
pub trait TreeAdditions: Sized + Drop {
    // The extension additions, each with its name, tag, presence and the shape of its type.
    ghost fields: { Fields };

    // Their values, in order: one slot for each, absent where the addition is.
    ghost slots: { Self → Frame };

    /// Returns the table of the additions, whose places go on from that of `kids`.
    fn listed() -> &'static [Field]
        ensures { rows_of result.now ≡ field_rows 1 fields };

    /// Returns the additions with the shapes of their types.
    ///
    /// # Errors
    ///
    /// `OutOfMemory` alone.
    fn shapes(alloc: Global) -> Result<FieldShapes, OutOfMemory>
        ensures { IfOk result (λ s. field_views s.items.items ≡ fields) };

    /// Encodes the additions, by one call of `write_optional_field` for each, in order.
    ///
    /// # Errors
    ///
    /// Those of the first addition that can't be encoded.
    fn write<E: Encoder>(&self, encoder: &mut E) -> Result<(), EncodeError>
        ensures written { OnOk result (AddsFields E.holds E.notation fields (slots self.now)
            encoder.old encoder.new) }
        ensures refused { IfErr result (RefusesAdding E.holds E.notation fields (slots self.now)
            encoder.old) };

    /// Decodes the additions, by one call of `read_optional_field` for each, in order.
    ///
    /// # Errors
    ///
    /// Those of the first addition that can't be decoded, within its `FieldError`.
    fn read<D: Decoder>(decoder: &mut D, names: &mut FieldNames) -> Result<Self, DecodeError>
        ensures read { IfOk result (λ x. TakesFields D.notation
            (components Standing.addition fields) (slots x)
            (ahead names.old (D.pending decoder.old))
            (ahead names.new (D.pending decoder.new))) }
        ensures refused { IfErr result (λ e. RefusesFields D.notation
            (components Standing.addition fields) (ahead names.old (D.pending decoder.old))
            (failure_of e)) };

    // The additions are the same within the loop that the shape of the tree is.
    ghost fixed: { (r : Shape) → fill_fields fields 0 r ≡ fields };

    // The shape of the tree can be read.
    ghost readable: { is_readable (tree_shape fields) ≡ true };
}
