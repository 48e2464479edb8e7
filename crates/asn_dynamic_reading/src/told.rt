//! Makes the errors of reading by a type: those of a decoder's calls, and those of a type's own
//! names.
ghost use Rattle.asn_coding.specs.Answer.{Refuses};
ghost use Rattle.asn_coding.specs.Scopes.{NoAlternative};
ghost use Rattle.asn_core.specs.declared.codec.Codec.{Codec};
ghost use Rattle.asn_dynamic_faults.specs.DynFailure.{IsTold, IsWithin, dyn_failure};
ghost use Rattle.asn_fault.specs.Failure.{Cause, at_root, failure_of};
ghost use Rattle.asn_model.specs.Notation.{notation_of};
ghost use Rattle.std.specs.Prelude.{◌≡◌};

use asn_decode::Decoder;
use asn_dynamic_faults::DynError;
use asn_fault::DecodeError;

/// Returns the error of a decoder's call, with the decoder's codec at its fields.
pub fn told<D: Decoder>(decoder: &D, error: DecodeError) -> DynError
    ensures { (codec : Codec) × (notation_of codec ≡ D.notation)
        × IsTold codec (failure_of error) (dyn_failure result) }
{
    DynError::of_decode(decoder.allocator(), error, decoder.codec())
}

/// Returns the error that memory ran out, by the decoder's codec.
pub fn out_of_memory<D: Decoder>(decoder: &D) -> DynError
    ensures { (codec : Codec) × (notation_of codec ≡ D.notation)
        × (dyn_failure result ≡ at_root Cause.out_of_memory codec) }
{
    DynError::out_of_memory(decoder.allocator(), decoder.codec())
}

/// Returns the error within the field of this name, by the decoder's codec.
pub fn within<D: Decoder>(decoder: &D, name: &str, error: DynError) -> DynError
    ensures { (codec : Codec) × (notation_of codec ≡ D.notation)
        × IsWithin codec name.now (dyn_failure error) (dyn_failure result) }
{
    error.within(decoder.allocator(), name, decoder.codec())
}

/// Returns the error that the required extension addition of this name is absent.
pub fn missing<D: Decoder>(decoder: &D, name: &str) -> DynError
    ensures { (codec : Codec) × (notation_of codec ≡ D.notation)
        × IsTold codec (at_root (Cause.missing_field name.now) codec) (dyn_failure result) }
{
    DynError::missing_field(decoder.allocator(), name, decoder.codec())
}

/// Returns the error that the name of this field stands at two entries.
pub fn repeated<D: Decoder>(decoder: &D, name: &str) -> DynError
    ensures { (codec : Codec) × (notation_of codec ≡ D.notation)
        × IsTold codec (at_root (Cause.duplicate_field name.now) codec) (dyn_failure result) }
{
    DynError::duplicate_field(decoder.allocator(), name, decoder.codec())
}

/// Returns the error that a CHOICE has no alternative of the name that is read.
pub fn no_choice<D: Decoder>(decoder: &D) -> DynError
    ensures { Refuses D.notation NoAlternative (dyn_failure result) }
{
    let error = DecodeError::no_valid_choice("CHOICE", decoder.codec());
    told(decoder, error)
}
