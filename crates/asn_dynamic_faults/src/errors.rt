//! Defines `DynError`: where a value isn't read by a shape, why, and by which codec. Contracts see
//! it as a `Failure`, as they see the error of a typed reader (`dyn_failure`).
ghost use Rattle.asn_core.specs.declared.codec.Codec.{Codec as CodecName};
ghost use Rattle.asn_dynamic_faults.specs.DynFailure.{IsTold, IsWithin, dyn_cause, dyn_failure};
ghost use Rattle.asn_dynamic_faults.specs.Steps.{fields_of, goes_to_field};
ghost use Rattle.asn_fault.specs.Failure.{Cause, at_root, failure_of, is_out_of_memory};
ghost use Rattle.asn_fault.specs.Failure.{is_out_of_memory_at, kind_failure};
ghost use Rattle.std.specs.Prelude.{◌≡◌, ◌∷◌, []};

use asn_core::Codec;
use asn_fault::{DecodeError, DecodeErrorKind};
use std::alloc::Global;

/// Is a step on the way from a value to one of its parts.
#[derive(Debug, Drop)]
pub enum Step {
    /// Goes to the field of this name.
    Field(String),
    /// Goes to the value of the alternative of this identifier.
    Alternative(String),
    /// Goes to the element of a list at this place, counted from 0.
    Element(usize),
}

/// States why a value isn't read. The first two kinds hold names of the shape; every other kind is
/// that of a typed reader.
#[derive(Debug, Drop)]
pub enum DynKind {
    /// A required extension addition of this name is absent.
    MissingField(String),
    /// In AVN, two present entries have the name of this field.
    DuplicateField(String),
    /// The type of the value is an ENUMERATED without items or a CHOICE without alternatives, so it
    /// has no values. Holds the kind of a typed reader.
    NoValues(DecodeErrorKind),
    /// The kind is that of a typed reader. A CHOICE has the name `CHOICE` in it.
    Other(DecodeErrorKind),
}

/// Reports that a value isn't read: where, why, and by which codec.
#[derive(Debug, Drop)]
pub struct DynError {
    /// Lists the steps that lead to the place, the outermost first. Where memory runs out, a step
    /// to an alternative or to an element may be left out.
    pub path: Vec<Step>,
    /// States why.
    pub kind: DynKind,
    /// Names the codec that has the kind.
    pub codec: Codec,
    /// Names the notation that is read.
    pub notation: Codec,
}

/// Makes errors, and takes those of primitive calls over.
impl DynError {
    /// Returns the error of this kind, at no field.
    pub fn at_root(alloc: Global, kind: DynKind, codec: Codec, notation: Codec) -> DynError
        ensures path { result.path.items ≡ [] }
        ensures kind { result.kind ≡ kind }
        ensures codec { result.codec ≡ codec }
        ensures notation { result.notation ≡ notation }
    {
        DynError {
            path: Vec::new(alloc),
            kind,
            codec,
            notation,
        }
    }

    /// Returns the error that memory ran out.
    pub fn out_of_memory(alloc: Global, notation: Codec) -> DynError
        ensures { dyn_failure result ≡ at_root Cause.out_of_memory notation }
    {
        let kind = DynKind::Other(DecodeErrorKind::OutOfMemory);
        DynError::at_root(alloc, kind, notation, notation)
    }

    /// Returns the error that the required extension addition of this name is absent, or that
    /// memory ran out.
    pub fn missing_field(alloc: Global, name: &str, notation: Codec) -> DynError
        ensures { IsTold notation (at_root (Cause.missing_field name.now) notation)
            (dyn_failure result) }
    {
        match String::from_str(alloc, name) {
            Ok(name) => DynError::at_root(alloc, DynKind::MissingField(name), notation, notation),
            Err(_) => DynError::out_of_memory(alloc, notation),
        }
    }

    /// Returns the error that two present entries have the name of this field, or that memory ran
    /// out.
    pub fn duplicate_field(alloc: Global, name: &str, notation: Codec) -> DynError
        ensures { IsTold notation (at_root (Cause.duplicate_field name.now) notation)
            (dyn_failure result) }
    {
        match String::from_str(alloc, name) {
            Ok(name) => DynError::at_root(alloc, DynKind::DuplicateField(name), notation, notation),
            Err(_) => DynError::out_of_memory(alloc, notation),
        }
    }

    /// Returns the error of a typed reader, with this notation at its fields, or that memory ran
    /// out.
    pub fn of_decode(alloc: Global, error: DecodeError, notation: Codec) -> DynError
        ensures { IsTold notation (failure_of error) (dyn_failure result) }
    {
        let codec = error.codec;
        match error.kind {
            DecodeErrorKind::FieldError { name, nested } => {
                let inner = DynError::of_decode(alloc, Box::into_inner(nested), notation);
                inner.within(alloc, name, notation)
            }
            DecodeErrorKind::MissingField { name } => match String::from_str(alloc, name) {
                Ok(name) => DynError::at_root(alloc, DynKind::MissingField(name), codec, notation),
                Err(_) => DynError::out_of_memory(alloc, notation),
            },
            DecodeErrorKind::DuplicateField { name } => match String::from_str(alloc, name) {
                Ok(name) => DynError::at_root(
                    alloc,
                    DynKind::DuplicateField(name),
                    codec,
                    notation,
                ),
                Err(_) => DynError::out_of_memory(alloc, notation),
            },
            kind => DynError::at_root(alloc, DynKind::Other(kind), codec, notation),
        }
    }

    /// Returns whether memory ran out.
    pub fn is_out_of_memory(&self) -> bool
        ensures { result ≡ is_out_of_memory (dyn_failure self.now) }
    {
        if has_field(self.path.as_slice()) {
            return false;
        }
        match &self.kind {
            DynKind::MissingField(_) => false,
            DynKind::DuplicateField(_) => false,
            DynKind::NoValues(kind) => is_lack_of_memory(kind),
            DynKind::Other(kind) => is_lack_of_memory(kind),
        }
    }

    /// Returns the error within the field of this name. Lack of memory stays at no field, and may
    /// be the error in place of any other.
    pub fn within(self, alloc: Global, name: &str, notation: Codec) -> DynError
        ensures { IsWithin notation name.now (dyn_failure self) (dyn_failure result) }
    {
        if self.is_out_of_memory() {
            return DynError::out_of_memory(alloc, notation);
        }
        let Ok(name) = String::from_str(alloc, name) else {
            return DynError::out_of_memory(alloc, notation);
        };
        let mut path = self.path;
        match path.insert(0, Step::Field(name)) {
            Ok(()) => DynError {
                path,
                kind: self.kind,
                codec: self.codec,
                notation,
            },
            Err(_) => DynError::out_of_memory(alloc, notation),
        }
    }

    /// Returns the error within the alternative of this identifier.
    pub fn in_alternative(self, alloc: Global, identifier: &str) -> DynError
        ensures { dyn_failure result ≡ dyn_failure self }
    {
        match String::from_str(alloc, identifier) {
            Ok(identifier) => self.behind(Step::Alternative(identifier)),
            Err(_) => self,
        }
    }

    /// Returns the error within the element of a list at this place.
    pub fn in_element(self, place: usize) -> DynError
        ensures { dyn_failure result ≡ dyn_failure self }
    {
        self.behind(Step::Element(place))
    }

    /// Returns the error behind a step that is no field, or as it was where memory runs out.
    fn behind(self, step: Step) -> DynError
        requires { fields_of (step ∷ []) ≡ [] }
        ensures { dyn_failure result ≡ dyn_failure self }
    {
        let mut path = self.path;
        let _inserted = path.insert(0, step);
        DynError {
            path,
            kind: self.kind,
            codec: self.codec,
            notation: self.notation,
        }
    }

    /// Returns the error of a value whose type has no values.
    pub fn without_values(self) -> DynError
        ensures { dyn_failure result ≡ dyn_failure self }
    {
        DynError {
            path: self.path,
            kind: without_values(self.kind),
            codec: self.codec,
            notation: self.notation,
        }
    }
}

/// Returns the kind that says that a type has no values, in place of that of a typed reader.
fn without_values(kind: DynKind) -> DynKind
    ensures { (codec : CodecName) → dyn_cause result codec ≡ dyn_cause kind codec }
{
    match kind {
        DynKind::Other(kind) => DynKind::NoValues(kind),
        DynKind::NoValues(kind) => DynKind::NoValues(kind),
        DynKind::MissingField(name) => DynKind::MissingField(name),
        DynKind::DuplicateField(name) => DynKind::DuplicateField(name),
    }
}

/// Returns whether a step goes to a field.
fn has_field(path: &[Step]) -> bool
    ensures { result ≡ goes_to_field path.now }
{
    match path {
        [] => false,
        [Step::Field(_), ..] => true,
        [_, rest @ ..] => has_field(rest),
    }
}

/// Returns whether the kind is that memory ran out, whatever fields are around it.
fn is_lack_of_memory(kind: &DecodeErrorKind) -> bool
    ensures { (codec : CodecName)
        → result ≡ is_out_of_memory_at [] (kind_failure kind.now codec).cause }
{
    match kind {
        DecodeErrorKind::OutOfMemory => true,
        DecodeErrorKind::FieldError { nested, .. } => is_lack_of_memory(&nested.kind),
        _ => false,
    }
}
