//! Defines why a value breaks a constraint of its type (X.680, section 51), as kinds of errors
//! hold it. This library does not check constraints: binary rules that a caller hands in do.
ghost use Rattle.std.specs.Prelude.{Some};
ghost use Rattle.std.specs.Fmt.{WritesOnOk};
ghost use Rattle.asn_fault.specs.Texts.{component_fault_text, inner_subtype_text};
ghost use Rattle.asn_fault.specs.Texts.{permitted_alphabet_text};

use crate::DecodeError;
use crate::joined::write_joined;
use crate::print::{write_around, write_three, write_two};
use std::error::Error;
use std::fmt;

/// States why a string breaks the permitted alphabet of its type (X.680, section 51.7).
#[derive(Debug, Drop)]
pub enum PermittedAlphabetError {
    /// The alphabet lacks a character, whose code is in `character`.
    CharacterNotFound { character: u32 },
}

/// Prints the code of the character in decimal.
impl fmt::Display for PermittedAlphabetError {
    ghost output = { λ error. Some (permitted_alphabet_text error) };

    fn fmt<W: fmt::Write>(&self, f: &mut fmt::Formatter<W>) -> fmt::Result {
        match self {
            PermittedAlphabetError::CharacterNotFound { character } => {
                write_around(
                    f,
                    "Character ",
                    character,
                    " not found from the permitted list",
                )
            }
        }
    }
}

/// Has no source, since no other error lies beneath it.
impl Error for PermittedAlphabetError {}

/// States why the components of a value break an inner subtype constraint (X.680, section 51.8).
/// `component_path` names the type of the value and the components that lead to the place.
#[cycle(decode_error)]
#[derive(Debug, Drop)]
pub enum InnerSubtypeConstraintError {
    /// The components don't go together.
    SubtypeConstraintViolation {
        /// Names the place.
        component_path: &'static str,
        /// States why.
        details: &'static str,
    },
    /// A component that has to be there is absent.
    MissingRequiredComponent {
        /// Names the place.
        component_path: &'static str,
        /// Names the components that have to be there, which are not printed.
        components: &'static [&'static str],
    },
    /// More than one component is there, of which at most one may be.
    MutuallyExclusiveViolation {
        /// Names the place.
        component_path: &'static str,
        /// Names the components.
        components: &'static [&'static str],
    },
    /// The value of a component is none that the constraint has.
    InvalidComponentValue {
        /// Names the place.
        component_path: &'static str,
        /// Names the component.
        component_name: &'static str,
        /// States why.
        details: String,
    },
    /// The alternative that is chosen in a component is none that the constraint has.
    InvalidComponentVariant {
        /// Names the place.
        component_path: &'static str,
        /// Names the type of the component.
        component_type: &'static str,
        /// States why.
        details: String,
    },
    /// The size of a component is none that the constraint has.
    InvalidComponentSize {
        /// Names the place.
        component_path: &'static str,
        /// Names the component.
        component_name: &'static str,
        /// States why.
        details: String,
    },
    /// A component that has to be absent is there.
    UnexpectedComponentPresent {
        /// Names the place.
        component_path: &'static str,
        /// Names the component.
        component_name: &'static str,
    },
    /// The octets of a string with a contents constraint are no encoding of the type that it
    /// names (X.682, section 11).
    InvalidInnerContaining {
        /// Names that type.
        expected: &'static str,
        /// States why the octets are not decoded.
        err: Box<DecodeError>,
    },
}

/// Prints what is wrong and where. A nested error is printed in full, with its codec.
impl fmt::Display for InnerSubtypeConstraintError {
    ghost output = { λ error. Some (inner_subtype_text error) };

    #[cycle(printing)]
    fn fmt<W: fmt::Write>(&self, f: &mut fmt::Formatter<W>) -> fmt::Result {
        match self {
            InnerSubtypeConstraintError::SubtypeConstraintViolation {
                component_path,
                details,
            } => write_two(
                f,
                "Invalid component combination in ",
                component_path,
                ": ",
                details,
            ),
            InnerSubtypeConstraintError::MissingRequiredComponent { component_path, .. } =>
                write_around(
                    f,
                    "Missing required components in ",
                    component_path,
                    ": the following must be present:",
                ),
            InnerSubtypeConstraintError::MutuallyExclusiveViolation {
                component_path,
                components,
            } => {
                write!(
                    f,
                    "Mutually exclusive components present in {component_path}: "
                )?;
                write_joined(components, f)
            }
            InnerSubtypeConstraintError::UnexpectedComponentPresent {
                component_path,
                component_name,
            } => write_two(
                f,
                "Component that should be absent is present in ",
                component_path,
                ": ",
                component_name,
            ),
            InnerSubtypeConstraintError::InvalidInnerContaining { expected, err } => {
                let err = &**err;
                write!(
                    f,
                    "CONTAINING does not contain the expected component {expected}: {err}"
                )
            }
            error => error.write_component(f),
        }
    }
}

/// Writes the errors of one component.
impl InnerSubtypeConstraintError {
    /// Writes an error whose details are a text of their own. Writes nothing of another.
    fn write_component<W: fmt::Write>(&self, f: &mut fmt::Formatter<W>) -> fmt::Result
        ensures { WritesOnOk W.write_str_gives f.old result (component_fault_text self.now) f.new }
    {
        match self {
            InnerSubtypeConstraintError::InvalidComponentValue {
                component_path,
                component_name,
                details,
            } => write_three(
                f,
                "Invalid value for component ",
                component_path,
                " in ",
                component_name,
                ": ",
                details,
            ),
            InnerSubtypeConstraintError::InvalidComponentVariant {
                component_path,
                component_type,
                details,
            } => write_three(
                f,
                "Invalid variant for component ",
                component_type,
                " in ",
                component_path,
                ": ",
                details,
            ),
            InnerSubtypeConstraintError::InvalidComponentSize {
                component_path,
                component_name,
                details,
            } => write_three(
                f,
                "Invalid size constraint for component ",
                component_name,
                " in ",
                component_path,
                ": ",
                details,
            ),
            _ => Ok(()),
        }
    }
}

/// Has no source: a nested error is printed as part of it.
impl Error for InnerSubtypeConstraintError {}
