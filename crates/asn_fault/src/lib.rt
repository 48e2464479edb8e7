//! Defines the two error types of the library: `DecodeError` for a value that is not decoded, and
//! `EncodeError` for one that is not encoded. Each has a kind and the codec that it comes from,
//! and prints a text that is exact by its contract (`specs/Texts.antt`). A kind that one set of
//! encoding rules alone has stands in the module of those rules: `ber`, `per`, `oer`, `jer`, `xer`
//! and `avn`.
#![tactic(auto)]

mod avn;
mod ber;
mod codec_specific;
mod constraint;
mod decode;
mod encode;
mod jer;
mod joined;
mod oer;
mod per;
mod print;
mod refusal;
mod text_fault;
mod xer;

pub use avn::{AvnDecodeErrorKind, AvnEncodeErrorKind};
pub use ber::{
    BerDecodeErrorKind, BerEncodeErrorKind, CerDecodeErrorKind, CerEncodeErrorKind,
    DerDecodeErrorKind, DerEncodeErrorKind,
};
pub use codec_specific::{CodecDecodeError, CodecEncodeError};
pub use constraint::{InnerSubtypeConstraintError, PermittedAlphabetError};
pub use decode::{DecodeError, DecodeErrorKind, Needed};
pub use encode::{EncodeError, EncodeErrorKind};
pub use jer::{JerDecodeErrorKind, JerEncodeErrorKind};
pub use oer::{CoerDecodeErrorKind, CoerEncodeErrorKind, OerDecodeErrorKind};
pub use per::{AperDecodeErrorKind, AperEncodeErrorKind, UperDecodeErrorKind, UperEncodeErrorKind};
pub use refusal::{Refusal, RootCause};
pub use text_fault::{DigitFault, Utf8Fault};
pub use xer::{XerDecodeErrorKind, XerEncodeErrorKind};
