//! Defines the types for kinds of errors of the Packed Encoding Rules of X.691 (UPER and APER).
//! They have no kinds of their own: what is wrong there is wrong by a kind of all rules.

/// Has no kind: what is wrong in UPER is wrong by a kind of all rules.
#[derive(Drop)]
pub enum UperDecodeErrorKind {}

/// Has no kind: what is wrong in APER is wrong by a kind of all rules.
#[derive(Drop)]
pub enum AperDecodeErrorKind {}

/// Has no kind: what UPER cannot encode is stated by a kind of all rules.
#[derive(Drop)]
pub enum UperEncodeErrorKind {}

/// Has no kind: what APER cannot encode is stated by a kind of all rules.
#[derive(Drop)]
pub enum AperEncodeErrorKind {}
