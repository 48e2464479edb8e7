//! Lists the types without parts.
use asn_model::Alphabet;

/// Names a type without parts.
#[derive(Clone, Copy, Drop)]
pub enum Leaf {
    /// Is BOOLEAN.
    Boolean,
    /// Is NULL.
    Null,
    /// Is OCTET STRING.
    OctetString,
    /// Is OBJECT IDENTIFIER.
    ObjectIdentifier,
    /// Is a character string type other than the next two. ISO646String is VisibleString.
    Text(Alphabet),
    /// Is BMPString.
    Bmp,
    /// Is TeletexString, also called T61String.
    Teletex,
    /// Is UTCTime.
    UtcTime,
    /// Is GeneralizedTime.
    GeneralizedTime,
    /// Is DATE.
    Date,
    /// Is a type whose values aren't read.
    Closed(Closed),
}

/// Names a type whose values aren't read.
#[derive(Clone, Copy, Drop, PartialEq, Eq)]
pub enum Closed {
    /// Is ANY.
    Any,
    /// Is REAL.
    Real,
    /// Is EXTERNAL.
    External,
    /// Is EMBEDDED PDV.
    EmbeddedPdv,
    /// Is CHARACTER STRING.
    CharacterString,
    /// Is RELATIVE-OID.
    RelativeOid,
    /// Is ObjectDescriptor.
    ObjectDescriptor,
    /// Is VideotexString.
    Videotex,
    /// Is TIME.
    Time,
    /// Is TIME-OF-DAY.
    TimeOfDay,
    /// Is DATE-TIME.
    DateTime,
    /// Is DURATION.
    Duration,
    /// Is a type with parameters of which some are no types.
    Parameterized,
    /// Is what a field of an object class holds.
    ClassField,
    /// Is an object class.
    ObjectClass,
    /// Is a macro (X.208, Annex A).
    Macro,
    /// Is INSTANCE OF.
    InstanceOf,
}
