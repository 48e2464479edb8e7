//! Defines the names of the encoding rules, JER and AVN among them.
ghost use Rattle.asn_core.specs.Texts.{codec_name};
ghost use Rattle.std.specs.Prelude.{Some};

use std::fmt;

/// Names a set of encoding rules. JER and AVN are the two text notations that this library has; an
/// error names the rules that it comes from.
#[derive(Clone, Copy, Debug, PartialEq, Eq, PartialOrd, Ord)]
pub enum Codec {
    /// Packed, aligned (X.691).
    Aper,
    /// Basic (X.690).
    Ber,
    /// Canonical (X.690).
    Cer,
    /// Distinguished (X.690).
    Der,
    /// Packed, unaligned (X.691).
    Uper,
    /// JSON (X.697).
    Jer,
    /// Octets (X.696).
    Oer,
    /// Canonical octets (X.696).
    Coer,
    /// XML (X.693).
    Xer,
    /// The value notation (X.680).
    Avn,
}

/// Prints the name in capitals.
impl fmt::Display for Codec {
    ghost output = { λ codec. Some (codec_name codec) };

    fn fmt<W: fmt::Write>(&self, f: &mut fmt::Formatter<W>) -> fmt::Result {
        f.write_str(match self {
            Codec::Aper => "APER",
            Codec::Ber => "BER",
            Codec::Cer => "CER",
            Codec::Der => "DER",
            Codec::Uper => "UPER",
            Codec::Jer => "JER",
            Codec::Oer => "OER",
            Codec::Coer => "COER",
            Codec::Xer => "XER",
            Codec::Avn => "AVN",
        })
    }
}
