//! Defines the tags of types (X.680, section 8). Neither notation writes a tag; they distinguish
//! the alternatives of a CHOICE and order the fields of a SET.
ghost use Rattle.asn_core.specs.Texts.{class_name, tag_text};
ghost use Rattle.std.specs.Prelude.{◌≡◌, Some};

use std::fmt;

/// The class of a tag, in the order in which classes compare.
#[derive(Clone, Copy, Debug, PartialEq, Eq, PartialOrd, Ord)]
pub enum Class {
    /// Is for the types of X.680 itself.
    Universal,
    /// Is for types that one application defines.
    Application,
    /// Is for the fields and alternatives of one type.
    Context,
    /// Is for types that an enterprise defines.
    Private,
}

/// Prints the name in capitals.
impl fmt::Display for Class {
    ghost output = { λ class. Some (class_name class) };

    fn fmt<W: fmt::Write>(&self, f: &mut fmt::Formatter<W>) -> fmt::Result {
        f.write_str(match self {
            Class::Universal => "UNIVERSAL",
            Class::Application => "APPLICATION",
            Class::Context => "CONTEXT",
            Class::Private => "PRIVATE",
        })
    }
}

/// A tag: its class and its number within the class. Tags compare by class first.
#[derive(Clone, Copy, Debug, PartialEq, Eq, PartialOrd, Ord)]
pub struct Tag {
    /// The class, by which tags compare first.
    pub class: Class,
    /// The number within the class.
    pub value: u32,
}

/// Prints the class, a space and the number.
impl fmt::Display for Tag {
    ghost output = { λ tag. Some (tag_text tag) };

    fn fmt<W: fmt::Write>(&self, f: &mut fmt::Formatter<W>) -> fmt::Result {
        self.class.fmt(f)?;
        f.write_str(" ")?;
        self.value.fmt(f)
    }
}

impl Tag {
    /// Ends contents of indefinite length in BER. No alternative of a CHOICE has it.
    pub const EOC: Tag = Tag {
        class: Class::Universal,
        value: 0,
    };

    /// Is the tag of BOOLEAN (X.680, section 18).
    pub const BOOL: Tag = Tag {
        class: Class::Universal,
        value: 1,
    };

    /// Is the tag of INTEGER (X.680, section 19).
    pub const INTEGER: Tag = Tag {
        class: Class::Universal,
        value: 2,
    };

    /// Is the tag of BIT STRING (X.680, section 22).
    pub const BIT_STRING: Tag = Tag {
        class: Class::Universal,
        value: 3,
    };

    /// Is the tag of OCTET STRING (X.680, section 23).
    pub const OCTET_STRING: Tag = Tag {
        class: Class::Universal,
        value: 4,
    };

    /// Is the tag of NULL (X.680, section 24).
    pub const NULL: Tag = Tag {
        class: Class::Universal,
        value: 5,
    };

    /// Is the tag of OBJECT IDENTIFIER (X.680, section 32).
    pub const OBJECT_IDENTIFIER: Tag = Tag {
        class: Class::Universal,
        value: 6,
    };

    /// Is the tag of REAL (X.680, section 21), which neither notation here reads or writes.
    pub const REAL: Tag = Tag {
        class: Class::Universal,
        value: 9,
    };

    /// Is the tag of ENUMERATED (X.680, section 20).
    pub const ENUMERATED: Tag = Tag {
        class: Class::Universal,
        value: 10,
    };

    /// Is the tag of UTF8String (X.680, section 41).
    pub const UTF8_STRING: Tag = Tag {
        class: Class::Universal,
        value: 12,
    };

    /// Is the tag of SEQUENCE and of SEQUENCE OF (X.680, sections 25 and 26).
    pub const SEQUENCE: Tag = Tag {
        class: Class::Universal,
        value: 16,
    };

    /// Is the tag of SET and of SET OF (X.680, sections 27 and 28).
    pub const SET: Tag = Tag {
        class: Class::Universal,
        value: 17,
    };

    /// Is the tag of NumericString (X.680, section 41).
    pub const NUMERIC_STRING: Tag = Tag {
        class: Class::Universal,
        value: 18,
    };

    /// Is the tag of PrintableString (X.680, section 41).
    pub const PRINTABLE_STRING: Tag = Tag {
        class: Class::Universal,
        value: 19,
    };

    /// Is the tag of TeletexString (X.680, section 41).
    pub const TELETEX_STRING: Tag = Tag {
        class: Class::Universal,
        value: 20,
    };

    /// Is the tag of IA5String (X.680, section 41).
    pub const IA5_STRING: Tag = Tag {
        class: Class::Universal,
        value: 22,
    };

    /// Is the tag of UTCTime (X.680, section 47).
    pub const UTC_TIME: Tag = Tag {
        class: Class::Universal,
        value: 23,
    };

    /// Is the tag of GeneralizedTime (X.680, section 46).
    pub const GENERALIZED_TIME: Tag = Tag {
        class: Class::Universal,
        value: 24,
    };

    /// Is the tag of GraphicString (X.680, section 41).
    pub const GRAPHIC_STRING: Tag = Tag {
        class: Class::Universal,
        value: 25,
    };

    /// Is the tag of VisibleString (X.680, section 41).
    pub const VISIBLE_STRING: Tag = Tag {
        class: Class::Universal,
        value: 26,
    };

    /// Is the tag of GeneralString (X.680, section 41).
    pub const GENERAL_STRING: Tag = Tag {
        class: Class::Universal,
        value: 27,
    };

    /// Is the tag of UniversalString (X.680, section 41).
    pub const UNIVERSAL_STRING: Tag = Tag {
        class: Class::Universal,
        value: 28,
    };

    /// Is the tag of BMPString (X.680, section 41).
    pub const BMP_STRING: Tag = Tag {
        class: Class::Universal,
        value: 30,
    };

    /// Is the tag of DATE (X.680, section 38).
    pub const DATE: Tag = Tag {
        class: Class::Universal,
        value: 31,
    };

    /// Returns the tag of this class and number.
    pub fn new(class: Class, value: u32) -> Tag
        ensures { result ≡ record { class = class; value = value } }
    {
        Tag { class, value }
    }

    /// The context tag 0.
    pub const CONTEXT_0: Tag = Tag {
        class: Class::Context,
        value: 0,
    };

    /// The context tag 1.
    pub const CONTEXT_1: Tag = Tag {
        class: Class::Context,
        value: 1,
    };

    /// The context tag 2.
    pub const CONTEXT_2: Tag = Tag {
        class: Class::Context,
        value: 2,
    };

    /// The context tag 3.
    pub const CONTEXT_3: Tag = Tag {
        class: Class::Context,
        value: 3,
    };

    /// The context tag 4.
    pub const CONTEXT_4: Tag = Tag {
        class: Class::Context,
        value: 4,
    };

    /// The context tag 5.
    pub const CONTEXT_5: Tag = Tag {
        class: Class::Context,
        value: 5,
    };

    /// The context tag 6.
    pub const CONTEXT_6: Tag = Tag {
        class: Class::Context,
        value: 6,
    };

    /// The context tag 7.
    pub const CONTEXT_7: Tag = Tag {
        class: Class::Context,
        value: 7,
    };

    /// The context tag 8.
    pub const CONTEXT_8: Tag = Tag {
        class: Class::Context,
        value: 8,
    };

    /// The context tag 9.
    pub const CONTEXT_9: Tag = Tag {
        class: Class::Context,
        value: 9,
    };

    /// The context tag 10.
    pub const CONTEXT_10: Tag = Tag {
        class: Class::Context,
        value: 10,
    };

    /// The context tag 11.
    pub const CONTEXT_11: Tag = Tag {
        class: Class::Context,
        value: 11,
    };

    /// The context tag 12.
    pub const CONTEXT_12: Tag = Tag {
        class: Class::Context,
        value: 12,
    };

    /// The context tag 13.
    pub const CONTEXT_13: Tag = Tag {
        class: Class::Context,
        value: 13,
    };

    /// The context tag 14.
    pub const CONTEXT_14: Tag = Tag {
        class: Class::Context,
        value: 14,
    };

    /// The context tag 15.
    pub const CONTEXT_15: Tag = Tag {
        class: Class::Context,
        value: 15,
    };
}
