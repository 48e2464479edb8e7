//! Lists the reserved words of the notation.
ghost use Rattle.asn_notation.specs.Keywords.{keyword_named, keyword_text};
ghost use Rattle.std.specs.Prelude.{◌≡◌};

/// Names a reserved word (X.680, section 12.38).
#[derive(Clone, Copy, Drop, PartialEq, Eq)]
pub enum Keyword {
    /// Is `BOOLEAN`.
    Boolean,
    /// Is `NULL`.
    Null,
    /// Is `INTEGER`.
    Integer,
    /// Is `OCTET`.
    Octet,
    /// Is `BIT`.
    Bit,
    /// Is `STRING`.
    String,
    /// Is `OBJECT`.
    Object,
    /// Is `IDENTIFIER`.
    Identifier,
    /// Is `UTF8String`.
    Utf8String,
    /// Is `NumericString`.
    NumericString,
    /// Is `PrintableString`.
    PrintableString,
    /// Is `VisibleString`.
    VisibleString,
    /// Is `IA5String`.
    Ia5String,
    /// Is `UniversalString`.
    UniversalString,
    /// Is `GeneralString`.
    GeneralString,
    /// Is `GraphicString`.
    GraphicString,
    /// Is `BMPString`.
    BmpString,
    /// Is `SEQUENCE`.
    Sequence,
    /// Is `SET`.
    Set,
    /// Is `OF`.
    Of,
    /// Is `CHOICE`.
    Choice,
    /// Is `ENUMERATED`.
    Enumerated,
    /// Is `OPTIONAL`.
    Optional,
}

impl Keyword {
    /// Returns the reserved word that the text is, or `None` where it is none.
    #[tactic(auto, unfolding(crate::specs::Keywords::keyword_named))]
    pub fn named(text: &str) -> Option<Keyword>
        ensures { result ≡ keyword_named text.now }
    {
        match text {
            "BOOLEAN" => Some(Keyword::Boolean),
            "NULL" => Some(Keyword::Null),
            "INTEGER" => Some(Keyword::Integer),
            "OCTET" => Some(Keyword::Octet),
            "BIT" => Some(Keyword::Bit),
            "STRING" => Some(Keyword::String),
            "OBJECT" => Some(Keyword::Object),
            "IDENTIFIER" => Some(Keyword::Identifier),
            "UTF8String" => Some(Keyword::Utf8String),
            "NumericString" => Some(Keyword::NumericString),
            "PrintableString" => Some(Keyword::PrintableString),
            "VisibleString" => Some(Keyword::VisibleString),
            "IA5String" => Some(Keyword::Ia5String),
            "UniversalString" => Some(Keyword::UniversalString),
            "GeneralString" => Some(Keyword::GeneralString),
            "GraphicString" => Some(Keyword::GraphicString),
            "BMPString" => Some(Keyword::BmpString),
            "SEQUENCE" => Some(Keyword::Sequence),
            "SET" => Some(Keyword::Set),
            "OF" => Some(Keyword::Of),
            "CHOICE" => Some(Keyword::Choice),
            "ENUMERATED" => Some(Keyword::Enumerated),
            "OPTIONAL" => Some(Keyword::Optional),
            _ => None,
        }
    }

    /// Returns the text of the word.
    pub fn text(self) -> &'static str
        ensures { result.now ≡ keyword_text self }
    {
        match self {
            Keyword::Boolean => "BOOLEAN",
            Keyword::Null => "NULL",
            Keyword::Integer => "INTEGER",
            Keyword::Octet => "OCTET",
            Keyword::Bit => "BIT",
            Keyword::String => "STRING",
            Keyword::Object => "OBJECT",
            Keyword::Identifier => "IDENTIFIER",
            Keyword::Utf8String => "UTF8String",
            Keyword::NumericString => "NumericString",
            Keyword::PrintableString => "PrintableString",
            Keyword::VisibleString => "VisibleString",
            Keyword::Ia5String => "IA5String",
            Keyword::UniversalString => "UniversalString",
            Keyword::GeneralString => "GeneralString",
            Keyword::GraphicString => "GraphicString",
            Keyword::BmpString => "BMPString",
            Keyword::Sequence => "SEQUENCE",
            Keyword::Set => "SET",
            Keyword::Of => "OF",
            Keyword::Choice => "CHOICE",
            Keyword::Enumerated => "ENUMERATED",
            Keyword::Optional => "OPTIONAL",
        }
    }
}
