//! Lists the reserved words.
ghost use Rattle.asn_lexer.specs.Keywords.{header_words, keyword_among, keyword_named};
ghost use Rattle.asn_lexer.specs.Keywords.{part_words, text_words, time_words, type_words};
ghost use Rattle.std.specs.Prelude.{◌≡◌};

/// Names a reserved word (X.680, section 12.38): one that has a role in the grammar of modules. The
/// others of the standard, as `TRUE` and `MIN`, are names here.
#[derive(Clone, Copy, Drop, PartialEq, Eq)]
pub enum Keyword {
    /// Is `DEFINITIONS`.
    Definitions,
    /// Is `EXPLICIT`.
    Explicit,
    /// Is `IMPLICIT`.
    Implicit,
    /// Is `AUTOMATIC`.
    Automatic,
    /// Is `TAGS`.
    Tags,
    /// Is `EXTENSIBILITY`.
    Extensibility,
    /// Is `IMPLIED`.
    Implied,
    /// Is `BEGIN`.
    Begin,
    /// Is `END`.
    End,
    /// Is `EXPORTS`.
    Exports,
    /// Is `ALL`.
    All,
    /// Is `IMPORTS`.
    Imports,
    /// Is `FROM`.
    From,
    /// Is `WITH`.
    With,
    /// Is `SUCCESSORS`.
    Successors,
    /// Is `DESCENDANTS`.
    Descendants,
    /// Is `MACRO`.
    Macro,
    /// Is `CLASS`.
    Class,
    /// Is `INSTANCE`.
    Instance,
    /// Is `SYNTAX`.
    Syntax,
    /// Is `TYPE-IDENTIFIER`.
    TypeIdentifier,
    /// Is `ABSTRACT-SYNTAX`.
    AbstractSyntax,
    /// Is `INSTRUCTIONS`.
    Instructions,
    /// Is `ENCODING-CONTROL`.
    EncodingControl,
    /// Is `SIZE`.
    Size,
    /// Is `UNIVERSAL`.
    Universal,
    /// Is `APPLICATION`.
    Application,
    /// Is `PRIVATE`.
    Private,
    /// Is `OF`.
    Of,
    /// Is `BY`.
    By,
    /// Is `DEFINED`.
    Defined,
    /// Is `STRING`.
    String,
    /// Is `IDENTIFIER`.
    Identifier,
    /// Is `PDV`.
    Pdv,
    /// Is `OPTIONAL`.
    Optional,
    /// Is `DEFAULT`.
    Default,
    /// Is `COMPONENTS`.
    Components,
    /// Is `BOOLEAN`.
    Boolean,
    /// Is `NULL`.
    Null,
    /// Is `INTEGER`.
    Integer,
    /// Is `OCTET`.
    Octet,
    /// Is `BIT`.
    Bit,
    /// Is `OBJECT`.
    Object,
    /// Is `ENUMERATED`.
    Enumerated,
    /// Is `SEQUENCE`.
    Sequence,
    /// Is `SET`.
    Set,
    /// Is `CHOICE`.
    Choice,
    /// Is `ANY`.
    Any,
    /// Is `REAL`.
    Real,
    /// Is `EXTERNAL`.
    External,
    /// Is `EMBEDDED`.
    Embedded,
    /// Is `CHARACTER`.
    Character,
    /// Is `RELATIVE-OID`.
    RelativeOid,
    /// Is `ObjectDescriptor`.
    ObjectDescriptor,
    /// Is `OID-IRI`.
    OidIri,
    /// Is `RELATIVE-OID-IRI`.
    RelativeOidIri,
    /// Is `UTF8String`.
    Utf8String,
    /// Is `NumericString`.
    NumericString,
    /// Is `PrintableString`.
    PrintableString,
    /// Is `VisibleString`.
    VisibleString,
    /// Is `IA5String`.
    Ia5String,
    /// Is `UniversalString`.
    UniversalString,
    /// Is `GeneralString`.
    GeneralString,
    /// Is `GraphicString`.
    GraphicString,
    /// Is `BMPString`.
    BmpString,
    /// Is `ISO646String`.
    Iso646String,
    /// Is `TeletexString`.
    TeletexString,
    /// Is `T61String`.
    T61String,
    /// Is `VideotexString`.
    VideotexString,
    /// Is `UTCTime`.
    UtcTime,
    /// Is `GeneralizedTime`.
    GeneralizedTime,
    /// Is `DATE`.
    Date,
    /// Is `TIME`.
    Time,
    /// Is `TIME-OF-DAY`.
    TimeOfDay,
    /// Is `DATE-TIME`.
    DateTime,
    /// Is `DURATION`.
    Duration,
}

/// Returns the reserved word of a module's parts that the text is.
fn header_word(text: &str) -> Option<Keyword>
    ensures { result ≡ keyword_among header_words text.now }
{
    match text {
        "DEFINITIONS" => Some(Keyword::Definitions),
        "EXPLICIT" => Some(Keyword::Explicit),
        "IMPLICIT" => Some(Keyword::Implicit),
        "AUTOMATIC" => Some(Keyword::Automatic),
        "TAGS" => Some(Keyword::Tags),
        "EXTENSIBILITY" => Some(Keyword::Extensibility),
        "IMPLIED" => Some(Keyword::Implied),
        "BEGIN" => Some(Keyword::Begin),
        "END" => Some(Keyword::End),
        "EXPORTS" => Some(Keyword::Exports),
        "ALL" => Some(Keyword::All),
        "IMPORTS" => Some(Keyword::Imports),
        "FROM" => Some(Keyword::From),
        "WITH" => Some(Keyword::With),
        "SUCCESSORS" => Some(Keyword::Successors),
        "DESCENDANTS" => Some(Keyword::Descendants),
        "MACRO" => Some(Keyword::Macro),
        "CLASS" => Some(Keyword::Class),
        "INSTANCE" => Some(Keyword::Instance),
        "SYNTAX" => Some(Keyword::Syntax),
        "TYPE-IDENTIFIER" => Some(Keyword::TypeIdentifier),
        "ABSTRACT-SYNTAX" => Some(Keyword::AbstractSyntax),
        "INSTRUCTIONS" => Some(Keyword::Instructions),
        "ENCODING-CONTROL" => Some(Keyword::EncodingControl),
        _ => None,
    }
}

/// Returns the reserved word within types that the text is.
fn part_word(text: &str) -> Option<Keyword>
    ensures { result ≡ keyword_among part_words text.now }
{
    match text {
        "SIZE" => Some(Keyword::Size),
        "UNIVERSAL" => Some(Keyword::Universal),
        "APPLICATION" => Some(Keyword::Application),
        "PRIVATE" => Some(Keyword::Private),
        "OF" => Some(Keyword::Of),
        "BY" => Some(Keyword::By),
        "DEFINED" => Some(Keyword::Defined),
        "STRING" => Some(Keyword::String),
        "IDENTIFIER" => Some(Keyword::Identifier),
        "PDV" => Some(Keyword::Pdv),
        "OPTIONAL" => Some(Keyword::Optional),
        "DEFAULT" => Some(Keyword::Default),
        "COMPONENTS" => Some(Keyword::Components),
        _ => None,
    }
}

/// Returns the reserved word that the text is, of those that begin types.
fn type_word(text: &str) -> Option<Keyword>
    ensures { result ≡ keyword_among type_words text.now }
{
    match text {
        "BOOLEAN" => Some(Keyword::Boolean),
        "NULL" => Some(Keyword::Null),
        "INTEGER" => Some(Keyword::Integer),
        "OCTET" => Some(Keyword::Octet),
        "BIT" => Some(Keyword::Bit),
        "OBJECT" => Some(Keyword::Object),
        "ENUMERATED" => Some(Keyword::Enumerated),
        "SEQUENCE" => Some(Keyword::Sequence),
        "SET" => Some(Keyword::Set),
        "CHOICE" => Some(Keyword::Choice),
        "ANY" => Some(Keyword::Any),
        "REAL" => Some(Keyword::Real),
        "EXTERNAL" => Some(Keyword::External),
        "EMBEDDED" => Some(Keyword::Embedded),
        "CHARACTER" => Some(Keyword::Character),
        "RELATIVE-OID" => Some(Keyword::RelativeOid),
        "ObjectDescriptor" => Some(Keyword::ObjectDescriptor),
        "OID-IRI" => Some(Keyword::OidIri),
        "RELATIVE-OID-IRI" => Some(Keyword::RelativeOidIri),
        _ => None,
    }
}

/// Returns the reserved word that the text is, of those for character strings.
fn text_word(text: &str) -> Option<Keyword>
    ensures { result ≡ keyword_among text_words text.now }
{
    match text {
        "UTF8String" => Some(Keyword::Utf8String),
        "NumericString" => Some(Keyword::NumericString),
        "PrintableString" => Some(Keyword::PrintableString),
        "VisibleString" => Some(Keyword::VisibleString),
        "IA5String" => Some(Keyword::Ia5String),
        "UniversalString" => Some(Keyword::UniversalString),
        "GeneralString" => Some(Keyword::GeneralString),
        "GraphicString" => Some(Keyword::GraphicString),
        "BMPString" => Some(Keyword::BmpString),
        "ISO646String" => Some(Keyword::Iso646String),
        "TeletexString" => Some(Keyword::TeletexString),
        "T61String" => Some(Keyword::T61String),
        "VideotexString" => Some(Keyword::VideotexString),
        _ => None,
    }
}

/// Returns the reserved word that the text is, of those for times.
fn time_word(text: &str) -> Option<Keyword>
    ensures { result ≡ keyword_among time_words text.now }
{
    match text {
        "UTCTime" => Some(Keyword::UtcTime),
        "GeneralizedTime" => Some(Keyword::GeneralizedTime),
        "DATE" => Some(Keyword::Date),
        "TIME" => Some(Keyword::Time),
        "TIME-OF-DAY" => Some(Keyword::TimeOfDay),
        "DATE-TIME" => Some(Keyword::DateTime),
        "DURATION" => Some(Keyword::Duration),
        _ => None,
    }
}

impl Keyword {
    /// Returns the reserved word that the text is, or `None` where it is none.
    #[tactic(auto, unfolding(crate::specs::Keywords::keyword_named))]
    pub fn named(text: &str) -> Option<Keyword>
        ensures { result ≡ keyword_named text.now }
    {
        if let Some(keyword) = type_word(text) {
            return Some(keyword);
        }
        if let Some(keyword) = part_word(text) {
            return Some(keyword);
        }
        if let Some(keyword) = text_word(text) {
            return Some(keyword);
        }
        if let Some(keyword) = header_word(text) {
            return Some(keyword);
        }
        time_word(text)
    }
}
