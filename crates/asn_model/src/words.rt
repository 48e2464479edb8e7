//! Gives the texts of refusals and the words of mismatches, each once: the codecs answer with
//! them, and the definitions cite them. Words without a codec's name are the same in both.
ghost use Rattle.std.specs.Prelude.{◌≡◌, codes};

/// The refusal of a text that is no JSON.
pub const JER_NO_JSON: &str = "Error parsing JER JSON";

/// The refusal of digits that are no octets, where a length stands beside them.
pub const JER_NO_BITS: &str = "Failed to create BitString from bytes";

/// What is found in place of an object that is opened for its members.
pub const JER_UNKNOWN: &str = "unknown";

/// The refusal of octets that are no UTF-8 where a character string is needed.
pub const AVN_NO_UTF8: &str = "Invalid UTF-8 in AVN string";

/// The refusal to encode a string that is not Unicode.
pub const AVN_NO_UNICODE: &str = "Invalid UTF-8";

/// The refusal of a character outside a type's alphabet, before the character's place.
pub const OUTSIDE_ALPHABET: &str = "character outside the alphabet at place";

/// The refusal to encode a time whose year has no place in its text.
pub const OUTSIDE_YEARS: &str = "time outside the years of its text";

/// The refusal of a text that is no number from 2^63 to 2^64-1, before the text.
pub const NO_DECIMAL: &str = "Failed to parse decimal number: ";

/// The refusal to encode or decode a TeletexString.
pub const NO_TELETEX: &str = "TeletexString is not supported";

/// What JER needs for SEQUENCE, for SET and for CHOICE.
pub const JER_OBJECT: &str = "object";

/// What JER needs for CHOICE where an object has two members or more.
pub const JER_ONE_MEMBER: &str = "object with one member";

/// What JER needs for SEQUENCE OF and for SET OF.
pub const JER_ARRAY: &str = "array";

/// What JER needs for INTEGER.
pub const JER_NUMBER: &str = "number (supported range -2^63..2^64)";

/// What JER needs for a character string.
pub const JER_STRING: &str = "string";

/// What JER needs for UTCTime and GeneralizedTime.
pub const JER_TIME: &str = "time string";

/// What JER needs for DATE.
pub const JER_DATE: &str = "date string";

/// What JER needs for ENUMERATED.
pub const JER_ITEM: &str = "enumerated item as string";

/// What JER needs for octets, and for bits of a fixed size.
pub const JER_DIGITS: &str = "hex string";

/// What JER needs for OBJECT IDENTIFIER.
pub const JER_ARCS: &str = "number array";

/// What JER needs for bits of any size.
pub const JER_BITS: &str = "JSON object containing 'value' and 'length' properties.";

/// What both need for NULL.
pub const NULL: &str = "null";

/// What both need for BOOLEAN.
pub const BOOLEAN: &str = "boolean";

/// What AVN needs for INTEGER.
pub const AVN_NUMBER: &str = "integer";

/// What AVN needs for a character string or a time.
pub const AVN_STRING: &str = "character string";

/// What AVN needs for ENUMERATED.
pub const AVN_ITEM: &str = "enumerated identifier";

/// What AVN needs for octets.
pub const AVN_OCTETS: &str = "octet string ('...'H)";

/// What AVN needs for OBJECT IDENTIFIER.
pub const AVN_ARCS: &str = "OID as { arc... }";

/// What AVN needs for an arc of an OBJECT IDENTIFIER.
pub const AVN_ARC: &str = "OID arc (integer)";

/// What AVN needs for bits.
pub const AVN_BITS: &str = "bit string ('...'H or '...'B)";

/// What AVN needs for SEQUENCE.
pub const AVN_MEMBERS: &str = "sequence";

/// What AVN needs for SEQUENCE OF.
pub const AVN_LIST: &str = "sequence of";

/// What AVN needs for CHOICE.
pub const AVN_CHOICE: &str = "choice (identifier : value)";

/// What AVN needs for SET.
pub const AVN_SET: &str = "set";

/// What AVN needs for SET OF.
pub const AVN_SET_OF: &str = "set of";

/// The texts of refusals are these.
pub fn stated_refusals()
    ensures jer_no_json { JER_NO_JSON.now ≡ codes "Error parsing JER JSON" }
    ensures jer_no_bits { JER_NO_BITS.now ≡ codes "Failed to create BitString from bytes" }
    ensures jer_unknown { JER_UNKNOWN.now ≡ codes "unknown" }
    ensures avn_no_utf8 { AVN_NO_UTF8.now ≡ codes "Invalid UTF-8 in AVN string" }
    ensures avn_no_unicode { AVN_NO_UNICODE.now ≡ codes "Invalid UTF-8" }
    ensures outside_alphabet { OUTSIDE_ALPHABET.now
        ≡ codes "character outside the alphabet at place" }
    ensures outside_years { OUTSIDE_YEARS.now ≡ codes "time outside the years of its text" }
    ensures no_decimal { NO_DECIMAL.now ≡ codes "Failed to parse decimal number: " }
    ensures no_teletex { NO_TELETEX.now ≡ codes "TeletexString is not supported" }
{}

/// The words of mismatches are these.
pub fn stated_words()
    ensures jer_object { JER_OBJECT.now ≡ codes "object" }
    ensures jer_one_member { JER_ONE_MEMBER.now ≡ codes "object with one member" }
    ensures jer_array { JER_ARRAY.now ≡ codes "array" }
    ensures jer_number { JER_NUMBER.now ≡ codes "number (supported range -2^63..2^64)" }
    ensures jer_string { JER_STRING.now ≡ codes "string" }
    ensures jer_time { JER_TIME.now ≡ codes "time string" }
    ensures jer_date { JER_DATE.now ≡ codes "date string" }
    ensures jer_item { JER_ITEM.now ≡ codes "enumerated item as string" }
    ensures jer_digits { JER_DIGITS.now ≡ codes "hex string" }
    ensures jer_arcs { JER_ARCS.now ≡ codes "number array" }
    ensures jer_bits { JER_BITS.now
        ≡ codes "JSON object containing 'value' and 'length' properties." }
    ensures null { NULL.now ≡ codes "null" }
    ensures boolean { BOOLEAN.now ≡ codes "boolean" }
    ensures avn_number { AVN_NUMBER.now ≡ codes "integer" }
    ensures avn_string { AVN_STRING.now ≡ codes "character string" }
    ensures avn_item { AVN_ITEM.now ≡ codes "enumerated identifier" }
    ensures avn_octets { AVN_OCTETS.now ≡ codes "octet string ('...'H)" }
    ensures avn_arcs { AVN_ARCS.now ≡ codes "OID as { arc... }" }
    ensures avn_arc { AVN_ARC.now ≡ codes "OID arc (integer)" }
    ensures avn_bits { AVN_BITS.now ≡ codes "bit string ('...'H or '...'B)" }
    ensures avn_members { AVN_MEMBERS.now ≡ codes "sequence" }
    ensures avn_list { AVN_LIST.now ≡ codes "sequence of" }
    ensures avn_choice { AVN_CHOICE.now ≡ codes "choice (identifier : value)" }
    ensures avn_set { AVN_SET.now ≡ codes "set" }
    ensures avn_set_of { AVN_SET_OF.now ≡ codes "set of" }
{}
