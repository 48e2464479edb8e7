//! Names the notations of texts.
ghost use Rattle.std.specs.Prelude.{◌≡◌, IfSome, nat_eq};
ghost use Rattle.std.specs.List.{ends_with};
ghost use Rattle.asn_command_line.specs.Notations.{IsTextNotation, notation_named};
ghost use Rattle.asn_command_line.specs.Notations.{notation_of_file};

use asn_core::Codec;

/// Lists the names of the notations.
pub static NOTATIONS: [&str; 2] = ["jer", "avn"];

/// Returns the notation of that name, `jer` or `avn`, and `None` for any other.
pub fn codec_of(name: &str) -> Option<Codec>
    ensures named { result ≡ notation_named name.now }
    ensures text { IfSome result IsTextNotation }
{
    match name {
        "jer" => Some(Codec::Jer),
        "avn" => Some(Codec::Avn),
        _ => None,
    }
}

/// Returns the notation that the end of a file's name tells: JER for `.json` and `.jer`, AVN for
/// `.avn`, and `None` for any other.
pub fn codec_of_file(file: &str) -> Option<Codec>
    ensures told { result ≡ notation_of_file file.now }
    ensures text { IfSome result IsTextNotation }
{
    if has_end(file, ".json") || has_end(file, ".jer") {
        return Some(Codec::Jer);
    }
    if has_end(file, ".avn") {
        return Some(Codec::Avn);
    }
    None
}

/// Returns whether the text ends with these characters.
fn has_end(text: &str, end: &str) -> bool
    ensures { result ≡ ends_with nat_eq text.now end.now }
{
    text.ends_with(end)
}
