//! States reasons in words.
ghost use Rattle.asn_version_reports.specs.Reports.{reason_words};
ghost use Rattle.std.specs.Prelude.{◌≡◌};

use asn_growth::Reason;

/// Returns the reason in words.
pub fn reason_words(reason: Reason) -> &'static str
    ensures { result.now ≡ reason_words reason }
{
    match reason {
        Reason::Kind => "the kinds differ",
        Reason::Numbers => "the sizes, bounds, alphabets or enclosing types differ",
        Reason::Names => "the names in the root differ",
        Reason::Tags => "the tags in the root differ",
        Reason::Presence => "what may be absent in the root differs, or its default",
        Reason::Extensible => "one of them alone has an extension marker",
        Reason::Additions => "the extension additions don't begin with the older ones",
    }
}
