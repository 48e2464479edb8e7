//! Makes members of the entries between braces.
ghost use Rattle.asn_modules_grammar.specs.notation.View.{members_view};
ghost use Rattle.asn_modules_reader.specs.parts.EntryLists.{entries_of};
ghost use Rattle.asn_modules_reader.specs.Views.{member_seen};
ghost use Rattle.std.specs.Prelude.{◌≡◌, map};

use crate::parts::Entries;
use asn_modules_grammar::notation::{Extension, Member, Members};

/// Returns the members that the entries are.
pub(crate) fn members_of(entries: Entries<Member>) -> Members
    ensures { members_view result ≡ map member_seen (entries_of entries) }
{
    let Entries { root, added, tail } = entries;
    match added {
        None => Members {
            root,
            extension: None,
        },
        Some(additions) => Members {
            root,
            extension: Some(Extension { additions, tail }),
        },
    }
}
