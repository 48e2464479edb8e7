//! The values that whole texts of the notation are.
ghost use Rattle.std.specs.Prelude.{true, ◌≡◌, ◌+◌, ◌*◌, ◌≤◌, ◌<◌, ℕ, List, length, IfOk, IfErr};
ghost use Rattle.std.specs.Str.{chars};
ghost use Rattle.asn_core.specs.declared.codec.Codec.TheVariants.{Avn};
ghost use Rattle.asn_fault.specs.Failure.{Cause, failure_of, at_root};
ghost use Rattle.avn_grammar.specs.Depth.{ExceedsDepth, deepest};
ghost use Rattle.avn_grammar.specs.Grammar.{ParsesWhole};
ghost use Rattle.avn_grammar.specs.Normal.{normal};
ghost use Rattle.avn_grammar.specs.Print.{print};
ghost use Rattle.avn_grammar.specs.Tree.{Tree};
ghost use Rattle.avn_grammar.specs.ParseFailure.{ParseFailure};
ghost use Rattle.avn_grammar.specs.WellFormed.{is_well_formed};
ghost use Rattle.avn_value.specs.Answer.{Explains, IsValue, IsRefusal};
ghost use Rattle.avn_value.specs.View.{tree_of};

use crate::node_table::NodeTable;
use crate::value::AvnValue;
use asn_core::{Codec, Scan};
use asn_fault::DecodeError;
use avn_grammar::limits::{GREATEST_LEVEL_LIMIT, LEVEL_LIMIT, LOOKS_PER_CHARACTER};
use std::alloc::Global;

/// Returns the value of a table. Its one error is `OutOfMemory`.
fn root_value(alloc: Global, table: &NodeTable) -> Result<AvnValue, DecodeError>
    ensures value { IfOk result (λ value. tree_of value ≡ table.now) }
    ensures refused { IfErr result (λ error.
        failure_of error ≡ at_root Cause.out_of_memory Avn) }
{
    match table.to_value(alloc, 0) {
        Ok(value) => Ok(value),
        Err(_) => Err(DecodeError::out_of_memory(Codec::Avn)),
    }
}

/// Reads the value that the whole text of the scan is, in the ASN.1 value notation (X.680), where
/// no value is looked for at a level above the limit. White space may follow it. What the scan
/// counts rises by at most `LOOKS_PER_CHARACTER` for each character, and as many more, whatever the
/// answer and the limit. The printed text of a well-formed value is read as the value's normal
/// form, unless it is too deep.
///
/// # Errors
///
/// Of the codec AVN: `UnexpectedToken` where no value is read and none is looked for too deep, with
/// the first `EXCERPT_LENGTH` characters of what is not read, or where more than white space
/// follows the value, with all that follows it; `ExceedsMaxParseDepth` where a value is looked for
/// too deep; and `OutOfMemory`.
pub fn parse_scan_within(
    alloc: Global,
    scan: &mut Scan<'_>,
    limit: usize,
) -> Result<AvnValue, DecodeError>
    requires { limit ≤ GREATEST_LEVEL_LIMIT }
    ensures text { scan.new.text ≡ scan.old.text }
    ensures rises { scan.old.looks ≤ scan.new.looks }
    ensures looks { scan.new.looks
        ≤ scan.old.looks + LOOKS_PER_CHARACTER * (length (chars scan.old.text) + 1) }

    ensures ok { IfOk result (λ value. ParsesWhole limit (chars scan.old.text) (tree_of value)) }
    ensures err { IfErr result (λ error.
        Explains limit (chars scan.old.text) (failure_of error)) }

    // Each of the two errors comes exactly where it says, and a value else, memory aside.
    ensures reads { (tree : Tree) → ParsesWhole limit (chars scan.old.text) tree
        → IsValue tree result }
    ensures unread { (found : List ℕ) → ParseFailure limit (chars scan.old.text) found
        → IsRefusal (Cause.unexpected_token found) result }
    ensures deep { ExceedsDepth limit 0 (chars scan.old.text)
        → IsRefusal Cause.exceeds_max_parse_depth result }

    ensures printed { (tree : Tree)
        → scan.old.text ≡ print 0 tree → is_well_formed tree ≡ true
        → deepest 0 tree ≤ limit
        → IsValue (normal tree) result }
    ensures printed_deep { (tree : Tree)
        → scan.old.text ≡ print 0 tree → is_well_formed tree ≡ true
        → limit < deepest 0 tree
        → IsRefusal Cause.exceeds_max_parse_depth result }
{
    match NodeTable::parse(alloc, scan, limit) {
        Ok(table) => root_value(alloc, &table),
        Err(error) => Err(error),
    }
}

/// Reads the value that the whole text of the scan is, as `parse_scan_within` does with the limit
/// `LEVEL_LIMIT`.
///
/// # Errors
///
/// As `parse_scan_within` has them.
pub fn parse_scan(alloc: Global, scan: &mut Scan<'_>) -> Result<AvnValue, DecodeError>
    ensures text { scan.new.text ≡ scan.old.text }
    ensures rises { scan.old.looks ≤ scan.new.looks }
    ensures looks { scan.new.looks
        ≤ scan.old.looks + LOOKS_PER_CHARACTER * (length (chars scan.old.text) + 1) }

    ensures ok { IfOk result (λ value. ParsesWhole LEVEL_LIMIT (chars scan.old.text) (tree_of
        value)) }
    ensures err { IfErr result (λ error.
        Explains LEVEL_LIMIT (chars scan.old.text) (failure_of error)) }

    ensures reads { (tree : Tree) → ParsesWhole LEVEL_LIMIT (chars scan.old.text) tree
        → IsValue tree result }
    ensures unread { (found : List ℕ) → ParseFailure LEVEL_LIMIT (chars scan.old.text) found
        → IsRefusal (Cause.unexpected_token found) result }
    ensures deep { ExceedsDepth LEVEL_LIMIT 0 (chars scan.old.text)
        → IsRefusal Cause.exceeds_max_parse_depth result }
{
    parse_scan_within(alloc, scan, LEVEL_LIMIT)
}

/// Reads the value that the whole text is, as `parse_scan` does. The printed text of a well-formed
/// value is read as the value's normal form, unless it is too deep.
///
/// # Errors
///
/// As `parse_scan_within` has them.
pub fn parse_avn(alloc: Global, input: &str) -> Result<AvnValue, DecodeError>
    ensures ok { IfOk result (λ value. ParsesWhole LEVEL_LIMIT (chars input.now) (tree_of value)) }
    ensures err { IfErr result (λ error.
        Explains LEVEL_LIMIT (chars input.now) (failure_of error)) }

    ensures reads { (tree : Tree) → ParsesWhole LEVEL_LIMIT (chars input.now) tree
        → IsValue tree result }
    ensures unread { (found : List ℕ) → ParseFailure LEVEL_LIMIT (chars input.now) found
        → IsRefusal (Cause.unexpected_token found) result }
    ensures deep { ExceedsDepth LEVEL_LIMIT 0 (chars input.now)
        → IsRefusal Cause.exceeds_max_parse_depth result }

    ensures printed { (tree : Tree)
        → input.now ≡ print 0 tree → is_well_formed tree ≡ true
        → deepest 0 tree ≤ LEVEL_LIMIT
        → IsValue (normal tree) result }
    ensures printed_deep { (tree : Tree)
        → input.now ≡ print 0 tree → is_well_formed tree ≡ true
        → LEVEL_LIMIT < deepest 0 tree
        → IsRefusal Cause.exceeds_max_parse_depth result }
{
    let mut scan = Scan::new(input);
    parse_scan_within(alloc, &mut scan, LEVEL_LIMIT)
}
