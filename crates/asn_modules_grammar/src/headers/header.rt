//! Reads what stands in a module before its assignments.
ghost use Rattle.asn_modules_grammar.specs.headers.Fronts.{IsSyntax};
ghost use Rattle.asn_modules_grammar.specs.headers.Headers as spec;
ghost use Rattle.asn_modules_grammar.specs.headers.Headers.{HeaderParses};
ghost use Rattle.asn_modules_grammar.specs.headers.Views.{header_view};
ghost use Rattle.asn_lexer.specs.declared.token.Token.{Token};
ghost use Rattle.std.specs.Prelude.{IfErr, IfOk, List};

use crate::headers::export::read_exports;
use crate::headers::fault::SyntaxFault;
use crate::headers::import::{Import, read_imports};
use crate::headers::opening::{Opening, read_opening};
use asn_lexer::Token;
use std::alloc::Global;

/// Holds what stands in a module before its assignments.
#[derive(Drop)]
pub struct Header {
    /// Holds what it states up to `BEGIN`.
    pub opening: Opening,
    /// Lists the names that it exports; `None` is all.
    pub exports: Option<Vec<Token>>,
    /// Lists what it imports.
    pub imports: Vec<Import>,
}

/// Returns the header of a module, and what follows it.
///
/// # Errors
///
/// `Unexpected` exactly where no header stands at the front of the tokens, unless memory runs out,
/// and `OutOfMemory`.
pub fn read_header(alloc: Global, tokens: &[Token]) -> Result<(Header, &[Token]), SyntaxFault>
    ensures ok { IfOk result (λ found.
        HeaderParses tokens.now (header_view found.0) found.1.now) }
    ensures none { IfErr result (λ e. IsSyntax e → (header : spec.Header) (rest : List Token)
        → HeaderParses tokens.now header rest → ⊥) }
{
    let (opening, behind) = read_opening(alloc, tokens)?;
    let (exports, behind) = read_exports(alloc, behind)?;
    let (imports, rest) = read_imports(alloc, behind)?;
    let header = Header {
        opening,
        exports,
        imports,
    };
    Ok((header, rest))
}
