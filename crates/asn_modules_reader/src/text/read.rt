//! Reads texts.
ghost use Rattle.asn_lexer.specs.Tokens.{HasTokens};
ghost use Rattle.asn_modules_errors.specs.Errors.{Refuses};
ghost use Rattle.asn_modules_grammar.specs.notation.Modules as spec;
ghost use Rattle.asn_modules_grammar.specs.notation.View.{module_view};
ghost use Rattle.asn_modules_reader.specs.text.Texts.{IsText, IsTextRefusal, IsRefused};
ghost use Rattle.std.specs.Prelude.{◌≡◌, IfErr, IfOk, List, map};

use crate::limits::NESTING_LIMIT;
use crate::read_text;
use crate::text::source::Source;
use asn_lexer::{LexFault, Token, tokens};
use asn_modules_errors::{Cause, ModuleError, no_token_at, place_at, refused, unexpected_token};
use asn_modules_grammar::headers::SyntaxFault;
use asn_modules_grammar::notation::Module;
use std::alloc::Global;

/// Returns the modules that the tokens of the text of this name stand for.
///
/// # Errors
///
/// `Refused` exactly where they stand for none, unless memory runs out, and `OutOfMemory`.
fn read_tokens(
    alloc: Global,
    file: &str,
    text: &str,
    found: &[Token],
) -> Result<Vec<Module>, ModuleError>
    requires { HasTokens text.now found.now }
    ensures ok { IfOk result (λ modules.
        IsText NESTING_LIMIT text.now (map module_view modules.items)) }
    ensures refused { IfErr result (λ e.
        Refuses file.now (IsTextRefusal NESTING_LIMIT text.now) e) }
{
    match read_text(alloc, found) {
        Ok(modules) => Ok(modules),
        Err(SyntaxFault::Unexpected { met, expected }) => {
            Err(unexpected_token(alloc, file, text, met, expected))
        }
        Err(SyntaxFault::OutOfMemory) => Err(ModuleError::OutOfMemory),
    }
}

/// Returns the modules of the text of this name, of which each is in the grammar of
/// `asn_modules_grammar`.
///
/// # Errors
///
/// `Refused` exactly where the text is none of modules, unless memory runs out: at the first place
/// that begins no token, else at the first token that fits nothing that may stand there, or at the
/// end of the text. A part of ASN.1 that isn't read is reported by its name. `OutOfMemory` may come
/// in place of any answer.
pub fn read_source<'t>(
    alloc: Global,
    file: &'t str,
    text: &'t str,
) -> Result<Source<'t>, ModuleError>
    ensures ok { IfOk result (λ source.
        IsText NESTING_LIMIT text.now (map module_view source.modules.items)) }
    ensures kept { IfOk result (λ source.
        (source.file.now ≡ file.now) × (source.text.now ≡ text.now)) }
    ensures refused { IfErr result (λ e.
        Refuses file.now (IsTextRefusal NESTING_LIMIT text.now) e) }
    ensures none { IfErr result (λ e. IsRefused e → (modules : List spec.Module)
        → IsText NESTING_LIMIT text.now modules → ⊥) }
{
    match tokens(alloc, text) {
        Ok(found) => {
            let modules = read_tokens(alloc, file, text, found.as_slice())?;
            Ok(Source {
                file,
                text,
                modules,
            })
        }
        Err(LexFault::NoToken(offset)) => {
            let cause = Cause::NoToken(no_token_at(text, offset));
            Err(refused(alloc, file, place_at(text, offset), cause))
        }
        Err(LexFault::OutOfMemory) => Err(ModuleError::OutOfMemory),
    }
}
