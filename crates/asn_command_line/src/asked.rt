//! Defines what a command line asks for, and takes it from what `clap` found.
ghost use Rattle.std.specs.Prelude.{◌≡◌, IfOk, IfSome, codes, map};
ghost use Rattle.asn_command_line.specs.Notations.{IsTextNotation};
ghost use Rattle.asn_command_line.specs.Taken.{HasAnyValues, HasNotation, HasTextNotations};
ghost use Rattle.asn_command_line.specs.Taken.{HasValue, HasValues, IsTaken, MayHaveNotation};
ghost use Rattle.asn_command_line.specs.Taken.{TextHasNotation};
ghost use Rattle.clap.specs.Words.{found_of};

use crate::notations::{codec_of, codec_of_file};
use asn_core::Codec;
use clap::ArgMatches;
use std::alloc::{AllocError, Global};

/// Is what a command line asks for. A file `-` is standard input.
#[derive(Debug, Drop)]
pub enum Asked<'a> {
    /// To convert a text.
    Convert {
        /// Lists the files of modules. Without any, the type is one that is built in.
        modules: Vec<&'a str>,
        /// Names the type.
        name: &'a str,
        /// Is the notation of the text.
        from: Codec,
        /// Is the notation that is written.
        to: Codec,
        /// States whether each line is a text of its own.
        lines: bool,
        /// States whether a refusal is to be explained.
        explain: bool,
        /// States whether to show how far the conversion is.
        progress: bool,
        /// Names the file of the text.
        file: &'a str,
    },
    /// To check modules.
    Check {
        /// Lists their files.
        files: Vec<&'a str>,
    },
    /// To list the types of modules.
    Types {
        /// Lists their files.
        files: Vec<&'a str>,
    },
    /// To show a type of modules, or a value of it.
    Show {
        /// Lists their files.
        files: Vec<&'a str>,
        /// Names the type.
        name: &'a str,
        /// Is the notation of the value that is shown in place of the type, or nothing where the
        /// type is to be shown.
        example: Option<Codec>,
        /// States whether the value is to have every part that may be absent.
        full: bool,
    },
    /// To say whether a type is a later version of an older one.
    Grows {
        /// Names the file of the older module.
        old: &'a str,
        /// Names the file of the newer one.
        new: &'a str,
        /// Names the type.
        name: &'a str,
    },
    /// To cut the lines of a text to what the older version of a type knows.
    Keep {
        /// Names the file of the older module.
        old: &'a str,
        /// Names the file of the newer one.
        new: &'a str,
        /// Names the type.
        name: &'a str,
        /// Is the notation of the lines.
        from: Codec,
        /// States whether to show how far it is.
        progress: bool,
        /// Names the file of the lines.
        file: &'a str,
    },
    /// To write the completions of the command line for bash.
    Completions,
}

/// States why nothing is taken from what was found.
#[derive(Clone, Copy, Debug, PartialEq, Eq, Drop)]
pub enum Untaken {
    /// An argument has no value, or the notation of a text isn't told.
    Missing,
    /// Memory ran out.
    OutOfMemory,
}

/// Makes `?` turn a refusal of memory into `OutOfMemory`.
impl From<AllocError> for Untaken {
    fn from(_error: AllocError) -> Untaken {
        Untaken::OutOfMemory
    }
}

/// Returns the value of the argument.
///
/// # Errors
///
/// `Missing` where it has none.
fn value<'a>(found: &ArgMatches<'a>, id: &str) -> Result<&'a str, Untaken>
    ensures { IfOk result (λ text. HasValue (found_of found.now) id.now text.now) }
{
    match found.get_str(id) {
        Some(text) => Ok(text),
        None => Err(Untaken::Missing),
    }
}

/// Returns the values of the argument.
///
/// # Errors
///
/// `Missing` where it has none, `OutOfMemory`.
fn values<'a>(alloc: Global, found: &ArgMatches<'a>, id: &str) -> Result<Vec<&'a str>, Untaken>
    ensures { IfOk result (λ texts.
        HasValues (found_of found.now) id.now (map (λ s. s.now) texts.items)) }
{
    match found.get_strs(id) {
        Some(texts) => Ok(Vec::from_slice(alloc, texts)?),
        None => Err(Untaken::Missing),
    }
}

/// Returns the values of the argument, none where it isn't given.
///
/// # Errors
///
/// `OutOfMemory` alone.
fn any_values<'a>(alloc: Global, found: &ArgMatches<'a>, id: &str) -> Result<Vec<&'a str>, Untaken>
    ensures { IfOk result (λ texts.
        HasAnyValues (found_of found.now) id.now (map (λ s. s.now) texts.items)) }
{
    if found.contains_id(id) {
        return values(alloc, found, id);
    }
    Ok(Vec::new(alloc))
}

/// Returns the notation that the argument names.
///
/// # Errors
///
/// `Missing` where it names none.
fn notation(found: &ArgMatches<'_>, id: &str) -> Result<Codec, Untaken>
    ensures named { IfOk result (HasNotation (found_of found.now) id.now) }
    ensures text { IfOk result IsTextNotation }
{
    let name = value(found, id)?;
    match codec_of(name) {
        Some(codec) => Ok(codec),
        None => Err(Untaken::Missing),
    }
}

/// Returns the notation that the argument names, or `None` where it isn't given.
///
/// # Errors
///
/// `Missing` where it is given and names none.
fn any_notation(found: &ArgMatches<'_>, id: &str) -> Result<Option<Codec>, Untaken>
    ensures named { IfOk result (MayHaveNotation (found_of found.now) id.now) }
    ensures text { IfOk result (λ codec. IfSome codec IsTextNotation) }
{
    if found.contains_id(id) {
        return Ok(Some(notation(found, id)?));
    }
    Ok(None)
}

/// Returns the notation of the text in this file: that of `--from`, or where there is none, that
/// which the file's name tells.
///
/// # Errors
///
/// `Missing` where neither tells it.
fn notation_of_text(found: &ArgMatches<'_>, file: &str) -> Result<Codec, Untaken>
    ensures told { IfOk result (TextHasNotation (found_of found.now) file.now) }
    ensures text { IfOk result IsTextNotation }
{
    if found.contains_id("from") {
        return notation(found, "from");
    }
    match codec_of_file(file) {
        Some(codec) => Ok(codec),
        None => Err(Untaken::Missing),
    }
}

/// Returns the conversion that is asked for.
///
/// # Errors
///
/// `Missing` where the notation of the text isn't told, `OutOfMemory`.
fn conversion<'a>(alloc: Global, found: &ArgMatches<'a>) -> Result<Asked<'a>, Untaken>
    ensures taken { IfOk result (IsTaken (codes "convert") (found_of found.now)) }
    ensures text { IfOk result HasTextNotations }
{
    let file = value(found, "file")?;
    Ok(Asked::Convert {
        modules: any_values(alloc, found, "module")?,
        name: value(found, "type")?,
        from: notation_of_text(found, file)?,
        to: notation(found, "to")?,
        lines: found.get_flag("lines"),
        explain: found.get_flag("explain"),
        progress: found.get_flag("progress"),
        file,
    })
}

/// Returns which type is to be shown, and how.
///
/// # Errors
///
/// `Missing` for no words that are read, `OutOfMemory`.
fn showing<'a>(alloc: Global, found: &ArgMatches<'a>) -> Result<Asked<'a>, Untaken>
    ensures taken { IfOk result (IsTaken (codes "show") (found_of found.now)) }
    ensures text { IfOk result HasTextNotations }
{
    Ok(Asked::Show {
        files: values(alloc, found, "modules")?,
        name: value(found, "type")?,
        example: any_notation(found, "example")?,
        full: found.get_flag("full"),
    })
}

/// Returns which types are to be compared.
///
/// # Errors
///
/// `Missing` for no words that are read.
fn comparison<'a>(found: &ArgMatches<'a>) -> Result<Asked<'a>, Untaken>
    ensures taken { IfOk result (IsTaken (codes "grows") (found_of found.now)) }
    ensures text { IfOk result HasTextNotations }
{
    Ok(Asked::Grows {
        old: value(found, "old")?,
        new: value(found, "new")?,
        name: value(found, "type")?,
    })
}

/// Returns which lines are to be cut.
///
/// # Errors
///
/// `Missing` for no words that are read.
fn cutting<'a>(found: &ArgMatches<'a>) -> Result<Asked<'a>, Untaken>
    ensures taken { IfOk result (IsTaken (codes "keep") (found_of found.now)) }
    ensures text { IfOk result HasTextNotations }
{
    Ok(Asked::Keep {
        old: value(found, "old")?,
        new: value(found, "new")?,
        name: value(found, "type")?,
        from: notation(found, "from")?,
        progress: found.get_flag("progress"),
        file: value(found, "file")?,
    })
}

/// Returns what the command of that name asks for, by what was found for it.
///
/// # Errors
///
/// `Missing` where the notation of the text isn't told, `OutOfMemory`.
pub fn taken<'a>(alloc: Global, name: &str, found: &ArgMatches<'a>) -> Result<Asked<'a>, Untaken>
    ensures taken { IfOk result (IsTaken name.now (found_of found.now)) }
    ensures text { IfOk result HasTextNotations }
{
    match name {
        "convert" => conversion(alloc, found),
        "check" => Ok(Asked::Check {
            files: values(alloc, found, "modules")?,
        }),
        "types" => Ok(Asked::Types {
            files: values(alloc, found, "modules")?,
        }),
        "show" => showing(alloc, found),
        "grows" => comparison(found),
        "keep" => cutting(found),
        "completions" => Ok(Asked::Completions),
        _ => Err(Untaken::Missing),
    }
}
