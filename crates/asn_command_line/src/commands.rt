//! Describes the command line to `clap`.
use crate::notations::NOTATIONS;
use clap::{Arg, ArgAction, Command};
use std::alloc::{AllocError, Global};

/// Is the version of the program, that of the file VERSION.
const VERSION: &str = "0.1.0";

/// Lists the shells that have completions.
static SHELLS: [&str; 1] = ["bash"];

/// Returns the argument that names a type.
fn type_name<'a>(alloc: Global) -> Arg<'a> {
    Arg::new(alloc, "type")
        .short('t')
        .long("type")
        .value_name("TYPE")
        .action(ArgAction::Set)
        .required(true)
        .help("The type of the values, as Name or Module.Name")
}

/// Returns the option of this name that names a notation.
fn notation<'a>(alloc: Global, id: &'a str, help: &'a str) -> Arg<'a> {
    Arg::new(alloc, id)
        .long(id)
        .value_name("NOTATION")
        .value_parser(NOTATIONS.as_slice())
        .action(ArgAction::Set)
        .help(help)
}

/// Returns the flag of this name.
fn flag<'a>(alloc: Global, id: &'a str, help: &'a str) -> Arg<'a> {
    Arg::new(alloc, id)
        .long(id)
        .action(ArgAction::SetTrue)
        .help(help)
}

/// Returns the flag that asks to show how far a command is. The launcher gives it at a terminal.
fn progress<'a>(alloc: Global) -> Arg<'a> {
    flag(alloc, "progress", "Shows how far it is").hide(true)
}

/// Returns the argument that names one file of modules.
fn module_file<'a>(alloc: Global, id: &'a str, name: &'a str, help: &'a str) -> Arg<'a> {
    Arg::new(alloc, id)
        .value_name(name)
        .action(ArgAction::Set)
        .required(true)
        .help(help)
}

/// Returns the argument that names the file of a text.
fn text_file<'a>(alloc: Global, help: &'a str) -> Arg<'a> {
    Arg::new(alloc, "file")
        .value_name("FILE")
        .action(ArgAction::Set)
        .default_value("-")
        .hide_default_value(true)
        .help(help)
}

/// Returns the command that converts.
fn converting<'a>(alloc: Global) -> Result<Command<'a>, AllocError> {
    let module = Arg::new(alloc, "module")
        .short('m')
        .long("module")
        .value_name("FILE.asn")
        .action(ArgAction::Append)
        .help("A file of ASN.1 modules, or several by several -m; without one TYPE is built in");
    Command::new(alloc, "convert")
        .about("Writes the canonical text of a value, or of the value in each line")
        .after_help(
            "Examples:\n  \
             asn convert -m examples/sensor.asn -t Report --to avn examples/report.json\n  \
             asn convert -m examples/sensor.asn -t Report --from jer --to jer --lines \
             examples/reports.jsonl\n  \
             echo 7 | asn convert -t u64 --from jer --to avn",
        )
        .arg(module)?
        .arg(type_name(alloc))?
        .arg(notation(
            alloc,
            "from",
            "The notation of the text, where its name doesn't end in .json, .jer or .avn",
        ))?
        .arg(notation(alloc, "to", "The notation that is written").required(true))?
        .arg(flag(alloc, "lines", "Converts each line as a text of its own"))?
        .arg(flag(alloc, "explain", "Explains a refusal at length"))?
        .arg(progress(alloc))?
        .arg(text_file(alloc, "The file of the text; - or none is standard input"))
}

/// Returns a command over files of modules.
fn over_modules<'a>(
    alloc: Global,
    name: &'a str,
    about: &'a str,
    example: &'a str,
) -> Result<Command<'a>, AllocError> {
    let modules = Arg::new(alloc, "modules")
        .value_name("FILE.asn")
        .action(ArgAction::Append)
        .num_args(1..)
        .required(true)
        .help("Files of ASN.1 modules");
    Command::new(alloc, name)
        .about(about)
        .after_help(example)
        .arg(modules)
}

/// Returns the command that shows a type.
fn showing<'a>(alloc: Global) -> Result<Command<'a>, AllocError> {
    let command = over_modules(
        alloc,
        "show",
        "Shows a type with those that it names, or a value of it",
        "Examples:\n  asn show examples/sensor.asn -t Report\n  \
         asn show examples/sensor.asn -t Report --example avn --full",
    )?;
    let example = notation(
        alloc,
        "example",
        "Shows the smallest value of the type in this notation in place of the type",
    );
    let full = flag(
        alloc,
        "full",
        "Shows a value with every part that may be absent, and one element in each list",
    );
    command
        .arg(type_name(alloc))?
        .arg(example)?
        .arg(full.requires_arg("example")?)
}

/// Returns a command over an older and a newer file of modules.
fn over_versions<'a>(
    alloc: Global,
    name: &'a str,
    about: &'a str,
    example: &'a str,
) -> Result<Command<'a>, AllocError> {
    Command::new(alloc, name)
        .about(about)
        .after_help(example)
        .arg(module_file(alloc, "old", "OLD.asn", "The file of the older modules"))?
        .arg(module_file(alloc, "new", "NEW.asn", "The file of the newer modules"))?
        .arg(type_name(alloc))
}

/// Returns the command that cuts lines.
fn keeping<'a>(alloc: Global) -> Result<Command<'a>, AllocError> {
    let command = over_versions(
        alloc,
        "keep",
        "Cuts each line to what the older version of a type knows, and writes it in JSON",
        "Example:\n  asn keep examples/sensor-1.asn examples/sensor.asn -t Report --from jer \
         examples/reports.jsonl",
    )?;
    command
        .arg(notation(alloc, "from", "The notation of the lines").required(true))?
        .arg(progress(alloc))?
        .arg(text_file(alloc, "The file of the lines; - or none is standard input"))
}

/// Returns the command that writes completions.
fn completing<'a>(alloc: Global) -> Result<Command<'a>, AllocError> {
    let shell = Arg::new(alloc, "shell")
        .value_name("SHELL")
        .value_parser(SHELLS.as_slice())
        .action(ArgAction::Set)
        .required(true)
        .help("The shell");
    Command::new(alloc, "completions")
        .about("Writes a script by which the shell completes the words of this command")
        .after_help("Example:\n  source <(asn completions bash)")
        .arg(shell)
}

/// Returns the command line.
///
/// # Errors
///
/// Where memory runs out.
pub fn command_line<'a>(alloc: Global) -> Result<Command<'a>, AllocError> {
    let check = over_modules(
        alloc,
        "check",
        "Reads modules, and says what is wrong",
        "Example:\n  asn check examples/sensor.asn",
    )?;
    let types = over_modules(
        alloc,
        "types",
        "Lists the types of modules",
        "Example:\n  asn types examples/calls.asn",
    )?;
    let grows = over_versions(
        alloc,
        "grows",
        "Says whether a type is a later version of an older one, and where it isn't",
        "Example:\n  asn grows examples/sensor-1.asn examples/sensor.asn -t Report",
    )?;
    Command::new(alloc, "asn")
        .about("Converts values between JSON (JER) and ASN.1 value notation by ASN.1 modules")
        .version(VERSION)
        .subcommand_required(true)
        .arg_required_else_help(true)
        .subcommand(converting(alloc)?)?
        .subcommand(check)?
        .subcommand(types)?
        .subcommand(showing(alloc)?)?
        .subcommand(grows)?
        .subcommand(keeping(alloc)?)?
        .subcommand(completing(alloc)?)
}
