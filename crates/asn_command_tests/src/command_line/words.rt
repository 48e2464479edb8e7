//! Command lines, their words parted by blanks.
use asn_command_line::{BASH_COMPLETIONS, Unasked, read_command_line};
use std::alloc::Global;
use std::test::Fail;

/// Lists command lines and what they ask for.
const ASKED: [(&str, &str); 18] = [
    (
        "asn convert -m a.asn -m b.asn -t T --from jer --to avn --lines --explain --progress x",
        "Convert { modules: [\"a.asn\", \"b.asn\"], name: \"T\", from: Jer, to: Avn, lines: true, \
         explain: true, progress: true, file: \"x\" }",
    ),
    (
        "asn convert --module=a.asn --type=M.T --to=avn --from=avn",
        "Convert { modules: [\"a.asn\"], name: \"M.T\", from: Avn, to: Avn, lines: false, \
         explain: false, progress: false, file: \"-\" }",
    ),
    // The name of the file tells the notation.
    (
        "asn convert x.json -m a.asn -t T --to avn",
        "Convert { modules: [\"a.asn\"], name: \"T\", from: Jer, to: Avn, lines: false, \
         explain: false, progress: false, file: \"x.json\" }",
    ),
    (
        "asn convert -ma.asn -tT --to avn .jer",
        "Convert { modules: [\"a.asn\"], name: \"T\", from: Jer, to: Avn, lines: false, \
         explain: false, progress: false, file: \".jer\" }",
    ),
    (
        "asn convert -m a.asn -t T --to jer x.json.avn",
        "Convert { modules: [\"a.asn\"], name: \"T\", from: Avn, to: Jer, lines: false, \
         explain: false, progress: false, file: \"x.json.avn\" }",
    ),
    // The option is stronger than the name.
    (
        "asn convert -m a.asn -t T --from avn --to jer x.json",
        "Convert { modules: [\"a.asn\"], name: \"T\", from: Avn, to: Jer, lines: false, \
         explain: false, progress: false, file: \"x.json\" }",
    ),
    // Without a module the type is one that is built in.
    (
        "asn convert -t u64 --from jer --to avn",
        "Convert { modules: [], name: \"u64\", from: Jer, to: Avn, lines: false, explain: false, \
         progress: false, file: \"-\" }",
    ),
    ("asn check a.asn", "Check { files: [\"a.asn\"] }"),
    ("asn check a b c", "Check { files: [\"a\", \"b\", \"c\"] }"),
    ("asn types a b", "Types { files: [\"a\", \"b\"] }"),
    (
        "asn show a.asn b.asn -t T",
        "Show { files: [\"a.asn\", \"b.asn\"], name: \"T\", example: None, full: false }",
    ),
    (
        "asn show -t M.T --example avn a.asn",
        "Show { files: [\"a.asn\"], name: \"M.T\", example: Some(Avn), full: false }",
    ),
    (
        "asn show a.asn --full --type=T --example=jer",
        "Show { files: [\"a.asn\"], name: \"T\", example: Some(Jer), full: true }",
    ),
    (
        "asn grows old.asn new.asn -t T",
        "Grows { old: \"old.asn\", new: \"new.asn\", name: \"T\" }",
    ),
    (
        "asn keep old.asn new.asn -t T --from jer",
        "Keep { old: \"old.asn\", new: \"new.asn\", name: \"T\", from: Jer, progress: false, \
         file: \"-\" }",
    ),
    (
        "asn keep -t T --from avn old.asn new.asn x.json --progress",
        "Keep { old: \"old.asn\", new: \"new.asn\", name: \"T\", from: Avn, progress: true, \
         file: \"x.json\" }",
    ),
    ("asn completions bash", "Completions"),
    // What stands after two dashes is a file.
    ("asn check -- -a.asn", "Check { files: [\"-a.asn\"] }"),
];

/// Lists command lines that ask for help or the version, and a part of the text.
const HELPED: [(&str, &str); 12] = [
    ("asn --help", "convert"),
    ("asn -h", "completions"),
    ("asn --version", "asn 0.1.0\n"),
    ("asn help check", "asn check examples/sensor.asn"),
    (
        "asn convert --help",
        "asn convert -m examples/sensor.asn -t Report --to avn examples/report.json",
    ),
    ("asn check --help", "Usage: asn check <FILE.asn>..."),
    ("asn types --help", "asn types examples/calls.asn"),
    (
        "asn show --help",
        "asn show examples/sensor.asn -t Report\n",
    ),
    (
        "asn show --help",
        "asn show examples/sensor.asn -t Report --example avn --full",
    ),
    (
        "asn grows --help",
        "asn grows examples/sensor-1.asn examples/sensor.asn -t Report",
    ),
    (
        "asn keep --help",
        "asn keep examples/sensor-1.asn examples/sensor.asn -t Report --from jer",
    ),
    ("asn completions --help", "source <(asn completions bash)"),
];

/// Lists command lines that are wrong, and a part of the text.
const REFUSED: [(&str, &str); 21] = [
    ("asn", "Usage: asn <COMMAND>"),
    ("asn frob", "unrecognized subcommand 'frob'"),
    ("asn --frob", "unexpected argument '--frob' found"),
    ("asn check", "required arguments were not provided"),
    ("asn types", "Usage: asn types <FILE.asn>..."),
    ("asn convert -m a --to avn x.json", "--type <TYPE>"),
    ("asn convert -m a -t T x.json", "--to <NOTATION>"),
    (
        "asn convert -m a -t T --to avn x.json y.json",
        "unexpected argument 'y.json' found",
    ),
    (
        "asn convert -m a -t T --to avn --to jer x.json",
        "cannot be used multiple times",
    ),
    (
        "asn convert -t T --to",
        "a value is required for '--to <NOTATION>'",
    ),
    (
        "asn convert -m a -t T --to xml x.json",
        "invalid value 'xml'",
    ),
    (
        "asn convert -m a -t T --to avn x.txt",
        "give --from jer or --from avn",
    ),
    (
        "asn convert -m a -t T --to avn",
        "give --from jer or --from avn",
    ),
    ("asn show a.asn", "--type <TYPE>"),
    ("asn show -t T", "<FILE.asn>..."),
    ("asn show a.asn -t T --example xml", "invalid value 'xml'"),
    ("asn show a.asn -t T --full", "--example <NOTATION>"),
    ("asn grows old.asn -t T", "<NEW.asn>"),
    ("asn keep old.asn new.asn -t T", "--from <NOTATION>"),
    ("asn completions", "<SHELL>"),
    ("asn completions zsh", "invalid value 'zsh'"),
];

/// Returns what is said of a command line, after which of the three it is.
fn told(alloc: Global, line: &str) -> Result<String, Fail> {
    let words: Vec<&str> = line.split(' ').collect(alloc)?;
    match read_command_line(alloc, words.as_slice()) {
        Ok(asked) => Ok(format!(in alloc; "{asked:?}")?),
        Err(Unasked::Help(text)) => Ok(format!(in alloc; "help: {text}")?),
        Err(Unasked::Usage(text)) => Ok(format!(in alloc; "usage: {text}")?),
        Err(Unasked::OutOfMemory) => Ok(String::from_str(alloc, "out of memory")?),
    }
}

/// Each command line asks for what it says.
#[test]
fn commands_are_read(rt: HostRuntime) -> Result<(), Fail> {
    for row in ASKED.iter() {
        let text = told(rt.alloc(), row.0)?;
        assert_eq!(rt; text.as_str(), row.1);
    }
    Ok(())
}

/// Help ends with an example, and doesn't speak of the flag that is hidden.
#[test]
fn help_is_shown(rt: HostRuntime) -> Result<(), Fail> {
    for row in HELPED.iter() {
        let text = told(rt.alloc(), row.0)?;
        assert!(rt; text.starts_with("help: "));
        assert!(rt; text.contains(row.1), "{text}");
        assert!(rt; !text.contains("--progress"));
    }
    Ok(())
}

/// Each wrong command line is reported what is wrong.
#[test]
fn mistakes_are_told(rt: HostRuntime) -> Result<(), Fail> {
    for row in REFUSED.iter() {
        let text = told(rt.alloc(), row.0)?;
        assert!(rt; text.starts_with("usage: "));
        assert!(rt; text.contains(row.1), "{text}");
    }
    Ok(())
}

/// Lists what the completions know.
const COMPLETED: [&str; 5] = [
    "convert check types show grows keep completions",
    "--type --example --full",
    "--module --type --from --to --lines --explain",
    "jer avn",
    "compgen -f",
];

/// The completions know the commands, the options, the notations and files.
#[test]
fn words_are_completed(rt: HostRuntime) {
    for words in COMPLETED.iter() {
        assert!(rt; BASH_COMPLETIONS.contains(*words));
    }
}
