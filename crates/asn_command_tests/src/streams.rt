//! Streams and whole files, and those of which a read or a write fails.
use asn_command::{Conversion, ConvertLines, answer_lines, convert_whole, types_of};
use asn_core::Codec;
use asn_lines::NoProgress;
use asn_modules::Modules;
use asn_replies::{Status, deliver};
use asn_streams::{MemorySink, MemorySource};
use std::alloc::Global;
use std::test::Fail;

/// Is the text of a file of modules.
const NOTES: &str = "Note ::= CHOICE { text UTF8String, number INTEGER }";

/// Holds what is read and how, and what is written.
#[derive(Clone, Copy, Drop)]
struct Row {
    /// States whether each line is a text.
    lines: bool,
    /// Is read, eight bytes at a time. `~` stands for a byte that is no UTF-8.
    input: &'static str,
    /// Is the number of the read that fails, or 0.
    read: u64,
    /// Is the number of the write to the output that fails, each of which takes 4 bytes, or 0.
    write: u64,
    /// Is the number of the write to the errors that fails, each of which takes 4 bytes, or 0.
    report: u64,
    /// Is what is written to the output.
    output: &'static str,
    /// Is what is written to the errors.
    errors: &'static str,
    /// States how it ends.
    status: Status,
}

/// Lists them. The notation that is written is AVN.
const ROWS: [Row; 14] = [
    Row {
        lines: false,
        input: "{\"number\":\n 7}\n",
        read: 0,
        write: 0,
        report: 0,
        output: "number : 7\n",
        errors: "",
        status: Status::Done,
    },
    Row {
        lines: false,
        input: "{\"number\":",
        read: 0,
        write: 0,
        report: 0,
        output: "",
        errors: "f:1:10: Error in Parser: Error parsing JER JSON\n",
        status: Status::Refused,
    },
    Row {
        lines: false,
        input: "{\"text\":\"~\"}",
        read: 0,
        write: 0,
        report: 0,
        output: "",
        errors: "f: isn't UTF-8\n",
        status: Status::NotText,
    },
    // A read fails after the first bytes.
    Row {
        lines: false,
        input: "{\"number\":7}",
        read: 2,
        write: 0,
        report: 0,
        output: "",
        errors: "f: can't be read\n",
        status: Status::ReadFault,
    },
    // A write of the answer fails, and one of the refusal.
    Row {
        lines: false,
        input: "{\"number\":7}",
        read: 0,
        write: 2,
        report: 0,
        output: "numb",
        errors: "",
        status: Status::WriteFault,
    },
    Row {
        lines: false,
        input: "{",
        read: 0,
        write: 0,
        report: 3,
        output: "",
        errors: "f:1:1: E",
        status: Status::WriteFault,
    },
    // Each line has its answer or its refusal, and the last one needs no line feed.
    Row {
        lines: true,
        input: "{\"number\":7}\n{\"text\":\"a\"}\r\n{\"number\":8}",
        read: 0,
        write: 0,
        report: 0,
        output: "number : 7\ntext : \"a\"\nnumber : 8\n",
        errors: "",
        status: Status::Done,
    },
    Row {
        lines: true,
        input: "{\"number\":7}\n{\"number\"}\n{\"text\":\"~\"}\n{\"text\":\"a\\nb\"}\n\
            {\"number\":8}\n\n",
        read: 0,
        write: 0,
        report: 0,
        output: "number : 7\nnumber : 8\n",
        errors: "f:2:10: Error in Parser: Error parsing JER JSON\nf:3: isn't UTF-8\n\
            f:4: has no text on one line\nf:6:1: Error in Parser: Error parsing JER JSON\n",
        status: Status::Refused,
    },
    Row {
        lines: true,
        input: "",
        read: 0,
        write: 0,
        report: 0,
        output: "",
        errors: "",
        status: Status::Done,
    },
    // What was read whole before a read that fails is answered.
    Row {
        lines: true,
        input: "{\"number\":7}\n{\"number\":8}\n{\"number\":9}\n",
        read: 3,
        write: 0,
        report: 0,
        output: "number : 7\n",
        errors: "f: can't be read\n",
        status: Status::ReadFault,
    },
    // A write of an answer fails, and one of a refusal.
    Row {
        lines: true,
        input: "{\"number\":7}\n{\"number\":8}\n{\"number\":9}\n",
        read: 0,
        write: 5,
        report: 0,
        output: "number : 7\nnumb",
        errors: "",
        status: Status::WriteFault,
    },
    Row {
        lines: true,
        input: "7\n7\n",
        read: 0,
        write: 0,
        report: 2,
        output: "",
        errors: "f:1:",
        status: Status::WriteFault,
    },
    // That a file can't be read can't be told.
    Row {
        lines: true,
        input: "{\"number\":7}\n",
        read: 1,
        write: 0,
        report: 2,
        output: "",
        errors: "f: c",
        status: Status::WriteFault,
    },
    Row {
        lines: false,
        input: "{\"number\":7}\n",
        read: 1,
        write: 0,
        report: 1,
        output: "",
        errors: "",
        status: Status::WriteFault,
    },
];

/// Returns the number as the list of the calls that fail.
fn failing(alloc: Global, number: u64) -> Result<Vec<u64>, Fail> {
    let mut numbers = Vec::new(alloc);
    numbers.push(number)?;
    Ok(numbers)
}

/// Returns the bytes of the input, one that is no UTF-8 in place of each `~`.
fn bytes_of(alloc: Global, input: &str) -> Result<Vec<u8>, Fail> {
    let mut bytes = Vec::new(alloc);
    for byte in input.as_bytes() {
        bytes.push(if *byte == b'~' { 0xff } else { *byte })?;
    }
    Ok(bytes)
}

/// Converts what is read by the type of the modules, and returns how it ends, the output and the
/// errors.
fn run(
    alloc: Global,
    modules: &Modules,
    row: Row,
) -> Result<(Status, MemorySink, MemorySink), Fail> {
    let Some(part) = modules.find("Note") else {
        return Err(Fail::from("there is no such type"));
    };
    let conversion = Conversion {
        part,
        from: Codec::Jer,
        to: Codec::Avn,
        explain: false,
    };
    let mut source = MemorySource::new(bytes_of(alloc, row.input)?, 8, failing(alloc, row.read)?);
    let mut output = MemorySink::new(alloc, 1_000, 4, failing(alloc, row.write)?)?;
    let mut errors = MemorySink::new(alloc, 1_000, 4, failing(alloc, row.report)?)?;
    if !row.lines {
        let status = convert_whole(
            alloc,
            conversion,
            "f",
            &mut source,
            &mut output,
            &mut errors,
        );
        return Ok((status, output, errors));
    }
    let work = ConvertLines::new(conversion, "f");
    let ended = answer_lines(
        alloc,
        &work,
        "f",
        &mut source,
        &mut output,
        &mut errors,
        &mut NoProgress,
    );
    let status = match ended {
        Ok(status) => status,
        Err(unread) => deliver(unread, &mut output, &mut errors),
    };
    Ok((status, output, errors))
}

/// What is due is written, or a front part of it where a read or a write fails.
#[test]
fn streams_are_converted(rt: HostRuntime) -> Result<(), Fail> {
    let Ok(modules) = types_of(rt.alloc(), &[("notes.asn", NOTES)]) else {
        return Err(Fail::from("the module is refused"));
    };
    for row in ROWS.iter() {
        let (status, output, errors) = run(rt.alloc(), &modules, *row)?;
        assert_eq!(rt; output.bytes(), row.output.as_bytes());
        assert_eq!(rt; errors.bytes(), row.errors.as_bytes());
        assert_eq!(rt; status, row.status);
    }
    Ok(())
}
