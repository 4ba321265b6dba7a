// Printing the report of what a reader gives. The report itself is made by `report_text`; here is what the system does
// for it.
#![tactic(auto)]

ghost use Rattle.std.specs.Prelude.{◌≡◌};
ghost use Rattle.report_text.specs.ReportText.{report_text};

use report_text::{FILE_SIZE, TEXT_SIZE};
use std::io;
use std::io::{Error, Read};

// Says on standard error what failed, and why, where that is known.
pub fn fail(rt: &HostRuntime, what: &[u8], error: Option<Error>) {
    let _ = streams::write_whole(&mut rt.stderr(), what);
    let _ = match error {
        Some(error) => eprintln!(rt; ": {error}"),
        None => eprintln!(rt; ": failed"),
    };
}

// Writes a text to standard output, which has to be the report of a file's bytes; where that fails, says so on standard
// error.
fn write_report(rt: &HostRuntime, file: &[u8], text: &[u8])
    requires { text.now ≡ report_text file.now }
{
    if let Err(error) = streams::write_whole(&mut io::writer(rt), text) {
        fail(rt, b"standard output", error);
    }
}

// Prints the report of a file's bytes.
fn print_report(rt: &HostRuntime, file: &[u8]) {
    let mut text = [0u8; TEXT_SIZE];
    let size = report_text::report(file, &mut text);
    write_report(rt, file, &text[..size]);
}

// Reads a reader, and prints the report of its bytes; where a read fails, says so on standard error under the reader's
// name, and prints nothing else.
pub fn report_from<R: Read>(rt: &HostRuntime, reader: &mut R, name: &[u8]) {
    let mut buffer = [0u8; FILE_SIZE];
    match streams::read_up_to(reader, &mut buffer) {
        Ok(count) => print_report(rt, &buffer[..count]),
        Err(stopped) => fail(rt, name, stopped.error),
    }
}
