// Prints the report of each file that the arguments name, under its name.
#![tactic(auto)]

use std::env::{Env, FillError};
use std::fs::File;
use std::io;

// The report of the file of that name.
fn report_file(rt: &HostRuntime, path: &str) -> io::Result<()> {
    match File::open(rt, path) {
        Ok(mut file) => {
            println!(rt; "{path}")?;
            reporting::report_from(rt, &mut file, path.as_bytes());
        }
        Err(error) => reporting::fail(rt, path.as_bytes(), Some(error)),
    }
    Ok(())
}

// The report of the file that an argument's bytes name; the system's library takes names that are text alone.
fn report_argument(rt: &HostRuntime, path: &[u8]) -> io::Result<()> {
    match str::from_utf8(path) {
        Ok(path) => report_file(rt, path),
        Err(_) => {
            reporting::fail(rt, path, None);
            Ok(())
        }
    }
}

fn main(rt: HostRuntime) -> io::Result<()> {
    let mut path = [0u8; 4096];
    for i in 1..usize::MAX {
        match rt.arg(i, &mut path) {
            Ok(length) => report_argument(&rt, &path[..length])?,
            Err(FillError::TooLong) => reporting::fail(&rt, b"argument", None),
            Err(FillError::NotPresent) => break,
        }
    }
    Ok(())
}
