#![tactic(auto)]

// The reports of the images in the files that the arguments name, one after the other.
use std::env::{Env, FillError};
use std::rt::Files;
use std::{fs, io};

// Room for a path.
const PATH_ROOM: usize = 4096;

// The report of the image in a file.
fn report_file(rt: &(impl Print + Files), path: &str) -> io::Result<()> {
    let mut file = fs::open(rt, path)?;
    reporting::report(rt, &mut file)
}

// A path, and the report of the image in its file; what fails is told on standard error, as is a path that is no text: no such file is opened.
fn one(rt: &(impl Print + Eprint + Files), path: &[u8]) -> io::Result<()> {
    rt.write_all(path)?;
    rt.write_all(b"\n")?;
    let Ok(text) = str::from_utf8(path) else {
        return eprintln!(rt; "{}: not UTF-8", path.escape_ascii());
    };
    if let Err(e) = report_file(rt, text) {
        return eprintln!(rt; "{text}: {e}");
    }
    Ok(())
}

fn main(rt: HostRuntime) -> io::Result<()> {
    let mut path = [0u8; PATH_ROOM];
    // Stays: fixed memory; the runtime gives arguments by number alone, and `env::args` puts them on a heap.
    for i in 1..usize::MAX {
        match rt.arg(i, &mut path) {
            Ok(n) => one(&rt, &path[..n])?,
            Err(FillError::TooLong) => rt.eprintln("path: File name too long")?,
            Err(FillError::NotPresent) => break,
        }
    }
    Ok(())
}
