// The commands on files of data/: each line of a file of cases, and what it answers. Standard error is not seen here; the lines after show what changed.
// Beside the commands a line may be: same A B, spoil FILE PLACE, hide FILE, lengthen FILE, large FILE. One of these that fails ends the program.
#![tactic(auto)]

ghost use Rattle.std.specs.Io.{ReadsAtMost};

use std::fs::{File, OpenOptions, Permissions};
use std::io::{ErrorKind, Read, Write};
use std::os::unix::fs::{FileExt, PermissionsExt};
use std::{fs, io};

fn say(rt: &HostRuntime, text: &[u8]) -> io::Result<()> {
    rt.write_all(text)
}

// Word i of a line.
fn word(line: &[u8], i: usize) -> &[u8] {
    words::word(line, b' ', i)
}

// A path that is a word of a line.
fn path(word: &[u8]) -> io::Result<&str> {
    str::from_utf8(word).map_err(|_| io::Error::from(ErrorKind::InvalidInput))
}

// Reads a file, as much of it as the buffer holds.
fn read(rt: &HostRuntime, name: &[u8], buf: &mut [u8; 65536]) -> io::Result<usize>
    ensures { ReadsAtMost result buf.new }
{
    let mut file = fs::open(rt, path(name)?)?;
    fronts::read_front(&mut file, buf)
}

// Whether two files of up to 65,536 bytes are the same.
fn compare(rt: &HostRuntime, a: &[u8], b: &[u8]) -> io::Result<()> {
    let mut first = [0u8; 65536];
    let mut second = [0u8; 65536];
    let n = read(rt, a, &mut first)?;
    let m = read(rt, b, &mut second)?;
    if words::same(&first[..n], &second[..m]) {
        say(rt, b"yes\n")
    } else {
        say(rt, b"no\n")
    }
}

// Puts 32 strange bytes into a file from a place on.
fn spoil(rt: &HostRuntime, name: &[u8], at: u64) -> io::Result<()> {
    let file = OpenOptions::new()
        .read(true)
        .write(true)
        .open(rt, path(name)?)?;
    if at < 65536 {
        file.write_all_at(&[0xeeu8; 32], at)?;
    }
    Ok(())
}

// Makes a file that nobody may read.
fn hide(rt: &HostRuntime, name: &[u8]) -> io::Result<()> {
    let mut file = File::create_new(rt, path(name)?)?;
    file.write_all(b"hidden\n")?;
    file.set_permissions(Permissions::from_mode(0))
}

// Puts one byte behind the others.
fn lengthen(rt: &HostRuntime, name: &[u8]) -> io::Result<()> {
    OpenOptions::new()
        .append(true)
        .open(rt, path(name)?)?
        .write_all(b"!")
}

// Makes the data of the largest image: 30 times the same 61,440 bytes.
fn enlarge(rt: &HostRuntime, name: &[u8]) -> io::Result<()> {
    let buf = [0x5au8; 61440];
    let mut file = File::create_new(rt, path(name)?)?;
    for _ in 0..30 {
        file.write_all(&buf)?;
    }
    Ok(())
}

// Does what a line asks that is no command; whether it was one of these.
fn prepare(rt: &HostRuntime, line: &[u8]) -> io::Result<bool> {
    let name = word(line, 1);
    match word(line, 0) {
        b"same" => compare(rt, name, word(line, 2))?,
        b"hide" => hide(rt, name)?,
        b"lengthen" => lengthen(rt, name)?,
        b"large" => enlarge(rt, name)?,
        b"spoil" => {
            if let Some(at) = words::decimal(word(line, 2)) {
                spoil(rt, name, at)?;
            }
        }
        _ => return Ok(false),
    }
    Ok(true)
}

// A line and its answer.
fn case(rt: &HostRuntime, line: &[u8]) -> io::Result<()> {
    say(rt, b"$ ")?;
    say(rt, line)?;
    say(rt, b"\n")?;
    if !prepare(rt, line)? {
        commands::run(rt, line, b' ');
    }
    Ok(())
}

// Every line but what stands after the last end of a line.
fn cases(rt: &HostRuntime, lines: &[u8]) -> io::Result<()> {
    for line in lines.split_inclusive(|c| *c == b'\n') {
        if let Some(line) = line.strip_suffix(b"\n") {
            case(rt, line)?;
        }
    }
    Ok(())
}

fn main(rt: HostRuntime) -> io::Result<()> {
    let mut lines = [0u8; 65536];
    let n = read(&rt, b"cases", &mut lines)?;
    cases(&rt, &lines[..n])
}
