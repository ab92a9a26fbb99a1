// The files of the depot: taken into a buffer, written, looked at again and put in the place of others; and the program's arguments.
#![tactic(auto)]

ghost use Rattle.std.specs.Prelude.{◌≡◌, ◌≤◌, length, replicate, take, IfSome, IsTrue, OnOk};
ghost use Rattle.std.specs.Result.{result_ok};
ghost use Rattle.std.specs.Io.KnownBytes.{Appends};

use arrayvec::ArrayString;
use std::env::FillError;
use std::fmt::Write as _;
use std::fs::{File, OpenFile};
use std::io::{Error, ErrorKind, Read, Write};
use std::rt::{Env, Files};
use std::{fmt, fs, io};
use stripe::Params;

// The longest path that leaves room for the name of the new file beside it.
const LONGEST_PATH: usize = 4091;

// Bytes as text; a U+FFFD stands for what is not UTF-8.
#[derive(Clone, Copy)]
struct Shown<'a>(&'a [u8]);

impl fmt::Display for Shown<'_> {
    fn fmt<W: fmt::Write>(&self, f: &mut fmt::Formatter<W>) -> fmt::Result {
        for chunk in self.0.utf8_chunks() {
            f.write_str(chunk.valid())?;
            if !chunk.invalid().is_empty() {
                f.write_char('\u{fffd}')?;
            }
        }
        Ok(())
    }
}

// A line on standard error: what it is about, and what is wrong with it.
pub fn complain(rt: &impl Eprint, what: &[u8], why: &str) {
    let _ = eprintln!(rt; "{}: {why}", Shown(what));
}

// The same where a call failed: the system's words, without the number behind them.
pub fn fail(rt: &impl Eprint, what: &[u8], e: &Error) {
    let mut text = ArrayString::<256>::new();
    let _ = write!(text, "{e}");
    complain(rt, what, text.split(" (os error ").next().unwrap_or(""));
}

// What a call gave; nothing where it failed, and why is said.
fn told<T>(rt: &impl Eprint, what: &[u8], outcome: io::Result<T>) -> Option<T>
    ensures { result ≡ result_ok outcome }
{
    outcome.inspect_err(|e| fail(rt, what, e)).ok()
}

// The same where standard output was written.
pub fn check_output(rt: &impl Eprint, outcome: io::Result<()>) {
    let _ = told(rt, b"standard output", outcome);
}

// A path as the library takes it, which is UTF-8.
fn path_text(path: &[u8]) -> io::Result<&str> {
    str::from_utf8(path).map_err(|_| Error::new(ErrorKind::InvalidInput, "not UTF-8"))
}

// Opens a file for reading.
fn open<R: Files>(rt: &R, path: &[u8]) -> io::Result<R::File> {
    fs::open(rt, path_text(path)?)
}

// Makes a new file, for writing; one that is there stays.
pub fn create<R: Files>(rt: &R, path: &[u8]) -> io::Result<R::File> {
    File::create_new(rt, path_text(path)?)
}

// Reads on until the buffer is full or the file ends; nothing where that failed, and why is said.
fn fill<R: Read>(rt: &impl Eprint, file: &mut R, path: &[u8], buf: &mut [u8]) -> Option<usize>
    ensures within { IfSome result (λ n. n ≤ length buf.new) }
    ensures front { IfSome result (λ n. IfSome (R.remaining file.old) (λ s. take n buf.new ≡ take (length buf.new) s)) }
{
    told(rt, path, fronts::read_front(file, buf))
}

// Takes a file, as much of it as the buffer holds; how many bytes, and nothing where that failed.
pub fn take(rt: &(impl Files + Eprint), path: &[u8], buf: &mut [u8]) -> Option<usize>
    ensures { IfSome result (λ n. n ≤ length buf.new) }
{
    let mut file = told(rt, path, open(rt, path))?;
    fill(rt, &mut file, path, buf)
}

// Takes the files that a line names from a word on, one after another, as much of them as the buffer holds.
pub fn take_each(
    rt: &(impl Files + Eprint),
    line: &[u8],
    mark: u8,
    from: usize,
    buf: &mut [u8],
) -> Option<usize>
    ensures { IfSome result (λ n. n ≤ length buf.new) }
{
    let mut n: usize = 0;
    // Stays: the proof of a loop over `split` fails where the closure holds a mark that is only known when this runs
    for i in from..words::count(line, mark) {
        n += take(rt, words::word(line, mark, i), &mut buf[n..])?;
    }
    Some(n)
}

// Whether the rest of a file is these bytes and nothing else.
fn match_all<R: Read>(file: &mut R, bytes: &[u8]) -> bool
    ensures { IsTrue result → IfSome (R.remaining file.old) (λ s. bytes.now ≡ s) }
{
    let mut buf = [0u8; 65536];
    for piece in bytes.chunks(65536) {
        let next = &mut buf[..piece.len()];
        if file.read_exact(next).is_err() || *next != *piece {
            return false;
        }
    }
    matches!(file.read(&mut [0u8; 1]), Ok(0))
}

// Looks at a file again, opened anew: it holds these bytes and nothing else.
fn look(rt: &impl Files, path: &[u8], bytes: &[u8]) -> io::Result<()> {
    if !match_all(&mut open(rt, path)?, bytes) {
        return Err(Error::other("not what was written"));
    }
    Ok(())
}

// Writes the bytes to a new file and syncs it.
fn write_synced<W: Write + OpenFile>(file: &mut W, bytes: &[u8]) -> io::Result<()>
    ensures { OnOk result (Appends (W.contents file.old) (W.contents file.new) bytes.now) }
{
    file.write_all(bytes)?;
    file.sync_all()
}

// Opens the folder of a path.
fn open_folder<R: Files>(rt: &R, path: &[u8]) -> io::Result<R::File> {
    match path.iter().rposition(|c| *c == b'/') {
        Some(i) => open(rt, &path[..=i]),
        None => open(rt, b"."),
    }
}

// Gives a file another name.
fn rename(rt: &impl Files, from: &[u8], to: &[u8]) -> io::Result<()> {
    fs::rename(rt, path_text(from)?, path_text(to)?)
}

// Gives the new file the image's name, and syncs the folder that holds the name.
fn replace(rt: &(impl Files + Eprint), path: &[u8], new: &[u8]) -> Option<()> {
    let dir = told(rt, path, open_folder(rt, path))?;
    told(rt, path, rename(rt, new, path))?;
    let _ = told(rt, path, dir.sync_all());
    Some(())
}

// Keeps what is new, by the house rule: written once, synced, looked at again; then it has the file's name. Nothing where that failed, and why is said.
pub fn keep<R: Files + Eprint>(
    rt: &R,
    file: &mut R::File,
    path: &[u8],
    new: &[u8],
    bytes: &[u8],
) -> Option<()> {
    told(rt, new, write_synced(file, bytes))?;
    told(rt, new, look(rt, new, bytes))?;
    replace(rt, path, new)
}

// Removes a file, if it can be.
pub fn remove(rt: &impl Files, path: &[u8]) {
    let _ = path_text(path).and_then(|text| fs::remove_file(rt, text));
}

// Puts the name of the new file beside an image into `name`; its length, or nothing where it is too long.
pub fn name_new(path: &[u8], name: &mut [u8]) -> Option<usize>
    requires { 4096 ≤ length name.old }
    ensures { IfSome result (λ n. n ≤ length name.new) }
{
    let n = path.len();
    if n > LONGEST_PATH {
        return None;
    }
    name[..n].copy_from_slice(path);
    name[n..n + 4].copy_from_slice(b".new");
    Some(n + 4)
}

// Whether a path names a link: the new file would replace it, and what it leads to would stay as it was. One too long for the new file's name is told as that.
pub fn is_link(rt: &impl Files, path: &[u8]) -> bool {
    path.len() <= LONGEST_PATH
        && path_text(path)
            .and_then(|text| fs::symlink_metadata(rt, text))
            .is_ok_and(|found| found.is_symlink())
}

// Whether a path is free: nothing has that name, nor is anything else in the way. Why not is said.
pub fn is_free(rt: &(impl Files + Eprint), path: &[u8]) -> bool {
    match open(rt, path) {
        Ok(_) => {
            complain(rt, path, "there is a file of that name");
            false
        }
        Err(e) if e.kind() == ErrorKind::NotFound => true,
        Err(e) => {
            fail(rt, path, &e);
            false
        }
    }
}

// Room for the largest image, and a byte more to tell what is longer.
pub fn blank() -> [u8; Params::LARGEST_IMAGE + 1]
    ensures { (result ≡ replicate 1874177 0) × (length result ≡ 1874177) }
{
    [0u8; Params::LARGEST_IMAGE + 1]
}

// Puts the program's arguments into a line, with a 0 behind each, and tells its length without the last 0; nothing where they are too long.
pub fn gather(rt: &impl Env, line: &mut [u8]) -> Option<usize>
    ensures { IfSome result (λ n. n ≤ length line.new) }
{
    let mut n: usize = 0;
    // Stays: fixed memory; the runtime gives arguments by number alone, and `env::args` puts them on a heap
    for i in 1..usize::MAX {
        match rt.arg(i, &mut line[n..]) {
            Ok(more) => n += more,
            Err(FillError::NotPresent) => return Some(n.saturating_sub(1)),
            Err(FillError::TooLong) => return None,
        }
        *line.get_mut(n)? = 0;
        n += 1;
    }
    None
}
