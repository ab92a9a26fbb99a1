// The commands of the depot: files of images that are made, looked at and changed, and the column files of an image.
// A changed image goes to a new file beside the old one; that is synced and looked at again before it takes the old one's name.
#![tactic(auto)]

ghost use Rattle.std.specs.Prelude.{◌≡◌, ◌≤◌, length, replicate, IfOk};

use answers::Answer;
use images::Changed;
use std::rt::{Env, Files};
use stripe::Params;
use words::Command;
use write::{Accepted, Refused};

// Room for the files of all columns, and for the section one of a file more: by that all that follows is refused as in the whole.
const FILES_ROOM: usize = columns::LARGEST_FILES + column_file::CARRIED_AT;

// Room for the words of an import of every column: its name, an image and the files, each path of up to 4,096 bytes; and for a 0 behind them.
const LINE_ROOM: usize = (Params::LARGEST_PRIME + 2) * 4096 + 1;

// A command, and the line of words that it was read from, with a mark between two.
#[derive(Clone, Copy)]
struct Asked<'a> {
    command: Command,
    line: &'a [u8],
    mark: u8,
}

impl<'a> Asked<'a> {
    // The file that the command changes or makes, or else looks at.
    fn path(self) -> &'a [u8] {
        let i = match self.command {
            Command::Make(..) => 6,
            Command::Export(_) => 3,
            _ => 1,
        };
        words::word(self.line, self.mark, i)
    }

    // The file that it reads beside that one: IMAGE, or else DATA or STRIP.
    fn from(self) -> &'a [u8] {
        let i = if matches!(self.command, Command::Export(_)) {
            1
        } else {
            5
        };
        words::word(self.line, self.mark, i)
    }

    // Whether it makes a new file; one that is there already stays.
    fn is_making(self) -> bool {
        matches!(
            self.command,
            Command::Make(..) | Command::Export(_) | Command::Import
        )
    }
}

// Room for the other files of a command: data, an image that is only read, or column files.
fn blank_files() -> [u8; FILES_ROOM]
    ensures { (result ≡ replicate 1875272 0) × (length result ≡ 1875272) }
{
    [0u8; FILES_ROOM]
}

// report: the lines of the report program.
fn report(rt: &(impl Print + Eprint), image: &[u8]) -> Result<Answer, Answer> {
    stripe::read(image)?;
    files::check_output(rt, reporting::describe(rt, image));
    Ok(Answer::Said)
}

// A command that only looks at an image.
fn view(
    rt: &(impl Files + Print + Eprint),
    asked: Asked,
    image: &mut [u8],
) -> Result<Answer, Answer> {
    let n = files::take(rt, asked.path(), image).ok_or(Answer::Said)?;
    let image = &image[..n];
    match asked.command {
        Command::Check => Ok(Answer::Word(parity::check(image)?)),
        Command::Show(lost, column, row) => images::show(rt, image, lost, column, row),
        _ => report(rt, image),
    }
}

// The answer of a write that is refused.
// Stays: no `From`, since both types are of crates of which neither stands on the other.
fn refused(e: Refused) -> Answer {
    match e {
        Refused::Aged(age) => Answer::Aged(age),
        Refused::Other(e) => Answer::Refused(e),
    }
}

// write: a file's strip against a revision, while columns are lost or not. Of a file that is too long a byte too many is taken.
fn write_strip(
    rt: &(impl Files + Eprint),
    column: usize,
    row: usize,
    base: u32,
    lost: u64,
    from: &[u8],
    path: &[u8],
    image: &mut [u8],
) -> Result<Changed, Answer>
    ensures { IfOk result (λ changed. changed.length ≤ length image.new) }
{
    let mut strip = [0u8; Params::LARGEST_STRIP + 1];
    let m = files::take(rt, from, &mut strip).ok_or(Answer::Said)?;
    let n = files::take(rt, path, image).ok_or(Answer::Said)?;
    let written = away::write(&mut image[..n], lost, column, row, base, &strip[..m]);
    let Accepted { revision, count } = written.map_err(refused)?;
    Ok(Changed {
        answer: Answer::Accepted(revision, count),
        length: n,
    })
}

// export: the file of one column of an image.
fn export(
    rt: &(impl Files + Eprint),
    column: usize,
    from: &[u8],
    file: &mut [u8],
    image: &mut [u8],
) -> Result<Changed, Answer>
    requires { 1874176 ≤ length file.old }
    ensures { IfOk result (λ changed. changed.length ≤ length file.new) }
{
    let m = files::take(rt, from, image).ok_or(Answer::Said)?;
    let n = columns::file_length(&image[..m], column)?;
    columns::export(&image[..m], column, &mut file[..n])?;
    Ok(Changed {
        answer: Answer::Done,
        length: n,
    })
}

// import: the image of column files.
fn import(
    rt: &(impl Files + Eprint),
    asked: Asked,
    image: &mut [u8],
    other: &mut [u8],
) -> Result<Changed, Answer>
    requires { 1874176 ≤ length image.old }
    ensures { IfOk result (λ changed. changed.length ≤ length image.new) }
{
    let m = files::take_each(rt, asked.line, asked.mark, 2, other).ok_or(Answer::Said)?;
    let n = columns::files_length(&other[..m])?;
    let absent = columns::import(&other[..m], &mut image[..n])?;
    Ok(Changed {
        answer: Answer::Absent(absent),
        length: n,
    })
}

// The commands that make or change a file, in its buffer.
fn change_by(
    rt: &(impl Files + Eprint),
    asked: Asked,
    image: &mut [u8],
    other: &mut [u8],
) -> Result<Changed, Answer>
    requires { 1874176 ≤ length image.old }
    ensures { IfOk result (λ changed. changed.length ≤ length image.new) }
{
    let path = asked.path();
    if asked.is_making() && !files::is_free(rt, path) {
        return Err(Answer::Said);
    }
    let from = asked.from();
    match asked.command {
        Command::Make(p, k, r, b) => images::make(rt, p, k, r, b, from, image, other),
        Command::Write(column, row, base, lost) => {
            write_strip(rt, column, row, base, lost, from, path, image)
        }
        Command::Rebuild(lost) => images::rebuild_lost(rt, lost, path, image),
        Command::Export(column) => export(rt, column, from, image, other),
        Command::Import => import(rt, asked, image, other),
        _ => images::refill(rt, path, image),
    }
}

// Changes the image, and keeps it in the new file, which then takes the image's name.
fn change_into<R: Files + Eprint>(
    rt: &R,
    asked: Asked,
    file: &mut R::File,
    new: &[u8],
    image: &mut [u8],
    other: &mut [u8],
) -> Result<Answer, Answer>
    requires { 1874176 ≤ length image.old }
{
    let changed = change_by(rt, asked, image, other)?;
    files::keep(rt, file, asked.path(), new, &image[..changed.length]).ok_or(Answer::Said)?;
    Ok(changed.answer)
}

// Makes the new file, which keeps others from changing the image at the same time, then changes the image; the new file is removed where nothing comes of it.
fn change_beside(
    rt: &(impl Files + Eprint),
    asked: Asked,
    new: &[u8],
    image: &mut [u8],
    other: &mut [u8],
) -> Result<Answer, Answer>
    requires { 1874176 ≤ length image.old }
{
    let mut file = files::create(rt, new)
        .inspect_err(|e| files::fail(rt, new, e))
        .map_err(|_| Answer::Said)?;
    let outcome = change_into(rt, asked, &mut file, new, image, other);
    if outcome.is_err() {
        files::remove(rt, new);
    }
    outcome
}

// A command that changes an image.
fn change(
    rt: &(impl Files + Eprint),
    asked: Asked,
    image: &mut [u8],
    other: &mut [u8],
) -> Result<Answer, Answer>
    requires { 1874176 ≤ length image.old }
{
    let path = asked.path();
    if files::is_link(rt, path) {
        files::complain(rt, path, "a link; name the file that it leads to");
        return Err(Answer::Said);
    }
    let mut name = [0u8; 4096];
    let Some(n) = files::name_new(path, &mut name) else {
        files::complain(rt, path, "too long a name");
        return Err(Answer::Said);
    };
    change_beside(rt, asked, &name[..n], image, other)
}

// What there is to know of the commands.
fn help(rt: &(impl Print + Eprint)) {
    let lines = rt.write_all(
        b"depot make P K R B DATA IMAGE                    a new image of the data, revisions 0
depot check IMAGE                                the word of wrong parities; 0: all right
depot refill IMAGE                               all parity anew from the data
depot write IMAGE COLUMN ROW BASE STRIP [LOST]   a new strip against a revision: the new one and the parity strips changed
depot rebuild IMAGE LOST                         the lost columns from the others
depot show IMAGE LOST COLUMN ROW                 a strip, restored if its column is lost
depot export IMAGE COLUMN FILE                   a new file of one column, for its box
depot import IMAGE FILE..                        a new image from column files in any order: the absent columns, in the form of LOST
depot report IMAGE                               parameters, revisions, each parity right or wrong
depot help                                       these lines
LOST: columns such as 0,3, or - for none; data columns come first, then parity. DATA, STRIP, IMAGE and FILE are files.
refused 10 STALE 3: BASE is three notes behind the column's revision; refused 11 AHEAD 3: three ahead of it.
refused 17 UNCLEAR 0: they lie exactly 2^31 apart, so that nobody can tell which is newer.
",
    );
    files::check_output(rt, lines);
}

// One line of usage, on standard error.
fn usage(rt: &impl Eprint) {
    let _ = rt.eprintln(
        "usage: depot make P K R B DATA IMAGE | check IMAGE | refill IMAGE | write IMAGE COLUMN ROW BASE STRIP [LOST] | rebuild IMAGE LOST | show IMAGE LOST COLUMN ROW | export IMAGE COLUMN FILE | import IMAGE FILE.. | report IMAGE | help",
    );
}

// Does what a command asks, in two buffers; an Err is what to answer where it could not be done.
fn perform(
    rt: &(impl Files + Print + Eprint),
    asked: Asked,
    image: &mut [u8],
    other: &mut [u8],
) -> Result<Answer, Answer>
    requires { 1874176 ≤ length image.old }
{
    match asked.command {
        Command::Help => help(rt),
        Command::Usage => usage(rt),
        Command::Check | Command::Report | Command::Show(..) => return view(rt, asked, image),
        _ => return change(rt, asked, image, other),
    }
    Ok(Answer::Said)
}

// Does what the words of a line ask, and answers.
pub fn run(rt: &(impl Files + Print + Eprint), line: &[u8], mark: u8) {
    let mut image = files::blank();
    let mut other = blank_files();
    let asked = Asked {
        command: words::parse(line, mark),
        line,
        mark,
    };
    let (Ok(answer) | Err(answer)) = perform(rt, asked, &mut image, &mut other);
    files::check_output(rt, answers::say(rt, answer));
}

// Does what the program's arguments ask.
pub fn run_arguments(rt: &(impl Env + Files + Print + Eprint)) {
    let mut line = [0u8; LINE_ROOM];
    match files::gather(rt, &mut line) {
        Some(n) => run(rt, &line[..n], 0),
        None => usage(rt),
    }
}
