// Answers, each a line on standard output: `done ..` or `refused N NAME`, with the distance behind it where a base is not current.
#![tactic(auto)]

ghost use Rattle.std.specs.Prelude.{◌≡◌, ◌+◌, ◌≤◌, ◌++◌, [], length, Some};
ghost use Rattle.answers.specs.List.{columns_below, list_of};
ghost use Rattle.answers.specs.Line.{named, refused_start, line_of};
ghost use Rattle.answers.specs.declared.Answer.TheVariants.{Refused};

use arrayvec::ArrayString;
use refusal::Refusal;
use revision::Age;
use std::{fmt, io};
use texts::{push_digits, push_last, push_number};

// Room for the longest line, that of an import: up to 64 columns, each with a comma before it.
const LINE_ROOM: usize = 256;

type Line = ArrayString<LINE_ROOM>;

// What a command comes to. `Said`: nothing is left to say.
#[derive(Clone, Copy, PartialEq, Eq, Debug)]
pub enum Answer {
    Done,
    Word(u64),
    Absent(u64),
    Accepted(u32, u64),
    Aged(Age),
    Refused(Refusal),
    Said,
}

// The name of the refusal that has a number; none has another number.
#[tactic(auto, unfolding(words::specs::Words::parts, words::specs::Words::before_first))]
fn name(number: u64) -> &'static str
    ensures { result.now ≡ named number }
{
    match number {
        1 => "CUT",
        2 => "TAIL",
        3 => "COUNT",
        4 => "PRIME",
        5 => "SHAPE",
        6 => "STRIP",
        7 => "WIDTH",
        8 => "COLUMN",
        9 => "ROW",
        10 => "STALE",
        11 => "AHEAD",
        12 => "MANY",
        13 => "ROOM",
        14 => "LONG",
        15 => "EXPONENT",
        16 => "ELEMENT",
        17 => "UNCLEAR",
        18 => "FOREIGN",
        19 => "TWICE",
        _ => "",
    }
}

// Puts the columns of a pattern behind a line, with a comma between two.
fn push_columns(line: &mut Line, pattern: u64)
    requires { length line.old.bytes ≤ 40 }
    ensures { line.new.bytes ≡ line.old.bytes ++ columns_below pattern 64 }
{
    let mut comma = "";
    for column in 0..64u64 {
        if (pattern >> column) % 2 == 1 {
            line.push_str(comma);
            push_digits(line, column);
            comma = ",";
        }
    }
}

// The same, or `-` for none.
fn push_list(line: &mut Line, pattern: u64)
    requires { length line.old.bytes ≤ 40 }
    ensures text { line.new.bytes ≡ line.old.bytes ++ list_of pattern }
    ensures upper_bound { length line.new.bytes ≤ length line.old.bytes + 192 }
{
    if pattern == 0 {
        line.push_str("-")
    } else {
        push_columns(line, pattern)
    }
}

// Begins the line of a refusal: its number and its name.
#[tactic(auto, using(crate::proofs::Names::named_short))]
fn push_refused(line: &mut Line, number: u64)
    requires { line.old.bytes ≡ [] }
    ensures text { line.new.bytes ≡ refused_start number }
    ensures upper_bound { length line.new.bytes ≤ 37 }
{
    line.push_str("refused");
    push_number(line, number);
    line.push_str(" ");
    line.push_str(name(number));
}

// Puts the line of an answer; every line fits its room.
fn push_answer(line: &mut Line, answer: Answer)
    requires { line.old.bytes ≡ [] }
    ensures { line.new.bytes ≡ line_of answer }
{
    match answer {
        Answer::Done => line.push_str("done\n"),
        Answer::Word(w) => {
            line.push_str("done");
            push_last(line, w)
        }
        Answer::Absent(absent) => {
            line.push_str("done ");
            push_list(line, absent);
            line.push_str("\n")
        }
        Answer::Accepted(revision, count) => {
            line.push_str("done");
            push_number(line, u64::from(revision));
            push_last(line, count)
        }
        Answer::Aged(age) => {
            push_refused(line, age.number());
            push_last(line, u64::from(age.distance()))
        }
        Answer::Refused(e) => {
            push_refused(line, e.number());
            line.push_str("\n")
        }
        Answer::Said => (),
    }
}

// The line of an answer.
fn spelled(answer: Answer) -> Line
    ensures { result.bytes ≡ line_of answer }
{
    let mut line = Line::new();
    push_answer(&mut line, answer);
    line
}

impl fmt::Display for Answer {
    ghost output = { λ a. Some (line_of a) };

    fn fmt<W: fmt::Write>(&self, f: &mut fmt::Formatter<W>) -> fmt::Result {
        f.write_str(spelled(*self).as_str())
    }
}

// Writes the line of an answer on standard output. It is put together first: no `fmt` stands between that could give up.
pub fn say(rt: &impl Print, answer: Answer) -> io::Result<()> {
    rt.write_all(spelled(answer).as_str().as_bytes())
}

// Where a call refuses, the refusal is the answer.
impl From<Refusal> for Answer {
    ghost from_gives = { λ e answer. answer ≡ Refused e };

    fn from(e: Refusal) -> Answer {
        Answer::Refused(e)
    }
}
