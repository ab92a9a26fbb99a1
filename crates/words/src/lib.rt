// Words: a line of bytes that is cut at a mark, decimal numbers, lists of columns, and the command that a line asks for.
#![tactic(auto)]

ghost use Rattle.std.specs.Prelude.{◌≡◌, [], length, get_or};
ghost use Rattle.words.specs.Words.{parts, same_bytes};
ghost use Rattle.words.specs.Decimal.{digit_of, decimal_of};
ghost use Rattle.words.specs.Columns.{with_column, named, columns_of};
ghost use Rattle.words.specs.Command.{or_usage, make_words, write_words, show_words, command_of};

// What a line asks for: p, k, r and B; column, row, base and a pattern; a pattern; a pattern, column and row; a column.
#[derive(Clone, Copy, PartialEq, Eq, Debug)]
pub enum Command {
    Make(usize, usize, usize, usize),
    Check,
    Refill,
    Write(usize, usize, u32, u64),
    Rebuild(u64),
    Show(u64, usize, usize),
    Export(usize),
    Import,
    Report,
    Help,
    Usage,
}

// How many words a line has.
pub fn count(line: &[u8], mark: u8) -> usize
    ensures { result ≡ length (parts mark line.now) }
{
    line.split(|c| *c == mark).count()
}

// Word n of a line; an empty one where there is none.
pub fn word(line: &[u8], mark: u8, n: usize) -> &[u8]
    ensures { result.now ≡ get_or (parts mark line.now) n [] }
{
    line.split(|c| *c == mark).nth(n).unwrap_or(&[])
}

// Whether two slices have the same bytes.
pub fn same(a: &[u8], b: &[u8]) -> bool
    ensures { result ≡ same_bytes a.now b.now }
{
    a == b
}

// The digit that a byte is, if it is one.
fn digit(c: u8) -> Option<u64>
    ensures { result ≡ digit_of c }
{
    match c {
        b'0'..=b'9' => Some((c - b'0') as u64),
        _ => None,
    }
}

// The number that a word is in decimal; above 2^64 - 1 it is none.
// Stays: digit by digit, since `parse` takes a + before the digits, which `decimal_of` does not.
pub fn decimal(word: &[u8]) -> Option<u64>
    ensures { result ≡ decimal_of word.now }
{
    if word.is_empty() {
        return None;
    }
    let mut n: u64 = 0;
    for c in word {
        let d = digit(*c)?;
        n = n.checked_mul(10)?.checked_add(d)?;
    }
    Some(n)
}

// A pattern with the bit of a column set; a column above 63 counts as 63, which no stripe has.
fn with_bit(pattern: u64, n: u64) -> u64
    ensures { result ≡ with_column pattern n }
{
    pattern | 1 << n.min(63)
}

// The pattern of a list of columns.
fn listed(word: &[u8]) -> Option<u64>
    ensures { result ≡ named (parts 44 word.now) 0 }
{
    let mut pattern: u64 = 0;
    for column in word.split(|c| *c == b',') {
        pattern = with_bit(pattern, decimal(column)?);
    }
    Some(pattern)
}

// The pattern of the columns that a word lists; nothing and `-` list none.
fn columns(word: &[u8]) -> Option<u64>
    ensures { result ≡ columns_of word.now }
{
    if word.is_empty() || same(word, b"-") {
        return Some(0);
    }
    listed(word)
}

// make P K R B DATA IMAGE
fn make_words(line: &[u8], mark: u8) -> Option<Command>
    ensures { or_usage result ≡ make_words (parts mark line.now) }
{
    let p = decimal(word(line, mark, 1))?;
    let k = decimal(word(line, mark, 2))?;
    let r = decimal(word(line, mark, 3))?;
    let b = decimal(word(line, mark, 4))?;
    Some(Command::Make(p as usize, k as usize, r as usize, b as usize))
}

// write IMAGE COLUMN ROW BASE STRIP, with LOST behind it or not; a base is a number of 32 bits.
fn write_words(line: &[u8], mark: u8) -> Option<Command>
    ensures { or_usage result ≡ write_words (parts mark line.now) }
{
    let column = decimal(word(line, mark, 2))?;
    let row = decimal(word(line, mark, 3))?;
    let base = u32::try_from(decimal(word(line, mark, 4))?).ok()?;
    let lost = columns(word(line, mark, 6))?;
    Some(Command::Write(column as usize, row as usize, base, lost))
}

// show IMAGE LOST COLUMN ROW
fn show_words(line: &[u8], mark: u8) -> Option<Command>
    ensures { or_usage result ≡ show_words (parts mark line.now) }
{
    let lost = columns(word(line, mark, 2))?;
    let column = decimal(word(line, mark, 3))?;
    let row = decimal(word(line, mark, 4))?;
    Some(Command::Show(lost, column as usize, row as usize))
}

// The command that a line asks for, if it asks for one.
fn asked(line: &[u8], mark: u8) -> Option<Command>
    ensures { or_usage result ≡ command_of (parts mark line.now) }
{
    match (str::from_utf8(word(line, mark, 0)).ok()?, count(line, mark)) {
        ("make", 7) => make_words(line, mark),
        ("write", 6 | 7) => write_words(line, mark),
        ("rebuild", 3) => Some(Command::Rebuild(columns(word(line, mark, 2))?)),
        ("show", 5) => show_words(line, mark),
        ("export", 4) => Some(Command::Export(decimal(word(line, mark, 2))? as usize)),
        ("import", 3..) => Some(Command::Import),
        ("check", 2) => Some(Command::Check),
        ("refill", 2) => Some(Command::Refill),
        ("report", 2) => Some(Command::Report),
        ("help", 1) => Some(Command::Help),
        _ => None,
    }
}

// The command that a line asks for; `Usage` where it asks for none.
pub fn parse(line: &[u8], mark: u8) -> Command
    ensures { result ≡ command_of (parts mark line.now) }
{
    asked(line, mark).unwrap_or(Command::Usage)
}
