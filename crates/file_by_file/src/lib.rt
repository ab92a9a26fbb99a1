// Column files one after another in a slice: each is tested, and the columns are gathered that were met.
#![tactic(auto)]

ghost use Rattle.std.specs.Prelude.{◌≡◌, ◌+◌, ◌^◌, ◌<◌, ◌≤◌, length};
ghost use Rattle.laws.specs.Xor.{◌⊕◌};
ghost use Rattle.file_by_file.specs.Files.{alike, counted, body_step, column_step, step_of, met_from};
ghost use Rattle.file_by_file.specs.Inner.{Head, Start, Whole};

use refusal::Refusal;
use stripe::Params;

// One file: its column, and the place where it ends.
#[derive(Clone, Copy, PartialEq, Eq, Debug)]
pub struct File {
    pub column: usize,
    pub end: usize,
}

// Whether the file at a place has the parameters of the first.
#[tactic(auto, unfolding(crate::specs::Files::alike))]
fn is_alike(files: &[u8], at: usize) -> bool
    requires { at + 14 ≤ length files.now }
    ensures { result ≡ alike files.now at }
{
    stripe::numbers(files, at) == stripe::numbers(files, 0)
}

// Whether the counts of sections two and three are those of column n.
fn is_counted(files: &[u8], at: usize, q: Params, n: usize) -> bool
    requires { Whole files.now q at n }
    ensures { result ≡ counted files.now at q n }
{
    stripe::number(files, at + column_file::CARRIED_AT) == column_file::carried(q, n)
        && stripe::number(files, at + column_file::strips_count_at(q, n)) == q.p - 1
}

// The rest of the file of column n at a place: its length, and the other counts.
fn read_body(files: &[u8], at: usize, q: Params, n: usize) -> Result<File, Refusal>
    requires { Start files.now q at n }
    ensures { result ≡ body_step files.now at q n }
{
    let size = column_file::length(q, n);
    if files.len() - at < size {
        return Err(Refusal::Cut);
    }
    if !is_counted(files, at, q, n) {
        return Err(Refusal::Count);
    }
    Ok(File {
        column: n,
        end: at + size,
    })
}

// The file of column n at a place, whose parameters are sound; met has the bits of the columns before it.
fn read_column(files: &[u8], at: usize, met: u64, q: Params, n: usize) -> Result<File, Refusal>
    requires { Head files.now q at n }
    ensures { result ≡ column_step files.now at met q n }
{
    if n >= q.k + q.r {
        return Err(Refusal::Column);
    }
    if !is_alike(files, at) {
        return Err(Refusal::Foreign);
    }
    if stripe::number(files, at + column_file::FLAG_AT) != column_file::flag(q, n) {
        return Err(Refusal::Foreign);
    }
    if (met >> n) % 2 != 0 {
        return Err(Refusal::Twice);
    }
    read_body(files, at, q, n)
}

// The file at a place; met has the bits of the columns before it.
fn read_file(files: &[u8], at: usize, met: u64) -> Result<File, Refusal>
    requires { at ≤ length files.now }
    ensures { result ≡ step_of files.now at met }
{
    let left = files.len() - at;
    if left < 2 {
        return Err(Refusal::Cut);
    }
    if stripe::number(files, at) != column_file::NUMBERS {
        return Err(Refusal::Count);
    }
    if left < column_file::CARRIED_AT {
        return Err(Refusal::Cut);
    }
    let q = stripe::parameters(files, at)?;
    read_column(
        files,
        at,
        met,
        q,
        stripe::number(files, at + column_file::COLUMN_AT),
    )
}

// A pattern with the bit of a column turned.
fn with_column(met: u64, n: usize) -> u64
    requires { n < 64 }
    ensures { result ≡ met ⊕ 2 ^ n }
{
    met ^ (1 << n)
}

// The columns of all files as a pattern, or the first refusal that is due.
pub fn meet(files: &[u8]) -> Result<u64, Refusal>
    ensures { result ≡ met_from files.now 0 0 }
{
    let mut at: usize = 0;
    let mut met: u64 = 0;
    // Stays: each file tells where the next one starts, and what stands behind the last; no iterator knows either before.
    loop {
        let file = read_file(files, at, met)?;
        met = with_column(met, file.column);
        if file.end >= files.len() {
            return Ok(met);
        }
        at = file.end;
    }
}
