// What the depot's commands do with one image in memory: made, refilled, rebuilt, shown.
#![tactic(auto)]

ghost use Rattle.std.specs.Prelude.{◌≤◌, length, IfOk};

use answers::Answer;
use std::rt::Files;
use stripe::Params;

// An image, or a column's file, that a command made or changed in its buffer: what to answer once it is kept, and its length.
// Stays: a length beside a lent buffer, which has 1.8 million bytes; no heap is used.
#[derive(Clone, Copy)]
pub struct Changed {
    pub answer: Answer,
    pub length: usize,
}

// show: the bytes of a strip, restored first if its column is lost.
pub fn show(
    rt: &(impl Print + Eprint),
    image: &[u8],
    lost: u64,
    column: usize,
    row: usize,
) -> Result<Answer, Answer> {
    let mut scratch = [0u8; Params::LARGEST_STRIP];
    rebuild::restore(image, lost, column, row, &mut scratch)?;
    let strip = rebuild::show(image, lost, column, row, &scratch);
    files::check_output(rt, rt.write_all(strip));
    Ok(Answer::Said)
}

// make: the image of a file's data.
pub fn make(
    rt: &(impl Files + Eprint),
    p: usize,
    k: usize,
    r: usize,
    b: usize,
    from: &[u8],
    image: &mut [u8],
    other: &mut [u8],
) -> Result<Changed, Answer>
    requires { 1874176 ≤ length image.old }
    ensures { IfOk result (λ changed. changed.length ≤ length image.new) }
{
    let m = files::take(rt, from, other).ok_or(Answer::Said)?;
    let n = Params::checked(p, k, r, b)?.image_length();
    parity::make(p, k, r, b, &other[..m], &mut image[..n])?;
    Ok(Changed {
        answer: Answer::Done,
        length: n,
    })
}

// refill: all parity anew.
pub fn refill(rt: &(impl Files + Eprint), path: &[u8], image: &mut [u8]) -> Result<Changed, Answer>
    ensures { IfOk result (λ changed. changed.length ≤ length image.new) }
{
    let n = files::take(rt, path, image).ok_or(Answer::Said)?;
    parity::refill(&mut image[..n])?;
    Ok(Changed {
        answer: Answer::Done,
        length: n,
    })
}

// rebuild: the lost columns from the others.
pub fn rebuild_lost(
    rt: &(impl Files + Eprint),
    lost: u64,
    path: &[u8],
    image: &mut [u8],
) -> Result<Changed, Answer>
    ensures { IfOk result (λ changed. changed.length ≤ length image.new) }
{
    let n = files::take(rt, path, image).ok_or(Answer::Said)?;
    rebuild::rebuild(&mut image[..n], lost)?;
    Ok(Changed {
        answer: Answer::Done,
        length: n,
    })
}
