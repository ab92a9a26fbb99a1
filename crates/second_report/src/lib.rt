// The second implementation's report.
#![tactic(auto)]

ghost use Rattle.std.specs.Prelude.{◌≤◌, length, IfOk};

use second_ground::{No, Shape, revision_at};
use std::io;
use std::io::Read;
use total::{bit, number32};

// The line of a refusal.
fn refused(rt: &impl Print, no: No) -> io::Result<()> {
    println!(rt; "refused {}", no.number())
}

// The line of the parameters.
fn shape_line(rt: &impl Print, q: Shape) -> io::Result<()> {
    println!(rt; "stripe {} {} {} {}", q.p, q.k, q.r, q.b)
}

// The lines of n data columns.
fn data_lines(rt: &impl Print, image: &[u8], n: usize) -> io::Result<()> {
    for i in 0..n {
        let revision = number32(image, revision_at(i));
        println!(rt; "data {i} {revision}")?;
    }
    Ok(())
}

// The lines of n parities, of which a word has the wrong ones.
fn parity_lines(rt: &impl Print, wrong: u64, n: usize) -> io::Result<()> {
    for j in 0..n {
        let verdict = if bit(wrong, j) { "wrong" } else { "right" };
        println!(rt; "parity {j} {verdict}")?;
    }
    Ok(())
}

// The report of an image, with lent room as long.
fn describe(rt: &impl Print, image: &[u8], room: &mut [u8]) -> io::Result<()> {
    let q = match second_ground::read(image, None) {
        Ok(q) => q,
        Err(no) => return refused(rt, no),
    };
    shape_line(rt, q)?;
    data_lines(rt, image, q.k)?;
    let wrong = second::check(image, room, None).unwrap_or(0);
    parity_lines(rt, wrong, q.r)
}

// Reads until a buffer is full or the input ends; how many bytes then stand at its start.
// Stays: a loop of its own beside the library's, since the second implementation stands on nothing of it; and the place steps by as many bytes as each read gave.
fn read_front(input: &mut impl Read, buf: &mut [u8]) -> io::Result<usize>
    ensures { IfOk result (λ n. n ≤ length buf.new) }
{
    let mut done = 0;
    while done < buf.len() {
        match input.read(&mut buf[done..])? {
            0 => break,
            n => done += n,
        }
    }
    Ok(done)
}

// The report of an input.
pub fn report(rt: &impl Print, input: &mut impl Read) -> io::Result<()> {
    let mut front = [0u8; 65537];
    let mut room = [0u8; 65537];
    let n = read_front(input, &mut front)?;
    if n > 65536 {
        return refused(rt, No::Long);
    }
    describe(rt, &front[..n], &mut room)
}
