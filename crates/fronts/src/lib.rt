// The front of what a reader gives, in a lent buffer.
#![tactic(auto)]

ghost use Rattle.std.specs.Prelude.{◌≡◌, ◌≤◌, length, take, IfOk, IfSome};

use std::io;
use std::io::Read;

// Reads until a buffer is full or the input ends; how many bytes then stand at its start.
pub fn read_front<R: Read>(input: &mut R, buf: &mut [u8]) -> io::Result<usize>
    ensures within { IfOk result (λ n. n ≤ length buf.new) }
    ensures front { IfOk result (λ n. IfSome (R.remaining input.old) (λ s. take n buf.new ≡ take (length buf.new) s)) }
{
    let mut done = 0;
    // Stays: the place steps by as many bytes as each read gave; `read_exact` does not tell how many came before the end.
    while done < buf.len() {
        match input.read(&mut buf[done..])? {
            0 => break,
            n => done += n,
        }
    }
    Ok(done)
}
