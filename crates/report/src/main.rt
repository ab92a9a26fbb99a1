#![tactic(auto)]

use std::io;

// The report of the image on standard input.
fn main(rt: HostRuntime) -> io::Result<()> {
    reporting::report(&rt, &mut rt.stdin())
}
