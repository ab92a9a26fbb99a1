// The Cauchy system on words, solved in place.
#![tactic(auto)]

ghost use Rattle.std.specs.Prelude.{◌≡◌, ◌<◌, ◌≤◌, ◌^◌, length};
ghost use Rattle.algebra.specs.Cauchy.{Off};
ghost use Rattle.algebra.specs.Lane.{Apart};
ghost use Rattle.algebra.specs.Prime.{Modulus};
ghost use Rattle.algebra.specs.Recovery.{cleared_of, less_of, back_of, row_of, down_of, up_of, solve_of};
ghost use Rattle.ring.specs.Ring.{Divisible};
ghost use Rattle.solver.specs.System.{Row, System, rise_of};

// ((x + y1)·w + (x1 + y1)·w1) / (x1 + x)
#[tactic(auto, using(crate::proofs::Pass::clearing))]
fn cleared(x1: usize, y1: usize, w1: u64, x: usize, w: u64, p: usize) -> u64
    requires { Divisible p x1 x w × (y1 ≤ p) × (w1 < 2 ^ p) }
    ensures { result ≡ cleared_of p x1 y1 w1 x w }
{
    ring::quotient(
        ring::times(w, x, y1, p) ^ ring::times(w1, x1, y1, p),
        x1,
        x,
        p,
    )
}

// each word of v freed of the first unknown
#[tactic(auto, using(crate::proofs::Pass::lessening))]
fn lessen(x1: usize, y1: usize, w1: u64, xs: &[usize], v: &mut [u64], p: usize)
    requires { Modulus p × Row p x1 xs.now v.old × (y1 ≤ p) × (w1 < 2 ^ p) }
    ensures { v.new ≡ less_of p x1 y1 w1 xs.now v.old }
{
    for (m, w) in v.iter_mut().enumerate() {
        *w = cleared(x1, y1, w1, xs[m], *w, p);
    }
}

// each unknown after the first, (x1 + y)·w / (y1 + y), from that of the system without the first; the sum of these unknowns, each divided by x1 + y:
// of w / (y1 + y)
#[tactic(auto, using(crate::proofs::Pass::settling))]
fn settle(x1: usize, y1: usize, ys: &[usize], v: &mut [u64], p: usize) -> u64
    requires { Modulus p × Row p y1 ys.now v.old × Off (Apart p) x1 ys.now × (x1 ≤ p) }
    ensures unknowns { v.new ≡ back_of p x1 y1 ys.now v.old }
    ensures sum { result ≡ row_of p x1 ys.now (back_of p x1 y1 ys.now v.old) }
{
    let mut sum = 0;
    for (m, w) in v.iter_mut().enumerate() {
        let part = ring::quotient(*w, y1, ys[m], p);
        *w = ring::times(part, x1, ys[m], p);
        sum ^= part;
    }
    sum
}

// the sum of v / (x + y)
#[tactic(auto, using(crate::proofs::Pass::summing))]
pub fn row_sum(x: usize, ys: &[usize], v: &[u64], p: usize) -> u64
    requires { Modulus p × Row p x ys.now v.now }
    ensures { result ≡ row_of p x ys.now v.now }
{
    let mut sum = 0;
    for (y, w) in ys.iter().zip(v) {
        sum ^= ring::quotient(*w, x, *y, p);
    }
    sum
}

// the first pass: each word frees those after it of its unknown
#[tactic(auto, using(crate::proofs::Pass::descending))]
fn descend(xs: &[usize], ys: &[usize], v: &mut [u64], p: usize)
    requires { Modulus p × System p xs.now ys.now v.old }
    ensures { v.new ≡ down_of p xs.now ys.now v.old }
{
    for i in 0..v.len() {
        lessen(xs[i], ys[i], v[i], &xs[i + 1..], &mut v[i + 1..], p);
    }
}

// unknown i, when those after it are solved for the system without it
#[tactic(auto, using(crate::proofs::Pass::rising))]
fn rise(xs: &[usize], ys: &[usize], v: &mut [u64], i: usize, p: usize)
    requires { Modulus p × System p xs.now ys.now v.old × (i < length v.old) }
    ensures { v.new ≡ rise_of p xs.now ys.now v.old i }
{
    let (x, y) = (xs[i], ys[i]);
    let sum = settle(x, y, &ys[i + 1..], &mut v[i + 1..], p);
    v[i] = ring::times(v[i] ^ sum, x, y, p);
}

// the second pass: from the last unknown to the first
#[tactic(auto, using(crate::proofs::Pass::ascending))]
fn ascend(xs: &[usize], ys: &[usize], v: &mut [u64], p: usize)
    requires { Modulus p × System p xs.now ys.now v.old }
    ensures { v.new ≡ up_of p xs.now ys.now v.old }
{
    for i in (0..v.len()).rev() {
        rise(xs, ys, v, i, p);
    }
}

// solves the system of the exponents xs, ys for the words of v
#[tactic(auto, using(crate::proofs::Pass::solving))]
pub fn solve(xs: &[usize], ys: &[usize], v: &mut [u64], p: usize)
    requires { Modulus p × System p xs.now ys.now v.old }
    ensures { v.new ≡ solve_of p xs.now ys.now v.old }
{
    descend(xs, ys, v, p);
    ascend(xs, ys, v, p);
}
