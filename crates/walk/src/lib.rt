// Division by 1 + x^d in a walk over w lanes of a column: about two XORs a symbol.
#![tactic(auto)]

ghost use Rattle.std.specs.Prelude.{◌≡◌, ◌+◌, ◌-◌, ◌*◌, ◌%◌, ◌<◌, ◌≤◌, length};
ghost use Rattle.walk.specs.Lanes.{Stepped, WalkAsked, Begun, Walked, Sums, ColumnsAsked};

// The most lanes of a walk, whose running bytes stay in registers.
pub const LANES: usize = 128;

// The place d below f, of p places in a circle.
pub fn next(f: usize, d: usize, p: usize) -> usize
    requires { (f < p) × (1 ≤ d) × (d < p) × (p ≤ 61) }
    ensures { result ≡ (f + (p - d)) % p }
{
    if f < d {
        return f + (p - d);
    }
    f - d
}

// Adds the bytes of src to the running bytes, and these to the bytes of out; where ADD is false they are put there.
fn step<const ADD: bool>(src: &[u8], run: &mut [u8; LANES], out: &mut [u8])
    requires { (length src.now ≡ length out.old) × (length out.old ≤ 128) × (length run.old ≡ 128) }
    ensures { Stepped ADD src.now run.old run.new out.old out.new }
{
    for (x, o) in out.iter_mut().enumerate() {
        let kept = if ADD { *o } else { 0 };
        run[x] ^= src[x];
        *o = kept ^ run[x];
    }
}

// Adds w lanes of a column over 1 + x^d to the rows of acc, but for a constant. Where ADD is false they are put there, but in
// the row where the walk starts: that is 0 already.
fn walk<const ADD: bool>(
    s: &[u8],
    base: usize,
    p: usize,
    b: usize,
    d: usize,
    w: usize,
    acc: &mut [u8],
)
    requires asked { WalkAsked s.now acc.old base p b d w }
    requires begun { Begun ADD acc.old p d w }
    ensures { Walked ADD s.now acc.old acc.new base p b d w }
{
    let mut run = [0u8; LANES];
    let mut f = p - 1 - d;
    for _ in 1..p {
        let at = base + f * b;
        f = next(f, d, p);
        let to = f * w;
        step::<ADD>(&s[at..at + w], &mut run, &mut acc[to..to + w]);
    }
}

// Puts w lanes of the first column over 1 + x^d in the rows of acc, but for a constant.
pub fn walk_first(s: &[u8], base: usize, p: usize, b: usize, d: usize, w: usize, acc: &mut [u8])
    requires { WalkAsked s.now acc.old base p b d w }
    ensures { Sums s.now acc.new base p b d w 1 }
{
    let start = (p - 1 - d) * w;
    acc[start..start + w].fill(0);
    walk::<false>(s, base, p, b, d, w, acc);
}

// Adds the columns after the first, each over its own 1 + x^(d+i).
pub fn columns(
    s: &[u8],
    from: usize,
    p: usize,
    k: usize,
    b: usize,
    d: usize,
    w: usize,
    acc: &mut [u8],
)
    requires { ColumnsAsked s.now acc.old from p k b d w }
    ensures { Sums s.now acc.new from p b d w k }
{
    let c = (p - 1) * b;
    for i in 1..k {
        walk::<true>(s, from + i * c, p, b, d + i, w, acc);
    }
}
