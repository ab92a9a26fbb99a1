// The two moves on strips that every call is made of, and the rows that a word takes of a column.
#![tactic(auto)]

ghost use Rattle.std.specs.Prelude.{◌≡◌, ◌+◌, ◌%◌, ◌^◌, ◌<◌, ◌≤◌, length, get_or, take};
ghost use Rattle.std.specs.Int.Count.{count_trailing_zeros};
ghost use Rattle.laws.specs.Bit.{bit, weight};
ghost use Rattle.laws.specs.Part.{put, tab};
ghost use Rattle.laws.specs.Patch.{Patched};
ghost use Rattle.laws.specs.Xor.{◌⊕◌};
ghost use Rattle.engine.specs.Mask.{takes_of, mask_of};
ghost use Rattle.engine.specs.Strips.{onto, gathered, taken, Rows, Run, Spread, Scattered, Columns};

// How many lanes are taken at once, where there are so many.
const WIDE: usize = 128;

const MIDDLE: usize = 32;

const NARROW: usize = 16;

// Bit i of w.
fn coefficient(w: u64, i: usize) -> u64
    requires { i < 64 }
    ensures { result ≡ bit w i }
{
    (w >> i) % 2
}

// 1 where row t of a column takes part in row q of w · column, else 0.
fn takes(w: u64, q: usize, t: usize, p: usize) -> u64
    requires { (q < p) × (t < p) × (p ≤ 61) }
    ensures { result ≡ takes_of p w q t }
{
    coefficient(w, (q + (p - t)) % p) ^ coefficient(w, (q + 1) % p)
}

// The rows of a column that take part in row q of w · column.
fn mask(w: u64, q: usize, p: usize) -> u64
    requires { (q < p) × (p ≤ 61) }
    ensures { result ≡ mask_of p w q }
{
    let mut m = 0;
    for t in 0..p - 1 {
        m += takes(w, q, t, p) << t;
    }
    m
}

// XORs the bytes of src into those of s.
pub fn add(s: &mut [u8], src: &[u8])
    requires { length s.old ≡ length src.now }
    ensures { Patched s.old s.new 0 (length s.old) (λ i. get_or s.old i 0 ⊕ get_or src.now i 0) }
{
    for (i, x) in s.iter_mut().enumerate() {
        *x ^= src[i];
    }
}

// XORs the rows that the mask names, of the rows of src at `at`, into out.
fn gather(src: &[u8], at: usize, rows: usize, mask: u64, out: &mut [u8])
    requires { Rows src.now out.old at rows }
    ensures { Patched out.old out.new 0 (length out.old) (onto out.old (gathered src.now at (length out.old) mask rows)) }
{
    let b = out.len();
    for t in 0..rows {
        if coefficient(mask, t) == 1 {
            let from = at + t * b;
            add(out, &src[from..from + b]);
        }
    }
}

// The rows that the mask names, of the first `rows`.
fn cut(mask: u64, rows: usize) -> u64
    requires { rows ≤ 60 }
    ensures { result ≡ mask % 2 ^ rows }
{
    mask % (1 << rows)
}

// The first row that a mask names.
fn first(mask: u64) -> usize
    ensures { result ≡ count_trailing_zeros 64 mask }
{
    u64::trailing_zeros(mask) as usize
}

// The rows that a mask names after the first.
fn later(mask: u64) -> u64
    requires { 0 < mask }
    ensures { result ≡ mask ⊕ 2 ^ count_trailing_zeros 64 mask }
{
    mask & (mask - 1)
}

// XORs a run of lanes into the rows that the mask names; the rows begin b bytes apart, the run in the first of them at `from`.
fn add_run(s: &mut [u8], from: usize, b: usize, rows: usize, mask: u64, run: &[u8])
    requires { Run s.old run.now from b rows }
    ensures { Spread s.old s.new run.now from b rows mask }
{
    let mut left = cut(mask, rows);
    // Stays: a turn takes the lowest bit that is left; std has no iterator over the bits of a word.
    while left > 0 {
        let at = from + first(left) * b;
        add(&mut s[at..at + run.len()], run);
        left = later(left);
    }
}

// The same of a block: a copy of a width that is known lets the lanes stay in registers.
fn add_block<const W: usize>(
    s: &mut [u8],
    from: usize,
    b: usize,
    rows: usize,
    mask: u64,
    block: &[u8; W],
)
    requires { Run s.old block.now from b rows }
    ensures { Spread s.old s.new block.now from b rows mask }
{
    let run = *block;
    add_run(s, from, b, rows, mask, &run);
}

// The same of the first lanes: of the widest block that there are lanes for, or of all. Gives how many these are.
fn add_some(s: &mut [u8], from: usize, b: usize, rows: usize, mask: u64, lanes: &[u8]) -> usize
    requires { Run s.old lanes.now from b rows }
    ensures { (result ≤ length lanes.now) × (0 < length lanes.now → 0 < result) × Spread s.old s.new (take result lanes.now) from b rows mask }
{
    if let Some(block) = lanes.first_chunk::<WIDE>() {
        add_block(s, from, b, rows, mask, block);
        WIDE
    } else if let Some(block) = lanes.first_chunk::<MIDDLE>() {
        add_block(s, from, b, rows, mask, block);
        MIDDLE
    } else if let Some(block) = lanes.first_chunk::<NARROW>() {
        add_block(s, from, b, rows, mask, block);
        NARROW
    } else {
        add_run(s, from, b, rows, mask, lanes);
        lanes.len()
    }
}

// How many rows the mask names, of the first `rows`.
fn named(mask: u64, rows: usize) -> u64
    requires { rows ≤ 60 }
    ensures { result ≡ weight mask rows }
{
    u64::count_ones(cut(mask, rows)) as u64
}

// XORs the strip into the rows that the mask names, of the rows of s at `at`; gives how many these are.
pub fn scatter(s: &mut [u8], at: usize, rows: usize, mask: u64, strip: &[u8]) -> u64
    requires { Rows s.old strip.now at rows }
    ensures { Scattered s.old s.new strip.now at rows mask result }
{
    let b = strip.len();
    let mut l: usize = 0;
    // Stays: l goes on by as many lanes as were taken, which differs from one turn to the next.
    while l < b {
        l += add_some(s, at + l, b, rows, mask, &strip[l..]);
    }
    named(mask, rows)
}

// XORs row q of the sum of word · column over the columns of src at `ats` into out.
pub fn take(src: &[u8], ats: &[usize], words: &[u64], q: usize, p: usize, out: &mut [u8])
    requires { Columns p q src.now ats.now words.now out.old }
    ensures { Patched out.old out.new 0 (length out.old) (onto out.old (taken p src.now (length out.old) q ats.now words.now)) }
{
    // Stays: ats by index; a zip with it takes a call of `take` at p17 k10 B512 from 19,960 instructions to 20,323.
    for (m, word) in words.iter().enumerate() {
        gather(src, ats[m], p - 1, mask(*word, q, p), out);
    }
}

// Sets n bytes at a place to 0.
pub fn clear(s: &mut [u8], from: usize, n: usize)
    requires { from + n ≤ length s.old }
    ensures { s.new ≡ put s.old from (tab n (λ o. 0)) }
{
    // Stays: a loop; fill takes a call of `clear` of 16 bytes from 190 instructions to 205.
    for x in s[from..from + n].iter_mut() {
        *x = 0;
    }
}

// Puts the bytes of src in the place of those of s.
// Stays: a loop; copy_from_slice is a call of memmove, which the archive for C would need from outside.
fn copy(s: &mut [u8], src: &[u8])
    requires { length s.old ≡ length src.now }
    ensures { s.new ≡ src.now }
{
    for (i, x) in s.iter_mut().enumerate() {
        *x = src[i];
    }
}

// Puts the bytes of src in their place.
// Stays: by the block, through an array; one copy_from_slice of src takes make at p17 k10 r4 B512 from 166,021 instructions to 234,843.
pub fn copy_in(s: &mut [u8], at: usize, src: &[u8])
    requires { at + length src.now ≤ length s.old }
    ensures { s.new ≡ put s.old at src.now }
{
    let blocks = src.len() / WIDE;
    for i in 0..blocks {
        let from = i * WIDE;
        let mut block = [0u8; WIDE];
        block.copy_from_slice(&src[from..from + WIDE]);
        s[at + from..at + from + WIDE].copy_from_slice(&block);
    }
    let from = blocks * WIDE;
    if from < src.len() {
        copy(&mut s[at + from..at + src.len()], &src[from..]);
    }
}
