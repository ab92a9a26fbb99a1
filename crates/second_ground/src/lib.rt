// The second implementation's ground, from document 01 alone: parameters, places, reading, the ring and which strips make up parity. Words are divided by
// walking the chain c_(q-a) + c_(q-b) = s_q. Safe whatever it is handed.
#![tactic(auto)]

ghost use Rattle.std.specs.Prelude.{◌≡◌, ◌+◌, ◌-◌, ◌*◌, ◌%◌, ◌^◌, ◌↔◌, IsTrue};
ghost use Rattle.total.specs.Words.{ones_below};
ghost use Rattle.second_ground.specs.Number.{number_of};
ghost use Rattle.second_ground.specs.Sizes.{column_size};
ghost use Rattle.second_ground.specs.Tested.{tested_of};

use std::cmp::Ordering;
use total::{bit, number16, one_at, ones_below};

// The refusals, read from the documents a second time, in the order of their numbers from 1 up.
#[derive(Clone, Copy, PartialEq, Eq, Debug)]
pub enum No {
    Cut = 1,
    Tail,
    Count,
    Prime,
    Shape,
    Strip,
    Width,
    Column,
    Row,
    Stale,
    Ahead,
    Many,
    Room,
    Long,
    Exponent,
    Element,
    Unclear,
}

impl No {
    // The number that the documents give it.
    pub fn number(self) -> u64
        ensures { result ≡ number_of self }
    {
        self as u64
    }
}

// A write: the strip that is to stand in a row of a column, and the revision that it is based on.
#[derive(Clone, Copy)]
pub struct Note<'a> {
    pub column: usize,
    pub row: usize,
    pub base: u32,
    pub strip: &'a [u8],
}

// A refused write: why, and for STALE and AHEAD how far the base is off.
#[derive(Clone, Copy, PartialEq, Eq, Debug)]
pub struct Unwritten {
    pub no: No,
    pub distance: u32,
}

impl From<No> for Unwritten {
    fn from(no: No) -> Unwritten {
        Unwritten { no, distance: 0 }
    }
}

// An accepted write: the column's new revision, and how many parity strips moved.
#[derive(Clone, Copy, PartialEq, Eq, Debug)]
pub struct Written {
    pub revision: u32,
    pub count: u64,
}

// The slips that can be planted.
#[derive(Clone, Copy, PartialEq, Eq, Debug)]
pub enum Slip {
    // Storing the zeroed-coefficient form.
    Zeroed,
    // Forgetting that a changed strip also changes coefficient p-1.
    Forgotten,
    // Using exponents i and k+j in place of r+i and j.
    Exponents,
    // Comparing revisions by plain size.
    Plain,
    // Reading a lost column's bytes.
    Read,
    // Moving a lost column too.
    Moved,
    // Counting lost parity too.
    Counted,
    // Testing MANY after the base.
    Late,
    // Telling the distance of the other direction.
    Opposite,
    // Calling a base that is exactly half the circle away STALE, as document 01 had it.
    Halved,
}

impl Slip {
    // Each of them once.
    pub const ALL: [Slip; 10] = [
        Slip::Zeroed,
        Slip::Forgotten,
        Slip::Exponents,
        Slip::Plain,
        Slip::Read,
        Slip::Moved,
        Slip::Counted,
        Slip::Late,
        Slip::Opposite,
        Slip::Halved,
    ];
}

// Half the circle of revisions.
pub const HALF_CIRCLE: u32 = 2147483648;

// The primes that p may be.
pub const PRIMES: [usize; 17] = [
    3, 5, 7, 11, 13, 17, 19, 23, 29, 31, 37, 41, 43, 47, 53, 59, 61,
];

// The parameters, and the slip to make.
#[derive(Clone, Copy, PartialEq, Eq, Debug)]
pub struct Shape {
    pub p: usize,
    pub k: usize,
    pub r: usize,
    pub b: usize,
    pub slip: Option<Slip>,
}

impl Shape {
    // The same parameters, tested: PRIME, SHAPE, STRIP.
    pub fn tested(self) -> Result<Shape, No>
        ensures { result ≡ tested_of self }
    {
        if !PRIMES.contains(&self.p) {
            return Err(No::Prime);
        }
        if self.k == 0 || self.r == 0 || self.k > self.p || self.r > self.p - self.k {
            return Err(No::Shape);
        }
        if self.b == 0 || self.b > 512 {
            return Err(No::Strip);
        }
        Ok(self)
    }

    // Whether a slip is the one to make.
    pub fn makes(self, slip: Slip) -> bool
        ensures { IsTrue result ↔ (self.slip ≡ Some slip) }
    {
        self.slip == Some(slip)
    }

    // The rows of a column.
    pub fn rows(self) -> usize
        ensures { result ≡ self.p - 1 }
    {
        self.p.saturating_sub(1)
    }

    // The number of columns.
    pub fn columns(self) -> usize
        ensures { result ≡ (self.k + self.r) % 2 ^ 64 }
    {
        self.parity(self.r)
    }

    // Which column parity j is.
    pub fn parity(self, j: usize) -> usize
        ensures { result ≡ (self.k + j) % 2 ^ 64 }
    {
        self.k.wrapping_add(j)
    }

    // The pattern of all columns.
    pub fn all_columns(self) -> u64
        ensures { result ≡ ones_below ((self.k + self.r) % 2 ^ 64) }
    {
        ones_below(self.columns())
    }

    // The bytes of a column.
    pub fn column_size(self) -> usize
        ensures { result ≡ column_size self }
    {
        self.rows().wrapping_mul(self.b)
    }

    // The bytes of the data.
    pub fn data_size(self) -> usize
        ensures { result ≡ self.k * column_size self % 2 ^ 64 }
    {
        self.k.wrapping_mul(self.column_size())
    }

    // Where column n starts: the counts of sections 1 to 3 come before a data column, that of section 4 too before parity.
    pub fn column_at(self, n: usize) -> usize {
        let counts = if n < self.k { 2 } else { 4 };
        let before = n.wrapping_mul(self.column_size());
        revision_at(self.k)
            .wrapping_add(counts)
            .wrapping_add(before)
    }

    // Where strip t of column n starts.
    pub fn strip_at(self, n: usize, t: usize) -> usize {
        self.column_at(n).wrapping_add(t.wrapping_mul(self.b))
    }

    // The length L of an image.
    pub fn length(self) -> usize {
        self.column_at(self.columns())
    }

    // Where the count of section 4 stands.
    pub fn last_count_at(self) -> usize {
        self.column_at(self.k).wrapping_sub(2)
    }
}

// Where the revision of a data column stands; after the last one the count of section 3.
pub fn revision_at(column: usize) -> usize
    ensures { result ≡ (4 * column + 12) % 2 ^ 64 }
{
    column.wrapping_mul(4).wrapping_add(12)
}

// Reading.
pub fn read(image: &[u8], slip: Option<Slip>) -> Result<Shape, No> {
    if image.len() < 2 {
        return Err(No::Cut);
    }
    if number16(image, 0) != 4 {
        return Err(No::Count);
    }
    if image.len() < 10 {
        return Err(No::Cut);
    }
    let q = Shape {
        p: number16(image, 2),
        k: number16(image, 4),
        r: number16(image, 6),
        b: number16(image, 8),
        slip,
    }
    .tested()?;
    match image.len().cmp(&q.length()) {
        Ordering::Less => return Err(No::Cut),
        Ordering::Greater => return Err(No::Tail),
        Ordering::Equal => {}
    }
    if number16(image, 10) != q.k
        || number16(image, revision_at(q.k)) != q.k
        || number16(image, q.last_count_at()) != q.r
    {
        return Err(No::Count);
    }
    Ok(q)
}

// Whether a word has odd weight.
fn odd(w: u64) -> bool {
    w.count_ones() % 2 == 1
}

// Whether a word has odd weight or a bit at p or above.
fn no_element(p: usize, w: u64) -> bool {
    odd(w) || w & ones_below(p) != w
}

// x · w
fn shifted(p: usize, w: u64) -> u64 {
    let top = u64::from(bit(w, p.wrapping_sub(1)));
    (w << 1 | top) & ones_below(p)
}

// The product of two words, from the highest coefficient of the first down.
fn multiplied(p: usize, u: u64, v: u64) -> u64 {
    (0..p).rev().fold(0, |sum, i| {
        let sum = shifted(p, sum);
        if bit(u, i) { sum ^ v } else { sum }
    })
}

// A word c with c_(q-a) + c_(q-b) = s_q for all q but one, and c_0 = 0: from c_m to the coefficient that stands beside it in an equation.
fn chained(p: usize, s: u64, a: usize, b: usize) -> u64 {
    let step = a.wrapping_add(p).wrapping_sub(b);
    let mut c = 0;
    let mut m: usize = 0;
    for _ in 0..p {
        let next = m.wrapping_add(step) % p;
        if next != 0 && bit(s, m.wrapping_add(a) % p) != bit(c, m) {
            c |= one_at(next);
        }
        m = next;
    }
    c
}

// s / (x^a + x^b): the even-weight one of a word of the chain and that word + 1 + x + .. + x^(p-1).
fn divided(p: usize, s: u64, a: usize, b: usize, slip: Option<Slip>) -> u64 {
    let c = chained(p, s, a, b);
    if odd(c) && slip != Some(Slip::Zeroed) {
        c ^ ones_below(p)
    } else {
        c
    }
}

// The product of two elements.
pub fn product(p: usize, u: u64, v: u64) -> Result<u64, No> {
    if !PRIMES.contains(&p) {
        return Err(No::Prime);
    }
    if no_element(p, u) || no_element(p, v) {
        return Err(No::Element);
    }
    Ok(multiplied(p, u, v))
}

// The division of an element by x^a + x^b.
pub fn divide(p: usize, s: u64, a: usize, b: usize, slip: Option<Slip>) -> Result<u64, No> {
    if !PRIMES.contains(&p) {
        return Err(No::Prime);
    }
    if no_element(p, s) {
        return Err(No::Element);
    }
    if a >= p || b >= p || a == b {
        return Err(No::Exponent);
    }
    Ok(divided(p, s, a, b, slip))
}

// e = x + x^2 + .. + x^(p-1)
fn one(p: usize) -> u64 {
    ones_below(p) ^ 1
}

// (x^t + x^(p-1)) / (x^a + x^b); with coefficient p-1 forgotten, x^t times the inverse of x^a + x^b.
fn changed(q: Shape, t: usize, a: usize, b: usize) -> u64 {
    if q.makes(Slip::Forgotten) {
        multiplied(q.p, one_at(t), divided(q.p, one(q.p), a, b, q.slip))
    } else {
        divided(q.p, one_at(t) | one_at(q.rows()), a, b, q.slip)
    }
}

// The rows of parity j that data strip (i, t) is added to: (x^t + x^(p-1)) / (x^j + x^(r+i)) below x^(p-1).
pub fn touched(q: Shape, i: usize, t: usize, j: usize) -> u64 {
    let quotient = if q.makes(Slip::Exponents) {
        changed(q, t, i, q.parity(j))
    } else {
        changed(q, t, j, q.r.wrapping_add(i))
    };
    quotient & ones_below(q.rows())
}
