// The parameters of a stripe, where its parts lie in an image, and the reading and writing of an image's sections.
#![tactic(auto)]

ghost use Rattle.std.specs.Prelude.{◌≡◌, ◌+◌, ◌*◌, ◌<◌, ◌≤◌, length, replicate};
ghost use Rattle.laws.specs.Number.{u16, u32, put32};
ghost use Rattle.stripe.specs.Params.{admitted_prime, admitted_shape, admitted_strip, checked_of, Admitted};
ghost use Rattle.stripe.specs.Layout.{rows, column_length, revision_at, data_at, strip_at, parity_at, parity_strip_at, image_length};
ghost use Rattle.stripe.specs.Reading.{sections_of, read_of};
ghost use Rattle.stripe.specs.Sections.{numbers_at, sixteen, three, opening, PutIn, Fits, image_of, revisions_in, columns_in, parities_in};

use refusal::Refusal;

// The parameters p, k, r and B of a stripe.
// Stays: `Admitted` in clauses and no invariant of the type: `numbers` answers any four numbers, and `column_file::flag` and its like ask for no more.
#[derive(Clone, Copy, PartialEq, Eq, Debug)]
pub struct Params {
    pub p: usize,
    pub k: usize,
    pub r: usize,
    pub b: usize,
}

impl Params {
    // The largest prime that is admitted.
    pub const LARGEST_PRIME: usize = 61;

    // The length of the largest strip.
    pub const LARGEST_STRIP: usize = 512;

    // The most data columns, the most parity columns, and the most strips of a column.
    pub const MOST_COLUMNS: usize = Params::LARGEST_PRIME - 1;

    // The most data columns that may be lost: each asks for a parity column of its own.
    pub const MOST_LOST: usize = Params::LARGEST_PRIME / 2;

    // The length of the largest image.
    pub const LARGEST_IMAGE: usize = 16
        + 4 * Params::MOST_COLUMNS
        + Params::LARGEST_PRIME * Params::MOST_COLUMNS * Params::LARGEST_STRIP;

    // A strip of the largest length to work in, all 0.
    pub fn blank_strip() -> [u8; Params::LARGEST_STRIP]
        ensures { (result ≡ replicate 512 0) × (length result ≡ 512) }
    {
        [0u8; Params::LARGEST_STRIP]
    }

    // Whether p is an odd prime up to the largest, below 8 · 8: a number there that is no prime has a factor below 8.
    pub fn admits(p: usize) -> bool
        ensures { result ≡ admitted_prime p }
    {
        3 <= p && p <= Params::LARGEST_PRIME && !(2..8).any(|d| d < p && p % d == 0)
    }

    // Whether k and r are at least 1 and k + r is at most p. The sum may not fit, and is not computed.
    #[tactic(auto, unfolding(crate::specs::Params::admitted_shape))]
    fn admits_shape(p: usize, k: usize, r: usize) -> bool
        ensures { result ≡ admitted_shape p k r }
    {
        1 <= k && 1 <= r && k <= p && r <= p - k
    }

    // Whether b is from 1 to the largest.
    #[tactic(auto, unfolding(crate::specs::Params::admitted_strip))]
    fn admits_strip(b: usize) -> bool
        ensures { result ≡ admitted_strip b }
    {
        1 <= b && b <= Params::LARGEST_STRIP
    }

    // The parameters, or the first refusal that is due: PRIME, SHAPE, STRIP.
    pub fn checked(p: usize, k: usize, r: usize, b: usize) -> Result<Params, Refusal>
        ensures { result ≡ checked_of p k r b }
    {
        if !Params::admits(p) {
            return Err(Refusal::Prime);
        }
        if !Params::admits_shape(p, k, r) {
            return Err(Refusal::Shape);
        }
        if !Params::admits_strip(b) {
            return Err(Refusal::Strip);
        }
        Ok(Params { p, k, r, b })
    }

    // The bytes of a column.
    pub fn column_length(self) -> usize
        requires { Admitted self }
        ensures { (result ≡ column_length self) × (result ≤ 30720) }
    {
        (self.p - 1) * self.b
    }

    // The bytes of n columns.
    fn columns(self, n: usize) -> usize
        requires { Admitted self × (n ≤ self.k + self.r) }
        ensures { (result ≡ n * column_length self) × (result ≤ 1873920) }
    {
        n * self.column_length()
    }

    // Where revision i stands; for i = k, where the count of section 3 stands.
    pub fn revision_at(self, i: usize) -> usize
        requires { Admitted self × (i ≤ self.k) }
        ensures { (result ≡ revision_at i) × (result ≤ 2000000) }
    {
        12 + 4 * i
    }

    // Where data column i starts; for i = k, where the count of section 4 stands.
    pub fn data_at(self, i: usize) -> usize
        requires { Admitted self × (i ≤ self.k) }
        ensures { (result ≡ data_at self i) × (result ≤ 2000000) }
    {
        14 + 4 * self.k + self.columns(i)
    }

    // Where strip t of data column i starts.
    pub fn strip_at(self, i: usize, t: usize) -> usize
        requires { Admitted self × (i < self.k) × (t < rows self) }
        ensures { (result ≡ strip_at self i t) × (result ≤ 2000000) }
    {
        self.data_at(i) + t * self.b
    }

    // Where parity column j starts; for j = r, where the image ends.
    pub fn parity_at(self, j: usize) -> usize
        requires { Admitted self × (j ≤ self.r) }
        ensures { (result ≡ parity_at self j) × (result ≤ 2000000) }
    {
        16 + 4 * self.k + self.columns(self.k + j)
    }

    // Where strip t of parity column j starts.
    pub fn parity_strip_at(self, j: usize, t: usize) -> usize
        requires { Admitted self × (j < self.r) × (t < rows self) }
        ensures { (result ≡ parity_strip_at self j t) × (result ≤ 2000000) }
    {
        self.parity_at(j) + t * self.b
    }

    // The length L of an image.
    pub fn image_length(self) -> usize
        requires { Admitted self }
        ensures { (result ≡ image_length self) × (result ≤ 1874176) }
    {
        16 + 4 * self.k + self.columns(self.k + self.r)
    }
}

// The number of 32 bits at a place.
pub fn u32_at(s: &[u8], at: usize) -> u32
    requires { at + 4 ≤ length s.now }
    ensures { result ≡ u32 s.now at }
{
    u32::from_le_bytes([s[at], s[at + 1], s[at + 2], s[at + 3]])
}

// Puts the four bytes of v at a place.
pub fn put_u32(s: &mut [u8], at: usize, v: u32)
    requires { at + 4 ≤ length s.old }
    ensures { s.new ≡ put32 s.old at v }
{
    s[at..at + 4].copy_from_slice(&v.to_le_bytes());
}

// The number of 16 bits at a place, as a size.
pub fn number(s: &[u8], at: usize) -> usize
    requires { at + 2 ≤ length s.now }
    ensures { (result ≡ u16 s.now at) × (result ≤ 65535) }
{
    usize::from(u16::from_le_bytes([s[at], s[at + 1]]))
}

// Puts a number of 16 bits at a place.
pub fn put_number(s: &mut [u8], at: usize, v: usize)
    requires { (at + 2 ≤ length s.old) × (v ≤ 65535) }
    ensures { PutIn s.old s.new at (sixteen v) }
{
    s[at..at + 2].copy_from_slice(&(v as u16).to_le_bytes());
}

// Puts three numbers of 16 bits at a place.
#[tactic(auto, using(crate::proofs::Images::three_put))]
fn put_three(s: &mut [u8], at: usize, u: usize, v: usize, w: usize)
    requires { (at + 6 ≤ length s.old) × (u ≤ 65535) × (v ≤ 65535) × (w ≤ 65535) }
    ensures { PutIn s.old s.new at (three u v w) }
{
    put_number(s, at, u);
    put_number(s, at + 2, v);
    put_number(s, at + 4, w);
}

// Writes a count, the parameters and the number behind them: what an image and the file of a column open with.
#[tactic(auto, using(crate::proofs::Images::opening_put))]
pub fn put_opening(s: &mut [u8], count: usize, q: Params, next: usize)
    requires { Admitted q × (12 ≤ length s.old) × (count ≤ 65535) × (next ≤ 65535) }
    ensures { PutIn s.old s.new 0 (opening count q next) }
{
    put_three(s, 0, count, q.p, q.k);
    put_three(s, 6, q.r, q.b, next);
}

// Writes section 1 and the counts of sections 2, 3 and 4 around what stands in them.
#[tactic(auto, using(crate::proofs::Images::counts_put))]
pub fn put_counts(image: &mut [u8], q: Params)
    requires { Fits image.old q }
    ensures { image.new ≡ image_of q (revisions_in image.old q) (columns_in image.old q) (parities_in image.old q) }
{
    put_opening(image, 4, q, q.k);
    put_number(image, q.revision_at(q.k), q.k);
    put_number(image, q.data_at(q.k), q.r);
}

// The numbers p, k, r and B behind the count at a place, whatever they are.
pub fn numbers(s: &[u8], at: usize) -> Params
    requires { at + 10 ≤ length s.now }
    ensures { result ≡ numbers_at s.now at }
{
    Params {
        p: number(s, at + 2),
        k: number(s, at + 4),
        r: number(s, at + 6),
        b: number(s, at + 8),
    }
}

// The test of the parameters behind the count at a place.
pub fn parameters(s: &[u8], at: usize) -> Result<Params, Refusal>
    requires { at + 10 ≤ length s.now }
    ensures { result ≡ checked_of (u16 s.now (at + 2)) (u16 s.now (at + 4)) (u16 s.now (at + 6)) (u16 s.now (at + 8)) }
{
    let q = numbers(s, at);
    Params::checked(q.p, q.k, q.r, q.b)
}

// The reading of an image whose parameters are sound: its length, and the counts of sections 2, 3 and 4.
fn sections(image: &[u8], q: Params) -> Result<Params, Refusal>
    requires { Admitted q }
    ensures { result ≡ sections_of image.now q }
{
    let k = q.k;
    let total = q.image_length();
    if image.len() < total {
        return Err(Refusal::Cut);
    }
    if image.len() > total {
        return Err(Refusal::Tail);
    }
    if number(image, 10) != k {
        return Err(Refusal::Count);
    }
    if number(image, q.revision_at(k)) != k {
        return Err(Refusal::Count);
    }
    if number(image, q.data_at(k)) != q.r {
        return Err(Refusal::Count);
    }
    Ok(q)
}

// The parameters of an accepted image, or the first refusal that is due.
pub fn read(image: &[u8]) -> Result<Params, Refusal>
    ensures { result ≡ read_of image.now }
{
    if image.len() < 2 {
        return Err(Refusal::Cut);
    }
    if number(image, 0) != 4 {
        return Err(Refusal::Count);
    }
    if image.len() < 10 {
        return Err(Refusal::Cut);
    }
    sections(image, parameters(image, 0)?)
}
