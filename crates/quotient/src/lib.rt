// The quotient that walks found: the sum of all rows added to each, put in its place or compared with what stands there.
#![tactic(auto)]

ghost use Rattle.std.specs.Prelude.{◌≡◌, ◌*◌, ◌-◌, ◌≤◌, length, get_or};
ghost use Rattle.laws.specs.Xor.{◌⊕◌};
ghost use Rattle.laws.specs.Patch.{Patched};
ghost use Rattle.quotient.specs.Lanes.{finished, Summed, Stand, Laid, FinishAsked, RowStands, Shows};

use walk::LANES;

// The sum of the p rows of acc, w bytes of each.
fn total(acc: &[u8], p: usize, w: usize) -> [u8; LANES]
    requires { (w ≤ 128) × (p * w ≤ length acc.now) }
    ensures { Summed acc.now result p w }
{
    let mut sum = [0u8; LANES];
    for t in 0..p {
        let at = t * w;
        engine::add(&mut sum[0..w], &acc[at..at + w]);
    }
    sum
}

// Puts a row, with sum added, in s.
fn put(s: &mut [u8], row: &[u8], sum: &[u8; LANES])
    requires { (length row.now ≡ length s.old) × (length s.old ≤ 128) × (length sum.now ≡ 128) }
    ensures { Patched s.old s.new 0 (length s.old) (λ x. get_or row.now x 0 ⊕ get_or sum.now x 0) }
{
    for (x, o) in s.iter_mut().enumerate() {
        *o = row[x] ^ sum[x];
    }
}

// Puts the quotient that the walks found in s.
pub fn finish(s: &mut [u8], to: usize, p: usize, b: usize, j: usize, w: usize, acc: &[u8])
    requires { FinishAsked s.old acc.now to p b j w }
    ensures { Laid s.old s.new to (p - 1) b w (finished acc.now p w j) }
{
    let sum = total(acc, p, w);
    let mut f = j;
    for t in 0..p - 1 {
        let (at, row) = (to + t * b, f * w);
        put(&mut s[at..at + w], &acc[row..row + w], &sum);
        f = walk::next(f, p - 1, p);
    }
}

// 0 where bad is 0 and s is the row with sum added.
fn differ(bad: u8, s: &[u8], row: &[u8], sum: &[u8; LANES]) -> u8
    requires { (length row.now ≡ length s.now) × (length s.now ≤ 128) × (length sum.now ≡ 128) }
    ensures { Shows bad result (RowStands s.now row.now sum.now (length s.now)) }
{
    let mut all = bad;
    // Stays: row and sum by index; a zip of the three takes a check, in a build of the walks alone, from 332,567 instructions to 559,431.
    for (x, o) in s.iter().enumerate() {
        all |= *o ^ (row[x] ^ sum[x]);
    }
    all
}

// 0 where bad is 0 and the quotient that the walks found stands in s.
pub fn compare(
    bad: u8,
    s: &[u8],
    to: usize,
    p: usize,
    b: usize,
    j: usize,
    w: usize,
    acc: &[u8],
) -> u8
    requires { FinishAsked s.now acc.now to p b j w }
    ensures { Shows bad result (Stand s.now to (p - 1) b w (finished acc.now p w j)) }
{
    let sum = total(acc, p, w);
    let mut all = bad;
    let mut f = j;
    for t in 0..p - 1 {
        let (at, row) = (to + t * b, f * w);
        all = differ(all, &s[at..at + w], &acc[row..row + w], &sum);
        f = walk::next(f, p - 1, p);
    }
    all
}
