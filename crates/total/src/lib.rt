// Parts, bits and numbers of slices for code that is safe whatever it is handed: what does not lie within reads as 0 or as no item and is never written.
#![tactic(auto)]

ghost use Rattle.std.specs.Prelude.{◌≡◌, ◌++◌, length, take, drop};
ghost use Rattle.std.specs.Bool.{OnTrue, OnFalse};
ghost use Rattle.total.specs.Parts.{part_of, Added, are_apart, AddedWithin};
ghost use Rattle.total.specs.Words.{one_at, ones_below};

use std::ops::BitXorAssign;

// The n items at a place; none where they do not all lie within.
pub fn part<T>(s: &[T], at: usize, n: usize) -> &[T]
    ensures { result.now ≡ part_of s.now at n }
{
    s.get(at..at.wrapping_add(n)).unwrap_or(&[])
}

// The same, to be written.
pub fn part_mut<T>(s: &mut [T], at: usize, n: usize) -> &mut [T]
    ensures { result.now ≡ part_of s.old at n }
{
    s.get_mut(at..at.wrapping_add(n)).unwrap_or(&mut [])
}

// Puts the items of one slice into another, as far as both go.
pub fn copy<T: Copy>(to: &mut [T], from: &[T])
    ensures { to.new ≡ take (length to.old) from.now ++ drop (length from.now) to.old }
{
    let n = to.len().min(from.len());
    to[..n].copy_from_slice(&from[..n]);
}

// Adds the items of one slice to those of another, as far as both go.
pub fn add_each<T: Copy + BitXorAssign>(to: &mut [T], from: &[T])
    requires { (x : _) (y : _) → T.can_bitxor_assign x y }
    ensures { Added T.bitxor_assign_gives to.old from.now to.new }
{
    for (i, x) in to.iter_mut().enumerate() {
        if let Some(y) = from.get(i) {
            *x ^= *y;
        }
    }
}

// Whether the n items at two places of a slice so long all lie within it and do not overlap.
fn are_apart(len: usize, to: usize, from: usize, n: usize) -> bool
    ensures { result ≡ are_apart len to from n }
{
    n <= len && to <= len - n && from <= len - n && (to + n <= from || from + n <= to)
}

// Adds the n items at one place of a slice to those at another that do not overlap them.
pub fn add_within<T: Copy + BitXorAssign>(s: &mut [T], to: usize, from: usize, n: usize)
    requires { (x : _) (y : _) → T.can_bitxor_assign x y }
    ensures added { OnTrue (are_apart (length s.old) to from n) (AddedWithin T.bitxor_assign_gives s.old s.new to from n) }
    ensures else_same { OnFalse (are_apart (length s.old) to from n) (s.new ≡ s.old) }
{
    if are_apart(s.len(), to, from, n) {
        for i in 0..n {
            let y = s[from + i];
            s[to + i] ^= y;
        }
    }
}

// Whether bit i of a word is set.
pub fn bit(w: u64, i: usize) -> bool {
    i < 64 && (w >> i) % 2 == 1
}

// The word with bit i alone.
pub fn one_at(i: usize) -> u64
    ensures { result ≡ one_at i }
{
    if i < 64 { 1 << i } else { 0 }
}

// The word with the bits below n, for n below 64.
pub fn ones_below(n: usize) -> u64
    ensures { result ≡ ones_below n }
{
    one_at(n).wrapping_sub(1)
}

// How many bits of a word are set, as a size.
pub fn ones(w: u64) -> usize {
    w.count_ones() as usize
}

// The u-th set bit of a word, from 0 up; 64 where it has no more than u.
pub fn nth_one(w: u64, u: usize) -> usize {
    let left = (0..u).fold(w, |left, _| left & left.wrapping_sub(1));
    left.trailing_zeros() as usize
}

// The byte at a place.
fn byte(s: &[u8], at: usize) -> u8 {
    match s.get(at) {
        Some(v) => *v,
        None => 0,
    }
}

// The number of 16 bits at a place, lowest byte first; of one that the end cuts, the bytes that lie within.
pub fn number16(s: &[u8], at: usize) -> usize {
    let bytes = [byte(s, at), byte(s, at.wrapping_add(1))];
    usize::from(u16::from_le_bytes(bytes))
}

// The same of 32 bits.
pub fn number32(s: &[u8], at: usize) -> u32 {
    let bytes = [
        byte(s, at),
        byte(s, at.wrapping_add(1)),
        byte(s, at.wrapping_add(2)),
        byte(s, at.wrapping_add(3)),
    ];
    u32::from_le_bytes(bytes)
}

// Puts bytes at a place, those that lie within.
fn put(s: &mut [u8], at: usize, bytes: &[u8]) {
    for (i, v) in bytes.iter().enumerate() {
        if let Some(x) = s.get_mut(at.wrapping_add(i)) {
            *x = *v;
        }
    }
}

// Puts the lowest 16 bits of a number at a place, lowest byte first.
pub fn put16(s: &mut [u8], at: usize, v: usize) {
    put(s, at, part(&v.to_le_bytes(), 0, 2));
}

// Puts a number of 32 bits at a place, lowest byte first.
pub fn put32(s: &mut [u8], at: usize, v: u32) {
    put(s, at, &v.to_le_bytes());
}
