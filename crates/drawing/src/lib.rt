// Numbers, shapes, writes and patterns drawn from the number of a case, so that each run has the same ones.
#![tactic(auto)]

use second_ground::{HALF_CIRCLE, Note, Shape, Slip};
use total::{bit, nth_one, one_at, ones, ones_below, part};

// The groups of cases.
#[derive(Clone, Copy, PartialEq, Eq, Debug)]
pub enum Group {
    Ring,
    Made,
    Unmade,
    Damaged,
    Histories,
    Lost,
    Wide,
    Strips,
    Widest,
    Away,
}

// The strip lengths around the widths of blocks of lanes.
const STRIPS: [usize; 16] = [
    1, 15, 16, 17, 31, 32, 33, 127, 128, 129, 255, 256, 257, 500, 511, 512,
];

// One turn of a generator by shifts.
fn stir(x: u64) -> u64 {
    let a = x ^ x << 13;
    let b = a ^ a >> 7;
    b ^ b << 17
}

// A word that looks unlike those of its neighbours.
fn mixed(x: u64) -> u64 {
    let once = stir(stir(stir(x)));
    once.wrapping_add(once << 32 ^ 0x9e3779b97f4a7c15)
}

// A word drawn for a case and a purpose, which is a number of its own for each thing drawn.
fn drawn(c: usize, what: usize) -> u64 {
    let purpose = mixed((what as u64).wrapping_add(0x2545f4914f6cdd1d));
    mixed(mixed(purpose.wrapping_add(c as u64)))
}

// A number below n drawn for a case and a purpose; 0 for n = 0.
pub fn below(c: usize, what: usize, n: usize) -> usize {
    let any = (drawn(c, what) >> 11) as usize;
    any.checked_rem(n).unwrap_or(0)
}

// Whether one in n cases is this one, for a purpose.
pub fn seldom(c: usize, what: usize, n: usize) -> bool {
    below(c, what, n) == 0
}

// The odd primes from 3 to 61: a list of its own, so that a wrong one in the second implementation's shows.
const PRIMES: [usize; 17] = [
    3, 5, 7, 11, 13, 17, 19, 23, 29, 31, 37, 41, 43, 47, 53, 59, 61,
];

// The prime of a case, each in turn.
pub fn prime_of(c: usize) -> usize {
    PRIMES[c % PRIMES.len()]
}

// A shape with a few columns, the primes in turn.
fn small_shape(c: usize, slip: Option<Slip>) -> Shape {
    let p = prime_of(c);
    let k = below(c, 1, p.wrapping_sub(1).min(5)).wrapping_add(1);
    let r = below(c, 2, p.wrapping_sub(k).min(4)).wrapping_add(1);
    let b = below(c, 3, 4).wrapping_add(1);
    Shape { p, k, r, b, slip }
}

// A shape with up to three data columns and up to ten parity columns, the primes in turn.
fn lost_shape(c: usize, slip: Option<Slip>) -> Shape {
    let p = prime_of(c);
    let k = below(c, 1, p.wrapping_sub(1).min(3)).wrapping_add(1);
    let r = p.wrapping_sub(k).min(10);
    let b = below(c, 3, 2).wrapping_add(1);
    Shape { p, k, r, b, slip }
}

// Shapes with as many columns as p = 31 admits.
fn wide_shape(c: usize, slip: Option<Slip>) -> Shape {
    let (k, r) = match c % 3 {
        0 => (1, 30),
        1 => (15, 16),
        _ => (28, 3),
    };
    let (p, b) = (31, 1);
    Shape { p, k, r, b, slip }
}

// Shapes with as many columns as p = 61 admits.
fn widest_shape(c: usize, slip: Option<Slip>) -> Shape {
    let (k, r) = match c % 4 {
        0 => (1, 60),
        1 => (60, 1),
        2 => (31, 30),
        _ => (8, 53),
    };
    let (p, b) = (61, 1);
    Shape { p, k, r, b, slip }
}

// A shape for each strip length in turn.
fn strip_shape(c: usize, slip: Option<Slip>) -> Shape {
    let (p, k) = match c / STRIPS.len() {
        0 => (5, 2),
        1 => (17, 3),
        _ => (61, 1),
    };
    let (r, b) = (2, STRIPS[c % STRIPS.len()]);
    Shape { p, k, r, b, slip }
}

// A number; in one of 16 cases any number of 64 bits in its place.
fn or_any(n: usize, c: usize, what: usize) -> usize {
    if seldom(c, what.wrapping_add(1), 16) {
        drawn(c, what) as usize
    } else {
        n
    }
}

// Numbers of which most are no shape.
fn odd_shape(c: usize, slip: Option<Slip>) -> Shape {
    let p = if seldom(c, 1, 4) {
        below(c, 2, 70)
    } else {
        prime_of(c)
    };
    let k = below(c, 3, if seldom(c, 4, 4) { 70 } else { 3 });
    let r = below(c, 5, if seldom(c, 6, 4) { 70 } else { 3 });
    let b = if seldom(c, 7, 4) {
        below(c, 8, 2).wrapping_mul(513)
    } else {
        1
    };
    Shape {
        p: or_any(p, c, 500),
        k: or_any(k, c, 502),
        r: or_any(r, c, 504),
        b: or_any(b, c, 506),
        slip,
    }
}

// Fills n bytes at a place, as far as they lie within, with drawn ones.
pub fn fill(s: &mut [u8], at: usize, n: usize, c: usize) {
    for (x, byte) in s.iter_mut().skip(at).take(n).enumerate() {
        *byte = (drawn(c, x.wrapping_add(1000)) >> 20 & 0xff) as u8;
    }
}

// The revision that a column has at the start of a history: often near the end of the circle.
pub fn start_of(c: usize, column: usize) -> u32 {
    match below(c, column.wrapping_add(30), 4) {
        0 => 0,
        1 => u32::MAX,
        2 => u32::MAX - 1,
        _ => (drawn(c, column.wrapping_add(100)) >> 32) as u32,
    }
}

// The base of write w: about as far from the start as the column may be by then; one in eight is exactly half the circle off, one more at most 4 from there.
fn base_of(q: Shape, c: usize, w: usize, column: usize) -> u32 {
    let turns = w.checked_div(q.k.wrapping_add(1).wrapping_mul(3));
    let near = turns
        .unwrap_or(0)
        .wrapping_add(below(c, w.wrapping_add(200), 2));
    let half = HALF_CIRCLE as usize;
    let far = match below(c, w.wrapping_add(220), 8) {
        0 => half,
        1 => below(c, w.wrapping_add(340), 9).wrapping_add(half - 4),
        _ => 0,
    };
    let off = (near.wrapping_add(far) & 0xffff_ffff) as u32;
    start_of(c, column).wrapping_add(off)
}

// Write w of a case, of the first ones of some bytes: mostly sound.
pub fn note_of(q: Shape, c: usize, w: usize, bytes: &[u8]) -> Note<'_> {
    let none = usize::from(seldom(c, w.wrapping_add(320), 12));
    let column = below(c, w.wrapping_add(240), q.k.wrapping_add(none));
    let wide = usize::from(seldom(c, w.wrapping_add(260), 12));
    let low = usize::from(seldom(c, w.wrapping_add(280), 12));
    Note {
        column,
        row: below(c, w.wrapping_add(300), q.rows().wrapping_add(low)),
        base: base_of(q, c, w, column),
        strip: part(bytes, 0, q.b.wrapping_add(wide)),
    }
}

// One more of n columns in a pattern.
fn one_more(pattern: u64, n: usize, c: usize) -> u64 {
    let free = ones_below(n) ^ pattern;
    if free == 0 {
        return pattern;
    }
    let u = below(c, ones(pattern).wrapping_add(400), ones(free));
    pattern | one_at(nth_one(free, u))
}

// A pattern of a size among n columns.
pub fn pattern_of(n: usize, c: usize, size: usize) -> u64 {
    (0..size).fold(0, |pattern, s| one_more(pattern, n, c.wrapping_add(s)))
}

// How many columns are lost in a case of a group: each number up to one too many in turn, or few less than the most.
fn size_of(group: Group, q: Shape, c: usize) -> usize {
    let sizes = q.r.wrapping_add(2);
    match group {
        Group::Lost | Group::Away => (c / PRIMES.len()).checked_rem(sizes).unwrap_or(0),
        Group::Wide => (c / 3).checked_rem(sizes).unwrap_or(0),
        Group::Widest => q.r.wrapping_sub(c / 4),
        _ => 0,
    }
}

// The pattern of a case of a group, now and then with a column too high.
pub fn lost_of(group: Group, q: Shape, c: usize) -> u64 {
    let n = q.columns();
    let high = if seldom(c, 40, 16) { one_at(n) } else { 0 };
    pattern_of(n, c, size_of(group, q, c)) | high
}

// Puts drawn bytes into those columns that a pattern has.
pub fn spoil_lost(image: &mut [u8], q: Shape, lost: u64, c: usize) {
    for n in (0..q.columns()).filter(|n| bit(lost, *n)) {
        fill(image, q.column_at(n), q.column_size(), c.wrapping_add(n));
    }
}

// A word that is mostly an element.
pub fn word_of(p: usize, c: usize, what: usize) -> u64 {
    let w = drawn(c, what) & ones_below(p);
    if seldom(c, what.wrapping_add(1), 8) {
        drawn(c, what)
    } else if w.count_ones() % 2 == 1 {
        w ^ 1
    } else {
        w
    }
}

// The length of a damaged image: the due one, cut, or one more.
pub fn damaged_length(q: Shape, c: usize) -> usize {
    let n = q.length();
    match below(c, 72, 4) {
        0 => below(c, 73, n),
        1 => below(c, 73, n.min(13)),
        2 => n.wrapping_add(1),
        _ => n,
    }
}

// The shape of a case of a group.
pub fn shape_of(group: Group, c: usize, slip: Option<Slip>) -> Shape {
    match group {
        Group::Unmade => odd_shape(c, slip),
        Group::Lost => lost_shape(c, slip),
        Group::Wide => wide_shape(c, slip),
        Group::Strips => strip_shape(c, slip),
        Group::Widest => widest_shape(c, slip),
        _ => small_shape(c, slip),
    }
}

// The length of the images of a case of a group.
pub fn length_of(group: Group, q: Shape, c: usize) -> usize {
    let n = q.length();
    if group == Group::Unmade {
        n.wrapping_add(usize::from(seldom(c, 90, 3))).min(4000)
    } else {
        n
    }
}
