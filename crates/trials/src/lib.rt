// Cases that go through the library and through the second implementation, a group of them at a time.
#![tactic(auto)]

use comparing::{Pair, Tally};
use drawing::{
    Group, below, damaged_length, length_of, lost_of, pattern_of, prime_of, seldom, shape_of,
    word_of,
};
use histories::{History, Way};
use second_ground::{Shape, Slip};

// Every call on two images that are alike: reading, check, restore and show; writes, and other writes while columns are away; rebuild and refill.
fn try_calls(t: &mut Tally, q: Shape, c: usize, pair: &mut Pair) {
    let lost = pattern_of(q.columns(), c, below(c, 60, q.r.wrapping_add(2)));
    t.read(pair.one);
    t.check(pair, q.slip);
    losses::try_strip(t, q, c, lost, pair);
    let way = Way::Whole;
    History { q, c, way }.try_first(t, pair);
    let (c, way) = (c.wrapping_add(1), Way::Away(lost));
    History { q, c, way }.try_first(t, pair);
    t.rebuild(pair, lost, q.slip);
    t.refill(pair, q.slip);
}

// A history of writes; make, check and refill; then every call.
fn try_strips(t: &mut Tally, q: Shape, c: usize, pair: &mut Pair) {
    histories::try_history(t, q, c, pair);
    makings::try_made(t, q, c, pair);
    try_calls(t, q, c, pair);
}

// What a group tries on images of its shapes.
fn try_images(group: Group, t: &mut Tally, q: Shape, c: usize, pair: &mut Pair) {
    let lost = lost_of(group, q, c);
    match group {
        Group::Made => makings::try_made(t, q, c, pair),
        Group::Unmade => makings::try_unmade(t, q, c, pair),
        Group::Damaged => try_calls(t, q, c, pair),
        Group::Histories => histories::try_history(t, q, c, pair),
        Group::Strips => try_strips(t, q, c, pair),
        Group::Away => histories::try_away(t, q, c, lost, pair),
        _ => losses::try_lost(t, q, c, lost, pair),
    }
}

// The first n bytes of each buffer, where they have so many.
fn first<'a>(pair: &'a mut Pair, n: usize) -> Option<Pair<'a>> {
    let Pair { one, two, room } = pair;
    Some(Pair {
        one: one.get_mut(..n)?,
        two: two.get_mut(..n)?,
        room: room.get_mut(..n)?,
    })
}

// The same on the first n bytes of each buffer; buffers that are too short count as a difference.
fn try_within(group: Group, t: &mut Tally, q: Shape, c: usize, n: usize, pair: &mut Pair) {
    match first(pair, n) {
        Some(mut within) => try_images(group, t, q, c, &mut within),
        None => t.add(1),
    }
}

// Every call on an image whose length, counts or columns are mostly not due.
fn try_damaged(t: &mut Tally, q: Shape, c: usize, pair: &mut Pair) {
    try_within(Group::Made, t, q, c, q.length(), pair);
    makings::damage(pair.one, q, c);
    makings::damage(pair.two, q, c);
    try_within(Group::Damaged, t, q, c, damaged_length(q, c), pair);
}

// Product and division of drawn words.
fn try_ring(t: &mut Tally, c: usize, slip: Option<Slip>) {
    let p = if seldom(c, 80, 12) {
        below(c, 81, 70)
    } else {
        prime_of(c)
    };
    let exponents = p.wrapping_add(1);
    let (a, b) = (below(c, 88, exponents), below(c, 89, exponents));
    t.product(p, word_of(p, c, 82), word_of(p, c, 84));
    t.divide(p, word_of(p, c, 86), a, b, slip);
}

// Case c of a group.
fn try_case(group: Group, t: &mut Tally, c: usize, slip: Option<Slip>, pair: &mut Pair) {
    let q = shape_of(group, c, slip);
    match group {
        Group::Ring => try_ring(t, c, slip),
        Group::Damaged => try_damaged(t, q, c, pair),
        _ => try_within(group, t, q, c, length_of(group, q, c), pair),
    }
}

// The first n cases of a group; refusals are counted on from those of the groups before it.
pub fn run(group: Group, n: usize, slip: Option<Slip>, t: &mut Tally, pair: &mut Pair) {
    t.start_group();
    for c in 0..n {
        t.start_case();
        try_case(group, t, c, slip, pair);
    }
}
