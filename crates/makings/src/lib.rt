// Images that are made: right, spoiled and refilled, from wrong numbers or lengths; and how they are damaged.
#![tactic(auto)]

use comparing::{Pair, Tally};
use drawing::{below, fill, pattern_of, seldom, spoil_lost};
use second_ground::{Shape, revision_at};
use total::{part, put16};

// Puts drawn bytes into a drawn parity strip.
fn spoil_parity(image: &mut [u8], q: Shape, c: usize) {
    let column = q.parity(below(c, 20, q.r));
    let at = q.strip_at(column, below(c, 21, q.rows()));
    fill(image, at, q.b, c.wrapping_add(1));
}

// The parameters' test, make, reading, check, check of a spoiled parity, refill.
pub fn try_made(t: &mut Tally, q: Shape, c: usize, pair: &mut Pair) {
    t.parameters(q);
    t.make_drawn(q, c, pair);
    t.read(pair.one);
    t.check(pair, q.slip);
    spoil_parity(pair.one, q, c);
    spoil_parity(pair.two, q, c);
    t.check(pair, q.slip);
    t.refill(pair, q.slip);
}

// The parameters' test, and make with data or an image of a length that is not always due.
pub fn try_unmade(t: &mut Tally, q: Shape, c: usize, pair: &mut Pair) {
    let n = q.data_size().wrapping_add(usize::from(seldom(c, 10, 3)));
    t.parameters(q);
    let room = &mut *pair.room;
    t.make(q, part(room, 0, n), pair.one, pair.two);
}

// Changes one number of the header or one count.
fn change_number(image: &mut [u8], q: Shape, c: usize) {
    let v = below(c, 71, 70);
    match below(c, 70, 8) {
        0 => put16(image, 0, v),
        1 => put16(image, 2, v),
        2 => put16(image, 4, v),
        3 => put16(image, 6, v),
        4 => put16(image, 8, v.wrapping_mul(9)),
        5 => put16(image, 10, v),
        6 => put16(image, revision_at(q.k), v),
        _ => put16(image, q.last_count_at(), v),
    }
}

// Changes one number or count in half of the cases; puts drawn bytes into some columns in the others.
pub fn damage(image: &mut [u8], q: Shape, c: usize) {
    let n = q.columns();
    if seldom(c, 74, 2) {
        change_number(image, q, c);
    } else {
        let spoiled = pattern_of(n, c.wrapping_add(1), below(c, 75, n));
        spoil_lost(image, q, spoiled, c);
    }
}
