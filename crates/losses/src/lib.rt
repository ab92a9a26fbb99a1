// Lost columns: restore, show and rebuild, by both implementations.
#![tactic(auto)]

use comparing::{Pair, Tally};
use drawing::{below, seldom, spoil_lost};
use second_ground::Shape;
use second_lost::Asked;
use total::{bit, ones, part};

// Restore and show of a drawn strip, mostly sound.
pub fn try_strip(t: &mut Tally, q: Shape, c: usize, lost: u64, pair: &mut Pair) {
    let columns = q.columns().wrapping_add(usize::from(seldom(c, 50, 8)));
    let rows = q.rows().wrapping_add(usize::from(seldom(c, 51, 8)));
    let asked = Asked {
        lost,
        column: below(c, 52, columns),
        row: below(c, 53, rows),
    };
    let n = if seldom(c, 54, 8) {
        q.b.wrapping_sub(1)
    } else {
        q.b.wrapping_add(below(c, 55, 3))
    };
    t.restore(pair, asked, n, q.slip);
    let (image, room) = (&mut *pair.one, &mut *pair.room);
    t.show(image, asked, part(room, 0, n));
}

// Lost columns: restore, show, rebuild; where their pattern is sound, the rebuilt image is the one that was made.
pub fn try_lost(t: &mut Tally, q: Shape, c: usize, lost: u64, pair: &mut Pair) {
    t.make_drawn(q, c, pair);
    spoil_lost(pair.one, q, lost, c);
    spoil_lost(pair.two, q, lost, c);
    try_strip(t, q, c, lost, pair);
    t.rebuild(pair, lost, q.slip);
    if ones(lost) <= q.r && !bit(lost, q.columns()) {
        t.make_again(q, c, pair.two, pair.room);
        t.add(pair.apart());
    }
}
