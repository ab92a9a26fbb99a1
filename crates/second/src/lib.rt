// The second implementation of make, refill, check and write, from document 01 alone: each data strip is added to the parity strips that it is part of. Safe whatever it is handed, and slow.
#![tactic(auto)]

ghost use Rattle.std.specs.Prelude.{◌≡◌};
ghost use Rattle.second.specs.Placed.{placed_of};

use second_ground::{
    HALF_CIRCLE, No, Note, Shape, Slip, Unwritten, Written, read, revision_at, touched,
};
use total::{add_each, add_within, bit, copy, number32, one_at, part, part_mut, put16, put32};

// Adds the strip at a place to those rows of the column at another that a word names.
fn add_to_rows(image: &mut [u8], q: Shape, named: u64, to: usize, from: usize) {
    for t in (0..q.rows()).filter(|t| bit(named, *t)) {
        add_within(image, to.wrapping_add(t.wrapping_mul(q.b)), from, q.b);
    }
}

// Adds data column i, as parity j takes it, to the column at a place.
fn add_column(image: &mut [u8], q: Shape, i: usize, j: usize, to: usize) {
    for t in 0..q.rows() {
        add_to_rows(image, q, touched(q, i, t, j), to, q.strip_at(i, t));
    }
}

// Adds the data columns that a pattern does not leave out, as parity j takes them, to the column at a place.
pub fn add_columns(image: &mut [u8], q: Shape, j: usize, to: usize, left_out: u64) {
    for i in (0..q.k).filter(|i| !bit(left_out, *i)) {
        add_column(image, q, i, j, to);
    }
}

// Sets the parity columns that a pattern names from the data.
pub fn set_parity(image: &mut [u8], q: Shape, pattern: u64) {
    for j in (0..q.r).filter(|j| bit(pattern, q.parity(*j))) {
        let at = q.column_at(q.parity(j));
        part_mut(image, at, q.column_size()).fill(0);
        add_columns(image, q, j, at, 0);
    }
}

// Puts section 1 in place.
fn begin(image: &mut [u8], q: Shape) {
    put16(image, 0, 4);
    put16(image, 2, q.p);
    put16(image, 4, q.k);
    put16(image, 6, q.r);
    put16(image, 8, q.b);
}

// Puts the other counts and the data in place.
fn go_on(image: &mut [u8], q: Shape, given: &[u8]) {
    put16(image, 10, q.k);
    put16(image, revision_at(q.k), q.k);
    put16(image, q.last_count_at(), q.r);
    copy(part_mut(image, q.column_at(0), given.len()), given);
}

// Make, with parameters that are not tested yet.
pub fn make(untested: Shape, given: &[u8], image: &mut [u8]) -> Result<(), No> {
    let q = untested.tested()?;
    if given.len() != q.data_size() {
        return Err(No::Width);
    }
    if image.len() != q.length() {
        return Err(No::Room);
    }
    image.fill(0);
    begin(image, q);
    go_on(image, q, given);
    set_parity(image, q, q.all_columns());
    Ok(())
}

// Refill.
pub fn refill(image: &mut [u8], slip: Option<Slip>) -> Result<(), No> {
    let q = read(image, slip)?;
    set_parity(image, q, q.all_columns());
    Ok(())
}

// Whether parity column j of an image is unlike that of another.
fn is_wrong(image: &[u8], due: &[u8], q: Shape, j: usize) -> bool {
    let (at, n) = (q.column_at(q.parity(j)), q.column_size());
    part(image, at, n) != part(due, at, n)
}

// Check, by a copy in lent room: the parity columns in which the image is unlike the copy.
pub fn check(image: &[u8], room: &mut [u8], slip: Option<Slip>) -> Result<u64, No> {
    let q = read(image, slip)?;
    copy(room, image);
    set_parity(room, q, q.all_columns());
    let wrong = (0..q.r).filter(|j| is_wrong(image, room, q, *j));
    Ok(wrong.fold(0, |found, j| found | one_at(j)))
}

// Whether serial number s is less than t, by the inequalities of RFC 1982; half the circle apart, neither is less than the other.
fn less_serial(s: u32, t: u32, q: Shape) -> bool {
    let apart = s.abs_diff(t);
    if q.makes(Slip::Plain) {
        s < t
    } else if apart == HALF_CIRCLE {
        q.makes(Slip::Halved)
    } else {
        (s < t) == (apart < HALF_CIRCLE)
    }
}

// The answer to a base b against a revision n: STALE or AHEAD with the distance beside it, that far where the base is older, else what is left of the circle; UNCLEAR; or neither.
fn judged(n: u32, b: u32, q: Shape) -> Result<(), Unwritten> {
    if n == b {
        return Ok(());
    }
    let older = less_serial(b, n, q);
    if !older && !less_serial(n, b, q) {
        return Err(Unwritten::from(No::Unclear));
    }
    let behind = older != q.makes(Slip::Opposite);
    Err(Unwritten {
        no: if older { No::Stale } else { No::Ahead },
        distance: if behind {
            n.wrapping_sub(b)
        } else {
            b.wrapping_sub(n)
        },
    })
}

// The refusal of where and how wide a write to an accepted image is.
pub fn placed(q: Shape, note: Note) -> Result<(), No>
    ensures { result ≡ placed_of q note.entry }
{
    if note.column >= q.k {
        return Err(No::Column);
    }
    if note.row >= q.rows() {
        return Err(No::Row);
    }
    if note.strip.len() != q.b {
        return Err(No::Width);
    }
    Ok(())
}

// The refusal of a base that is not the revision of the data column that is written.
pub fn untimely(image: &[u8], q: Shape, note: Note) -> Result<(), Unwritten> {
    judged(number32(image, revision_at(note.column)), note.base, q)
}

// Adds the difference that stands in data strip (i, t) to parity; gives how many strips it was added to.
fn move_parity(image: &mut [u8], q: Shape, i: usize, t: usize) -> u64 {
    let mut count: u64 = 0;
    for j in 0..q.r {
        let named = touched(q, i, t, j);
        let to = q.column_at(q.parity(j));
        add_to_rows(image, q, named, to, q.strip_at(i, t));
        count = count.wrapping_add(u64::from(named.count_ones()));
    }
    count
}

// A write that nothing refuses: the difference stands in the strip's place until parity has it.
pub fn accept(image: &mut [u8], q: Shape, note: Note) -> Written {
    let at = q.strip_at(note.column, note.row);
    add_each(part_mut(image, at, q.b), note.strip);
    let count = move_parity(image, q, note.column, note.row);
    copy(part_mut(image, at, q.b), note.strip);
    let revision = note.base.wrapping_add(1);
    put32(image, revision_at(note.column), revision);
    Written { revision, count }
}

// Write.
pub fn write(image: &mut [u8], note: Note, slip: Option<Slip>) -> Result<Written, Unwritten> {
    let q = read(image, slip)?;
    placed(q, note)?;
    untimely(image, q, note)?;
    Ok(accept(image, q, note))
}
