// The second implementation's rebuild, restore, show and write while columns are lost, by elimination on bits.
#![tactic(auto)]

use second::{accept, add_columns, placed, set_parity, untimely};
use second_ground::{No, Note, Shape, Slip, Unwritten, Written, read, touched};
use total::{add_within, bit, copy, nth_one, one_at, ones, ones_below, part, part_mut};

// Which strip is asked for, and which columns are lost.
#[derive(Clone, Copy)]
pub struct Asked {
    pub lost: u64,
    pub column: usize,
    pub row: usize,
}

// The equations between the strips of lost data columns: a square of bits, so many words an equation, and beside each equation the strip of the image that
// is an unknown too.
#[derive(Drop)]
struct System<'a> {
    bits: &'a mut [u64],
    width: usize,
    image: &'a mut [u8],
    q: Shape,
    lost: u64,
}

impl System<'_> {
    // How many equations and unknowns there are.
    fn size(&self) -> usize {
        lost_strips(self.q, self.lost)
    }

    // Which column the u-th lost data column is.
    fn lost_column(&self, u: usize) -> usize {
        nth_one(lost_data(self.q, self.lost), u)
    }

    // Which parity the u-th present one is.
    fn present_parity(&self, u: usize) -> usize {
        let present = self.q.all_columns() ^ self.lost;
        nth_one(present & !ones_below(self.q.k), u).wrapping_sub(self.q.k)
    }

    // The column and the row of strip e of the lost data columns.
    fn strip(&self, e: usize) -> (usize, usize) {
        let rows = self.q.rows();
        let u = e.checked_div(rows).unwrap_or(0);
        (self.lost_column(u), e.checked_rem(rows).unwrap_or(0))
    }

    // Puts into the u-th lost data column the u-th present parity column, freed of the present data.
    fn free_parity(&mut self, u: usize) {
        let (q, j) = (self.q, self.present_parity(u));
        let (to, n) = (q.column_at(self.lost_column(u)), q.column_size());
        if !q.makes(Slip::Read) {
            part_mut(self.image, to, n).fill(0);
        }
        add_within(self.image, to, q.column_at(q.parity(j)), n);
        add_columns(self.image, q, j, to, self.lost);
    }

    // The same for each lost data column.
    fn free_parities(&mut self) {
        for u in 0..lost_columns(self.q, self.lost) {
            self.free_parity(u);
        }
    }

    // The word of equation f that has the bit of unknown e.
    fn word_at(&self, f: usize, e: usize) -> usize {
        f.wrapping_mul(self.width).wrapping_add(e / 64)
    }

    // Whether unknown e stands in equation f.
    fn stands(&self, f: usize, e: usize) -> bool {
        let word = self.bits.get(self.word_at(f, e));
        word.is_some_and(|word| bit(*word, e % 64))
    }

    // Puts unknown e into equation f.
    fn let_stand(&mut self, f: usize, e: usize) {
        let at = self.word_at(f, e);
        if let Some(word) = self.bits.get_mut(at) {
            *word |= one_at(e % 64);
        }
    }

    // Puts unknown e into those equations of the u-th consulted parity that it is part of.
    fn set_in_parity(&mut self, e: usize, u: usize) {
        let (i, t) = self.strip(e);
        let named = touched(self.q, i, t, self.present_parity(u));
        let rows = self.q.rows();
        for t in (0..rows).filter(|t| bit(named, *t)) {
            self.let_stand(u.wrapping_mul(rows).wrapping_add(t), e);
        }
    }

    // Puts unknown e into its equations.
    fn set_unknown(&mut self, e: usize) {
        for u in 0..lost_columns(self.q, self.lost) {
            self.set_in_parity(e, u);
        }
    }

    // Puts all unknowns into their equations.
    fn set_unknowns(&mut self) {
        for e in 0..self.size() {
            self.set_unknown(e);
        }
    }

    // Where the strip that stands beside equation f lies in the image.
    fn beside(&self, f: usize) -> usize {
        let (column, row) = self.strip(f);
        self.q.strip_at(column, row)
    }

    // Adds one equation to another, with the strips beside them.
    fn add_equation(&mut self, to: usize, from: usize) {
        let width = self.width;
        add_within(
            self.bits,
            to.wrapping_mul(width),
            from.wrapping_mul(width),
            width,
        );
        let (to, from) = (self.beside(to), self.beside(from));
        add_within(self.image, to, from, self.q.b);
    }

    // The first equation from e on in which unknown e stands.
    fn pivot(&self, e: usize) -> usize {
        (e..self.size()).find(|f| self.stands(*f, e)).unwrap_or(e)
    }

    // Takes unknown e out of all equations but e.
    fn single_out(&mut self, e: usize) {
        for f in 0..self.size() {
            if f != e && self.stands(f, e) {
                self.add_equation(f, e);
            }
        }
    }

    // Turns the square into the one with a single unknown an equation; the strips beside are the unknowns then.
    fn eliminate(&mut self) {
        for e in 0..self.size() {
            let f = self.pivot(e);
            if f != e {
                self.add_equation(e, f);
            }
            self.single_out(e);
        }
    }
}

// The data columns of a pattern.
fn lost_data(q: Shape, lost: u64) -> u64 {
    lost & ones_below(q.k)
}

// How many data columns are lost.
fn lost_columns(q: Shape, lost: u64) -> usize {
    ones(lost_data(q, lost))
}

// How many strips they have.
fn lost_strips(q: Shape, lost: u64) -> usize {
    lost_columns(q, lost).wrapping_mul(q.rows())
}

// Rebuilds the lost columns of an accepted image: at most 30 data columns of 60 rows, so 1,800 equations of 29 words.
fn rebuild_lost(image: &mut [u8], q: Shape, lost: u64) {
    let mut system = System {
        bits: &mut [0; 52200],
        width: lost_strips(q, lost).div_ceil(64),
        image: &mut *image,
        q,
        lost,
    };
    system.free_parities();
    system.set_unknowns();
    system.eliminate();
    set_parity(image, q, lost);
}

// Whether a pattern names a column that is not there.
fn outside(q: Shape, lost: u64) -> bool {
    lost & q.all_columns() != lost
}

// Whether a pattern names more columns than may be lost.
fn many(q: Shape, lost: u64) -> bool {
    ones(lost) > q.r
}

// Rebuild.
pub fn rebuild(image: &mut [u8], lost: u64, slip: Option<Slip>) -> Result<(), No> {
    let q = read(image, slip)?;
    if outside(q, lost) {
        return Err(No::Column);
    }
    if many(q, lost) {
        return Err(No::Many);
    }
    rebuild_lost(image, q, lost);
    Ok(())
}

// The shape of an image of which a strip is asked for.
fn ask(image: &[u8], asked: Asked, room: usize, slip: Option<Slip>) -> Result<Shape, No> {
    let q = read(image, slip)?;
    if outside(q, asked.lost) || asked.column >= q.columns() {
        return Err(No::Column);
    }
    if asked.row >= q.rows() {
        return Err(No::Row);
    }
    if many(q, asked.lost) {
        return Err(No::Many);
    }
    if room < q.b {
        return Err(No::Room);
    }
    Ok(q)
}

// Puts a copy of an accepted image into lent room and rebuilds the lost columns there.
fn complete(image: &[u8], q: Shape, lost: u64, room: &mut [u8]) {
    copy(room, image);
    rebuild_lost(room, q, lost);
}

// Restore one strip, by a complete copy in lent room.
pub fn restore(
    image: &[u8],
    asked: Asked,
    scratch: &mut [u8],
    room: &mut [u8],
    slip: Option<Slip>,
) -> Result<(), No> {
    let q = ask(image, asked, scratch.len(), slip)?;
    if bit(asked.lost, asked.column) {
        complete(image, q, asked.lost, room);
        copy(
            scratch,
            part(room, q.strip_at(asked.column, asked.row), q.b),
        );
    }
    Ok(())
}

// Show.
pub fn show<'a>(image: &'a [u8], asked: Asked, scratch: &'a [u8]) -> Result<&'a [u8], No> {
    let q = ask(image, asked, scratch.len(), None)?;
    if bit(asked.lost, asked.column) {
        Ok(part(scratch, 0, q.b))
    } else {
        Ok(part(image, q.strip_at(asked.column, asked.row), q.b))
    }
}

// The refusal of a write to an accepted image while columns are lost.
fn writable(image: &[u8], q: Shape, lost: u64, note: Note) -> Result<(), Unwritten> {
    if outside(q, lost) {
        return Err(Unwritten::from(No::Column));
    }
    placed(q, note)?;
    let time = untimely(image, q, note);
    if many(q, lost) && (time.is_ok() || !q.makes(Slip::Late)) {
        return Err(Unwritten::from(No::Many));
    }
    time
}

// Brings the present columns of the complete image back.
fn bring_columns(image: &mut [u8], room: &[u8], q: Shape, lost: u64) {
    for n in (0..q.columns()).filter(|n| !bit(lost, *n) || q.makes(Slip::Moved)) {
        let (at, size) = (q.column_at(n), q.column_size());
        copy(part_mut(image, at, size), part(room, at, size));
    }
}

// Whether a write counts the strips of parity j.
fn counts(q: Shape, lost: u64, j: usize) -> bool {
    !bit(lost, q.parity(j)) || q.makes(Slip::Counted)
}

// How many strips of present parity data strip (i, t) is part of.
fn count_present(q: Shape, lost: u64, i: usize, t: usize) -> u64 {
    (0..q.r)
        .filter(|j| counts(q, lost, *j))
        .fold(0, |count: u64, j| {
            count.wrapping_add(u64::from(touched(q, i, t, j).count_ones()))
        })
}

// Write while columns are lost, to a complete copy in lent room; its revisions and present columns come back.
pub fn write(
    image: &mut [u8],
    lost: u64,
    note: Note,
    room: &mut [u8],
    slip: Option<Slip>,
) -> Result<Written, Unwritten> {
    let q = read(image, slip)?;
    writable(image, q, lost, note)?;
    complete(image, q, lost, room);
    let written = accept(room, q, note);
    copy(part_mut(image, 0, q.column_at(0)), room);
    bring_columns(image, room, q, lost);
    Ok(Written {
        count: count_present(q, lost, note.column, note.row),
        ..written
    })
}
