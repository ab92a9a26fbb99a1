// Histories of writes, each in two arrangements: both implementations, and the library with itself.
#![tactic(auto)]

use comparing::{Answer, Pair, Tally};
use drawing::{fill, note_of, spoil_lost, start_of};
use second_ground::{Note, Shape, Slip, revision_at};
use total::put32;

// How many writes a history has.
const WRITES: usize = 12;
// How many of them are tried on an image of any bytes.
const FIRST: usize = 4;

// By which call a history writes: the one on whole images, or the one while the columns of a pattern are away.
#[derive(Clone, Copy, PartialEq, Eq, Debug)]
pub enum Way {
    Whole,
    Away(u64),
}

// A history of writes: the shape of its images, the number that it is drawn from, and the call that it writes by.
#[derive(Clone, Copy)]
pub struct History {
    pub q: Shape,
    pub c: usize,
    pub way: Way,
}

// The library's write.
pub fn library_write(image: &mut [u8], way: Way, note: Note) -> Answer {
    let Note {
        column,
        row,
        base,
        strip,
    } = note;
    Answer::from(match way {
        Way::Whole => write::write(image, column, row, base, strip),
        Way::Away(lost) => away::write(image, lost, column, row, base, strip),
    })
}

// The second implementation's write.
pub fn second_write(
    image: &mut [u8],
    way: Way,
    note: Note,
    room: &mut [u8],
    slip: Option<Slip>,
) -> Answer {
    Answer::from(match way {
        Way::Whole => second::write(image, note, slip),
        Way::Away(lost) => second_lost::write(image, lost, note, room, slip),
    })
}

impl History {
    // Sets the revisions to those of the start, and puts drawn bytes into the columns that are away.
    fn start(self, image: &mut [u8]) {
        for i in 0..self.q.k {
            put32(image, revision_at(i), start_of(self.c, i));
        }
        if let Way::Away(lost) = self.way {
            spoil_lost(image, self.q, lost, self.c);
        }
    }

    // The drawn bytes of write w, of which it has the first.
    fn bytes_of(self, w: usize) -> [u8; 520] {
        let mut bytes = [0; 520];
        let c = self.c.wrapping_add(w.wrapping_mul(1009));
        fill(&mut bytes, 0, 520, c);
        bytes
    }

    // Write w, on both images; gives the library's answer.
    fn write_both(self, t: &mut Tally, pair: &mut Pair, w: usize) -> Answer {
        let bytes = self.bytes_of(w);
        let note = note_of(self.q, self.c, w, &bytes);
        let answer = library_write(pair.one, self.way, note);
        let due = second_write(pair.two, self.way, note, pair.room, self.q.slip);
        t.compare(answer, due);
        t.add(pair.apart());
        answer
    }

    // All writes in the order of their numbers, on both images; gives the library's answers.
    fn write_all(self, t: &mut Tally, pair: &mut Pair) -> [Answer; WRITES] {
        let mut answers = [Answer::new(Ok(())); WRITES];
        for (w, answer) in answers.iter_mut().enumerate() {
            *answer = self.write_both(t, pair, w);
        }
        answers
    }

    // The first few writes, on images of any bytes that are started for them.
    pub fn try_first(self, t: &mut Tally, pair: &mut Pair) {
        self.start(pair.one);
        self.start(pair.two);
        for w in 0..FIRST {
            self.write_both(t, pair, w);
        }
    }

    // The writes to one column once more: each is to get the answer that it had.
    fn write_column(self, t: &mut Tally, image: &mut [u8], answers: &[Answer], column: usize) {
        for (w, due) in answers.iter().enumerate() {
            // bytes are drawn for these writes alone
            if note_of(self.q, self.c, w, &[]).column == column {
                let bytes = self.bytes_of(w);
                let note = note_of(self.q, self.c, w, &bytes);
                t.compare(library_write(image, self.way, note), *due);
            }
        }
    }

    // All writes once more, column by column, on an image that is started for it.
    fn write_again(self, t: &mut Tally, image: &mut [u8], answers: &[Answer]) {
        self.start(image);
        for column in 0..=self.q.k {
            self.write_column(t, image, answers, column);
        }
    }

    // All writes in two arrangements, on images that are made and started for it: answers and last images are equal.
    fn try_arrangements(self, t: &mut Tally, pair: &mut Pair) {
        t.make_drawn(self.q, self.c, pair);
        self.start(pair.one);
        self.start(pair.two);
        let answers = self.write_all(t, pair);
        t.make_again(self.q, self.c, pair.two, pair.room);
        self.write_again(t, pair.two, &answers);
        t.add(pair.apart());
    }
}

// A history of writes, and a check at its end.
pub fn try_history(t: &mut Tally, q: Shape, c: usize, pair: &mut Pair) {
    let way = Way::Whole;
    History { q, c, way }.try_arrangements(t, pair);
    t.check(pair, q.slip);
}

// A history of writes while columns are away, then a rebuild and a check.
pub fn try_away(t: &mut Tally, q: Shape, c: usize, lost: u64, pair: &mut Pair) {
    let way = Way::Away(lost);
    History { q, c, way }.try_arrangements(t, pair);
    t.rebuild(pair, lost, q.slip);
    t.check(pair, q.slip);
}
