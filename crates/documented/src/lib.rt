// The examples of document 01 that are run and not proved, its limits and its slips: both implementations give what the document says, and the second with a
// slip what it says that the slip would give.
#![tactic(auto)]

use comparing::{Answer, Numbers, Tally, apart};
use histories::{Way, library_write, second_write};
use refusal::Refusal;
use second_ground::{HALF_CIRCLE, No, Note, Shape, Slip, Unwritten, Written, read};
use stripe::Params;
use total::part;

// The image I.
pub const EXAMPLE: [u8; 40] =
    *b"\x04\x00\x05\x00\x02\x00\x02\x00\x01\x00\x02\x00\x00\x00\x00\x00\x07\x00\x00\x00\x02\x00\x01\x00\x00\x00\x00\x02\x00\x00\x02\x00\x03\x00\x03\x02\x03\x03\x03\x00";

// I with other bytes in both data columns.
pub const SPOILED: [u8; 40] =
    *b"\x04\x00\x05\x00\x02\x00\x02\x00\x01\x00\x02\x00\x00\x00\x00\x00\x07\x00\x00\x00\x02\x00\xff\x01\x4d\x09\x03\xff\x00\x12\x02\x00\x03\x00\x03\x02\x03\x03\x03\x00";

// I with other bytes in data column 1 and parity column 0.
const AWAY: [u8; 40] =
    *b"\x04\x00\x05\x00\x02\x00\x02\x00\x01\x00\x02\x00\x00\x00\x00\x00\x07\x00\x00\x00\x02\x00\x01\x00\x00\x00\x4d\x09\x03\xff\x02\x00\x12\x55\x08\xa0\x03\x03\x03\x00";

// The data of P4.
const FOURTH: [u8; 8] = [1, 0, 0, 0, 0, 0, 0, 0];

// One more case: two answers that are both to be the due one.
fn answer_due(t: &mut Tally, a: Answer, b: Answer, due: Answer) {
    t.start_case();
    t.compare(a, due);
    t.add(b.apart(due));
}

// The same of an answer of the library and of one of the second implementation.
fn results_due<A: Numbers, B: Numbers>(
    t: &mut Tally,
    a: Result<A, Refusal>,
    b: Result<B, No>,
    due: Answer,
) {
    let a = Answer::new(a.map_err(Refusal::number));
    answer_due(t, a, Answer::new(b.map_err(No::number)), due);
}

// Two images that are both to be the due one.
fn image_due(t: &mut Tally, one: &[u8], two: &[u8], due: &[u8]) {
    t.add(apart(one, due));
    t.add(apart(two, due));
}

// The parameters of I.
fn shape() -> Shape {
    Shape {
        p: 5,
        k: 2,
        r: 2,
        b: 1,
        slip: None,
    }
}

// The answer of a shape, or of a refusal in its place.
fn shape_or(q: Shape, no: Option<No>) -> Answer {
    Answer::new(no.map_or(Ok(q), |no| Err(no.number())))
}

// Parameters, and the refusal that is due or none.
fn limit(t: &mut Tally, p: usize, k: usize, r: usize, b: usize, no: Option<No>) {
    let slip = None;
    let q = Shape { p, k, r, b, slip };
    let a = Params::checked(p, k, r, b);
    results_due(t, a, q.tested(), shape_or(q, no));
}

// I, or I with fewer or more bytes, and the refusal that is due or none.
fn reading(t: &mut Tally, image: &[u8], no: Option<No>) {
    let a = stripe::read(image);
    results_due(t, a, read(image, None), shape_or(shape(), no));
}

// The limits: of the parameters, I less one byte, I, I with one more.
pub fn limits(t: &mut Tally) {
    limit(t, 61, 60, 1, 1, None);
    limit(t, 61, 60, 2, 1, Some(No::Shape));
    limit(t, 2, 1, 1, 1, Some(No::Prime));
    limit(t, 9, 1, 1, 1, Some(No::Prime));
    limit(t, 67, 1, 1, 1, Some(No::Prime));
    limit(t, 3, 1, 1, 512, None);
    limit(t, 3, 1, 1, 513, Some(No::Strip));
    let mut longer = [0; 41];
    total::copy(&mut longer, &EXAMPLE);
    reading(t, part(&longer, 0, 39), Some(No::Cut));
    reading(t, part(&longer, 0, 40), None);
    reading(t, &longer, Some(No::Tail));
}

// Make with as large an image, and the due image.
fn made<const N: usize>(t: &mut Tally, q: Shape, given: &[u8], due: &[u8; N]) {
    let mut one = [0; N];
    let mut two = [0; N];
    let a = parity::make(q.p, q.k, q.r, q.b, given, &mut one);
    let b = second::make(q, given, &mut two);
    results_due(t, a, b, Answer::new(Ok(())));
    image_due(t, &one, &two, due);
}

// The zeroed-coefficient form is not stored: P4.
fn zeroed(t: &mut Tally, slip: Option<Slip>) {
    made(
        t,
        Shape { slip, ..shape() },
        &FOURTH,
        b"\x04\x00\x05\x00\x02\x00\x02\x00\x01\x00\x02\x00\x00\x00\x00\x00\x00\x00\x00\x00\x02\x00\x01\x00\x00\x00\x00\x00\x00\x00\x02\x00\x01\x00\x01\x00\x01\x01\x01\x00",
    );
}

// The exponents are r+i and j: P3.
fn exponents(t: &mut Tally, slip: Option<Slip>) {
    let (p, k, r, b) = (3, 1, 2, 1);
    made(
        t,
        Shape { p, k, r, b, slip },
        b"\xa5\x0f",
        b"\x04\x00\x03\x00\x01\x00\x02\x00\x01\x00\x01\x00\x00\x00\x00\x00\x01\x00\xa5\x0f\x02\x00\x0f\xaa\xa5\x0f",
    );
}

// A write of 00 to column n, row n.
fn note_at(n: usize, base: u32) -> Note<'static> {
    Note {
        column: n,
        row: n,
        base,
        strip: b"\x00",
    }
}

// A write to an image by both implementations: the due answer, and the due image.
fn write_due(
    t: &mut Tally,
    way: Way,
    note: Note,
    image: [u8; 40],
    answer: Result<Written, Unwritten>,
    due: &[u8; 40],
    slip: Option<Slip>,
) {
    let (mut one, mut two, mut room) = (image, image, [0; 40]);
    let a = library_write(&mut one, way, note);
    let b = second_write(&mut two, way, note, &mut room, slip);
    answer_due(t, a, b, Answer::from(answer));
    image_due(t, &one, &two, due);
}

// A write that is refused: the due refusal and distance, and the image as it was.
fn refused(
    t: &mut Tally,
    way: Way,
    note: Note,
    image: [u8; 40],
    no: No,
    distance: u32,
    slip: Option<Slip>,
) {
    let answer = Err(Unwritten { no, distance });
    write_due(t, way, note, image, answer, &image, slip);
}

// A base before the revision on the circle is STALE, behind by 1 or by three notes, one after it AHEAD, by 1, and one half the circle away UNCLEAR.
fn refused_writes(t: &mut Tally, slip: Option<Slip>) {
    let way = Way::Whole;
    refused(t, way, note_at(0, 4294967295), EXAMPLE, No::Stale, 1, slip);
    refused(t, way, note_at(0, 4294967293), EXAMPLE, No::Stale, 3, slip);
    refused(t, way, note_at(0, 1), EXAMPLE, No::Ahead, 1, slip);
    refused(
        t,
        way,
        note_at(0, HALF_CIRCLE),
        EXAMPLE,
        No::Unclear,
        0,
        slip,
    );
}

// A changed strip also changes coefficient p-1, so rows 0 and 2 of parity 0 move.
fn accepted_write(t: &mut Tally, slip: Option<Slip>) {
    write_due(
        t,
        Way::Whole,
        note_at(0, 0),
        EXAMPLE,
        Ok(Written {
            revision: 1,
            count: 5,
        }),
        b"\x04\x00\x05\x00\x02\x00\x02\x00\x01\x00\x02\x00\x01\x00\x00\x00\x07\x00\x00\x00\x02\x00\x00\x00\x00\x00\x00\x02\x00\x00\x02\x00\x02\x00\x02\x02\x02\x02\x02\x00",
        slip,
    );
}

// A lost column's bytes are not read.
fn lost(t: &mut Tally, slip: Option<Slip>) {
    let (mut one, mut two) = (SPOILED, SPOILED);
    let a = rebuild::rebuild(&mut one, 3);
    let b = second_lost::rebuild(&mut two, 3, slip);
    results_due(t, a, b, Answer::new(Ok(())));
    image_due(t, &one, &two, &EXAMPLE);
}

// With two columns away the revision and rows 0 to 2 of parity 1 move: lost columns stay.
fn away_accepted(t: &mut Tally, slip: Option<Slip>) {
    write_due(
        t,
        Way::Away(6),
        note_at(1, 7),
        AWAY,
        Ok(Written {
            revision: 8,
            count: 3,
        }),
        b"\x04\x00\x05\x00\x02\x00\x02\x00\x01\x00\x02\x00\x00\x00\x00\x00\x08\x00\x00\x00\x02\x00\x01\x00\x00\x00\x4d\x09\x03\xff\x02\x00\x12\x55\x08\xa0\x01\x01\x01\x00",
        slip,
    );
}

// Three columns away are MANY, whatever the base; with two away a base one behind is STALE by 1, and one half the circle away UNCLEAR.
fn away_writes(t: &mut Tally, slip: Option<Slip>) {
    let way = Way::Away(6);
    refused(t, Way::Away(7), note_at(1, 6), AWAY, No::Many, 0, slip);
    refused(t, way, note_at(1, 6), AWAY, No::Stale, 1, slip);
    refused(
        t,
        way,
        note_at(1, 7 + HALF_CIRCLE),
        AWAY,
        No::Unclear,
        0,
        slip,
    );
    away_accepted(t, slip);
}

// The slips: the calls that each would spoil.
pub fn slips(t: &mut Tally, slip: Option<Slip>) {
    zeroed(t, slip);
    exponents(t, slip);
    refused_writes(t, slip);
    accepted_write(t, slip);
    lost(t, slip);
    away_writes(t, slip);
}

// Whether the strips of parity j of an image with the parameters of I are these.
fn is_parity(image: &[u8; 40], j: usize, strips: &[u8]) -> bool {
    let q = shape();
    part(image, q.column_at(q.parity(j)), 4) == strips
}

// "Storing the zeroed-coefficient form: in P4 parity 1 would be 00 00 00 01."
fn zeroed_said() -> bool {
    let mut image = [0; 40];
    let slip = Some(Slip::Zeroed);
    let made = second::make(Shape { slip, ..shape() }, &FOURTH, &mut image);
    made.is_ok() && is_parity(&image, 1, b"\x00\x00\x00\x01")
}

// "a write at column 0, row 0 of I would touch rows 1 and 2 of parity 0": these are 00 and 03 there, and 00 is written over 01.
fn forgotten_said() -> bool {
    let mut image = EXAMPLE;
    let written = second::write(&mut image, note_at(0, 0), Some(Slip::Forgotten));
    written.is_ok() && is_parity(&image, 0, b"\x03\x01\x02\x02")
}

// "Comparing revisions by plain size, which fails P13": a base one before revision 0 is not STALE.
fn plain_said() -> bool {
    let mut image = EXAMPLE;
    let written = second::write(&mut image, note_at(0, 4294967295), Some(Slip::Plain));
    !written.is_err_and(|no| no.no == No::Stale)
}

// Whether the second implementation with a slip does what the document says that it would do, where it says so.
pub fn said(slip: Slip) -> Option<bool> {
    match slip {
        Slip::Zeroed => Some(zeroed_said()),
        Slip::Forgotten => Some(forgotten_said()),
        Slip::Plain => Some(plain_said()),
        _ => None,
    }
}
