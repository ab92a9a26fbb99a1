// The calls for C: each hands on what the call behind it answers, as three numbers. Nothing is asked of the caller.
#![tactic(auto)]

ghost use Rattle.std.specs.Prelude.{◌≡◌, length, Ok, Err};
ghost use Rattle.stripe.specs.Params.{answer_values};
ghost use Rattle.ring.specs.Answer.{product_answer, divide_answer};
ghost use Rattle.stripe.specs.Reading.{read_of};
ghost use Rattle.parity.specs.Answer.{make_of, refill_of, check_of};
ghost use Rattle.write.specs.declared.Refused.TheVariants.{Aged};
ghost use Rattle.write.specs.Written.{write_of};
ghost use Rattle.away.specs.Away.{away_of};
ghost use Rattle.rebuild.specs.Answer.{rebuild_of, restore_of, shown_at};
ghost use Rattle.pattern.specs.Pattern.{asked};
ghost use Rattle.columns.specs.Export.{export_of, file_length_of};
ghost use Rattle.columns.specs.Import.{import_of, files_length_of};
ghost use Rattle.airsaffron.specs.Given.{refused_given, word_given, outcome_given, written_given, reading_given, shape_left, shown_given};

use refusal::Refusal;
use revision::Age;
use stripe::Params;
use write::{Accepted, Refused};

// The number of the refusal, or 0, and the values; every one that the call does not name is 0.
// Stays: three numbers, since that is what crosses the C interface.
#[repr(C)]
#[derive(Clone, Copy)]
pub struct Answer {
    pub refusal: u64,
    pub first: u64,
    pub second: u64,
}

// A refusal, and nothing beside it.
fn refused(e: Refusal) -> Answer
    ensures { result ≡ refused_given e }
{
    Answer {
        refusal: e.number(),
        first: 0,
        second: 0,
    }
}

// Acceptance, with its values.
fn accepted(first: u64, second: u64) -> Answer
    ensures { result ≡ record { refusal = 0; first = first; second = second } }
{
    Answer {
        refusal: 0,
        first,
        second,
    }
}

// The numbers of an answer that is a word.
impl From<Result<u64, Refusal>> for Answer {
    ghost from_gives = { λ r a. a ≡ word_given r };

    fn from(r: Result<u64, Refusal>) -> Answer {
        match r {
            Ok(w) => accepted(w, 0),
            Err(e) => refused(e),
        }
    }
}

// The numbers of an answer that is a length.
impl From<Result<usize, Refusal>> for Answer {
    ghost from_gives = { λ r a. a ≡ word_given r };

    fn from(r: Result<usize, Refusal>) -> Answer {
        match r {
            Ok(n) => accepted(n as u64, 0),
            Err(e) => refused(e),
        }
    }
}

// The numbers of an answer that has no value.
impl From<Result<(), Refusal>> for Answer {
    ghost from_gives = { λ r a. a ≡ outcome_given r };

    fn from(r: Result<(), Refusal>) -> Answer {
        match r {
            Ok(()) => accepted(0, 0),
            Err(e) => refused(e),
        }
    }
}

// A base that is not current: the refusal, and the distance beside it.
fn aged(age: Age) -> Answer
    ensures { result ≡ written_given (Err (Aged age)) }
{
    Answer {
        refusal: age.number(),
        first: age.distance() as u64,
        second: 0,
    }
}

// The numbers of a write's answer.
impl From<Result<Accepted, Refused>> for Answer {
    ghost from_gives = { λ r a. a ≡ written_given r };

    fn from(r: Result<Accepted, Refused>) -> Answer {
        match r {
            Ok(Accepted { revision, count }) => accepted(revision as u64, count),
            Err(Refused::Aged(age)) => aged(age),
            Err(Refused::Other(e)) => refused(e),
        }
    }
}

// The product of two elements.
#[unsafe(no_mangle)]
pub extern "C" fn airsaffron_product(p: u64, u: u64, v: u64) -> Answer
    ensures { result ≡ word_given (product_answer p u v) }
{
    Answer::from(ring::product(p as usize, u, v))
}

// The element c with (x^a + x^b) · c = s.
#[unsafe(no_mangle)]
pub extern "C" fn airsaffron_divide(p: u64, s: u64, a: u64, b: u64) -> Answer
    ensures { result ≡ word_given (divide_answer p s a b) }
{
    Answer::from(ring::divide(p as usize, s, a as usize, b as usize))
}

// Fills the slice with the image of data, revisions 0.
#[unsafe(no_mangle)]
pub extern "C" fn airsaffron_make(
    p: u64,
    k: u64,
    r: u64,
    b: u64,
    given: &[u8],
    image: &mut [u8],
) -> Answer
    ensures value { result ≡ outcome_given (make_of p k r b given.now image.old).answer }
    ensures image_after { image.new ≡ (make_of p k r b given.now image.old).image }
{
    Answer::from(parity::make(p as usize, k as usize, r as usize, b as usize, given, image))
}

// Sets all parity of an image from its data; other bytes stay.
#[unsafe(no_mangle)]
pub extern "C" fn airsaffron_refill(image: &mut [u8]) -> Answer
    ensures value { result ≡ outcome_given (refill_of image.old).answer }
    ensures image_after { image.new ≡ (refill_of image.old).image }
{
    Answer::from(parity::refill(image))
}

// Which parities of an image are wrong.
#[unsafe(no_mangle)]
pub extern "C" fn airsaffron_check(image: &[u8]) -> Answer
    ensures { result ≡ word_given (check_of image.now) }
{
    Answer::from(parity::check(image))
}

// Writes a strip where the base is the column's revision.
#[unsafe(no_mangle)]
pub extern "C" fn airsaffron_write(
    image: &mut [u8],
    column: u64,
    row: u64,
    base: u32,
    strip: &[u8],
) -> Answer
    ensures value { result ≡ written_given (write_of image.old column row base strip.now).answer }
    ensures image_after { image.new ≡ (write_of image.old column row base strip.now).image }
{
    Answer::from(write::write(image, column as usize, row as usize, base, strip))
}

// Writes a strip while the columns of a pattern are lost.
#[unsafe(no_mangle)]
pub extern "C" fn airsaffron_write_away(
    image: &mut [u8],
    lost: u64,
    column: u64,
    row: u64,
    base: u32,
    strip: &[u8],
) -> Answer
    ensures value { result ≡ written_given (away_of image.old lost column row base strip.now).answer }
    ensures image_after { image.new ≡ (away_of image.old lost column row base strip.now).image }
{
    Answer::from(away::write(image, lost, column as usize, row as usize, base, strip))
}

// p, k, r and B.
fn shape_of(q: Params) -> [u64; 4]
    ensures { result ≡ answer_values (Ok q) }
{
    [q.p as u64, q.k as u64, q.r as u64, q.b as u64]
}

// The parameters of an accepted image, into the lent shape.
#[unsafe(no_mangle)]
pub extern "C" fn airsaffron_read(image: &[u8], shape: &mut [u64; 4]) -> Answer
    ensures value { result ≡ reading_given (read_of image.now) }
    ensures shape_after { shape.new ≡ shape_left shape.old (read_of image.now) }
{
    let q = match stripe::read(image) {
        Ok(q) => q,
        Err(e) => return refused(e),
    };
    *shape = shape_of(q);
    accepted(0, 0)
}

// Rebuilds the lost columns of an image.
#[unsafe(no_mangle)]
pub extern "C" fn airsaffron_rebuild(image: &mut [u8], lost: u64) -> Answer
    ensures value { result ≡ outcome_given (rebuild_of image.old lost).answer }
    ensures image_after { image.new ≡ (rebuild_of image.old lost).image }
{
    Answer::from(rebuild::rebuild(image, lost))
}

// Puts strip (column, row), as a rebuild would have it, into the scratch where the column is lost.
#[unsafe(no_mangle)]
pub extern "C" fn airsaffron_restore(
    image: &[u8],
    lost: u64,
    column: u64,
    row: u64,
    scratch: &mut [u8],
) -> Answer
    ensures value { result ≡ outcome_given (restore_of image.now lost column row scratch.old).answer }
    ensures scratch_after { scratch.new ≡ (restore_of image.now lost column row scratch.old).image }
{
    Answer::from(rebuild::restore(image, lost, column as usize, row as usize, scratch))
}

// Where strip (column, row) stands: 1 for the image or 2 for the scratch, and its place there.
#[unsafe(no_mangle)]
pub extern "C" fn airsaffron_show(
    image: &[u8],
    lost: u64,
    column: u64,
    row: u64,
    scratch: &[u8],
) -> Answer
    ensures { result ≡ shown_given (asked image.now lost column row (length scratch.now)) (shown_at image.now lost column row (length scratch.now) (1, 0) (2, 0)) }
{
    let n = column as usize;
    let t = row as usize;
    let q = match pattern::ask(image, lost, n, t, scratch.len()) {
        Ok(q) => q,
        Err(e) => return refused(e),
    };
    if pattern::is_lost(lost, n) {
        return accepted(2, 0);
    }
    accepted(1, rebuild::strip_at(q, n, t) as u64)
}

// Writes the file of a column of an image.
#[unsafe(no_mangle)]
pub extern "C" fn airsaffron_export(image: &[u8], column: u64, file: &mut [u8]) -> Answer
    ensures value { result ≡ outcome_given (export_of image.now column file.old).answer }
    ensures file_after { file.new ≡ (export_of image.now column file.old).image }
{
    Answer::from(columns::export(image, column as usize, file))
}

// Fills an image from column files, one after another.
#[unsafe(no_mangle)]
pub extern "C" fn airsaffron_import(files: &[u8], image: &mut [u8]) -> Answer
    ensures value { result ≡ word_given (import_of files.now image.old).answer }
    ensures image_after { image.new ≡ (import_of files.now image.old).image }
{
    Answer::from(columns::import(files, image))
}

// How long the file of a column of an image is.
#[unsafe(no_mangle)]
pub extern "C" fn airsaffron_file_length(image: &[u8], column: u64) -> Answer
    ensures { result ≡ word_given (file_length_of image.now column) }
{
    Answer::from(columns::file_length(image, column as usize))
}

// How long the image is that column files make.
#[unsafe(no_mangle)]
pub extern "C" fn airsaffron_files_length(files: &[u8]) -> Answer
    ensures { result ≡ word_given (files_length_of files.now) }
{
    Answer::from(columns::files_length(files))
}
