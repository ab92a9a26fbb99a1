// Parity from data: make, refill and check.
#![tactic(auto)]

ghost use Rattle.std.specs.Prelude.{◌≡◌, ◌≤◌};
ghost use Rattle.laws.specs.Left.{Leaves};
ghost use Rattle.stripe.specs.Params.{Admitted};
ghost use Rattle.stripe.specs.Reading.{Image};
ghost use Rattle.block.specs.Parity.{refilled};
ghost use Rattle.parity.specs.Make.{made};
ghost use Rattle.parity.specs.Answer.{make_sound, make_of, refill_of, wrong_parities, check_of};
ghost use Rattle.parity.specs.Inner.{wrong_bit, ColumnAsked, Lanes, Starts, ColumnFilled, Room, unset};

use refusal::Refusal;
use stripe::Params;

// How many lanes a block has: as many as a walk takes, or less where the strips are not so wide.
const WIDE: usize = walk::LANES;

const MIDDLE: usize = 32;

const NARROW: usize = 16;

// The most lanes of a strip that is narrower still: all are one block.
const THIN: usize = NARROW - 1;

// Where the block starts that has lane l: at l, or lower where a block from l would end past the strip.
fn block_from(l: usize, w: usize, b: usize) -> usize
    requires { w ≤ b }
    ensures { Starts l w b result }
{
    l.min(b - w)
}

// Puts parity j in its place, w lanes at a time; inlined, since a width that stands in the code lets the lanes stay in registers.
#[inline(always)]
fn refill_column(image: &mut [u8], q: Params, j: usize, w: usize, acc: &mut [u8])
    requires { ColumnAsked image.old acc.old q j w }
    ensures { ColumnFilled image.old image.new q j q.b }
{
    for l in (0..q.b).step_by(w) {
        block::refill_block(image, q, j, block_from(l, w, q.b), w, acc);
    }
}

// Puts every parity in its place, w lanes at a time, worked out in rows of ROOM bytes; not inlined, so that its frame has the rows of one width alone.
#[inline(never)]
fn refill_by<const ROOM: usize>(image: &mut [u8], q: Params, w: usize)
    requires image { Image image.old q }
    requires lanes { Lanes q w ROOM }
    ensures { image.new ≡ refilled image.old q }
{
    let mut rows = [[0u8; ROOM]; Params::LARGEST_PRIME];
    let acc = rows.as_flattened_mut();
    for j in 0..q.r {
        refill_column(image, q, j, w, acc);
    }
}

// Sets all parity from the data, by the widest block that a strip has lanes for.
fn refill_all(image: &mut [u8], q: Params)
    requires { Image image.old q }
    ensures { image.new ≡ refilled image.old q }
{
    if q.b >= WIDE {
        refill_by::<WIDE>(image, q, WIDE)
    } else if q.b >= MIDDLE {
        refill_by::<MIDDLE>(image, q, MIDDLE)
    } else if q.b >= NARROW {
        refill_by::<NARROW>(image, q, NARROW)
    } else {
        refill_by::<THIN>(image, q, q.b)
    }
}

// 0 where parity j is right, else 1; w lanes at a time, and inlined like `refill_column`.
#[inline(always)]
fn check_column(image: &[u8], q: Params, j: usize, w: usize, acc: &mut [u8]) -> u64
    requires { ColumnAsked image.now acc.old q j w }
    ensures { result ≡ wrong_bit image.now q j }
{
    let mut bad: u8 = 0;
    for l in (0..q.b).step_by(w) {
        bad = block::check_block(bad, image, q, j, block_from(l, w, q.b), w, acc);
    }
    u64::from(bad != 0)
}

// The word whose bit j is set where parity j is wrong, w lanes at a time, worked out in rows of ROOM bytes.
fn check_by<const ROOM: usize>(image: &[u8], q: Params, w: usize) -> u64
    requires image { Image image.now q }
    requires lanes { Lanes q w ROOM }
    ensures { result ≡ wrong_parities image.now q }
{
    let mut rows = [[0u8; ROOM]; Params::LARGEST_PRIME];
    let acc = rows.as_flattened_mut();
    let mut word = 0;
    for j in 0..q.r {
        word += check_column(image, q, j, w, acc) << j;
    }
    word
}

// The word whose bit j is set where parity j is wrong, by the widest block that a strip has lanes for.
fn wrong(image: &[u8], q: Params) -> u64
    requires { Image image.now q }
    ensures { result ≡ wrong_parities image.now q }
{
    if q.b >= WIDE {
        check_by::<WIDE>(image, q, WIDE)
    } else if q.b >= MIDDLE {
        check_by::<MIDDLE>(image, q, MIDDLE)
    } else if q.b >= NARROW {
        check_by::<NARROW>(image, q, NARROW)
    } else {
        check_by::<THIN>(image, q, q.b)
    }
}

// Sets all parity of an image from its data; other bytes stay.
pub fn refill(image: &mut [u8]) -> Result<(), Refusal>
    ensures { Leaves (refill_of image.old) result image.new }
{
    let q = stripe::read(image)?;
    refill_all(image, q);
    Ok(())
}

// The word whose bit j is set where parity j of an image is wrong.
pub fn check(image: &[u8]) -> Result<u64, Refusal>
    ensures { result ≡ check_of image.now }
{
    let q = stripe::read(image)?;
    Ok(wrong(image, q))
}

// Writes an image of data of the right length, revisions 0; its parity is not yet set.
fn put_data(image: &mut [u8], q: Params, given: &[u8])
    requires { Room given.now image.old q }
    ensures { image.new ≡ unset given.now image.old q }
{
    engine::clear(image, q.revision_at(0), 4 * q.k);
    engine::copy_in(image, q.data_at(0), given);
    stripe::put_counts(image, q);
}

// Fills the slice with the image of data of the right length.
fn fill(image: &mut [u8], q: Params, given: &[u8])
    requires { Room given.now image.old q }
    ensures { image.new ≡ made q given.now }
{
    put_data(image, q, given);
    refill_all(image, q);
}

// The image of data, for parameters that are sound.
fn make_sound(q: Params, given: &[u8], image: &mut [u8]) -> Result<(), Refusal>
    requires { Admitted q }
    ensures { Leaves (make_sound given.now image.old q) result image.new }
{
    let width = q.k * q.column_length();
    if given.len() != width {
        return Err(Refusal::Width);
    }
    if image.len() != q.image_length() {
        return Err(Refusal::Room);
    }
    fill(image, q, given);
    Ok(())
}

// Fills the slice with the image of data, revisions 0.
pub fn make(
    p: usize,
    k: usize,
    r: usize,
    b: usize,
    given: &[u8],
    image: &mut [u8],
) -> Result<(), Refusal>
    ensures { Leaves (make_of p k r b given.now image.old) result image.new }
{
    make_sound(Params::checked(p, k, r, b)?, given, image)
}
