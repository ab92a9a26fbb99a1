// A write to one data strip while columns are lost.
#![tactic(auto)]

ghost use Rattle.std.specs.Prelude.{◌≡◌, true, ◌&&◌, ◌<◌, ltb};
ghost use Rattle.laws.specs.Left.{Leaves};
ghost use Rattle.stripe.specs.Layout.{revision_of};
ghost use Rattle.stripe.specs.Params.{Admitted};
ghost use Rattle.pattern.specs.Pattern.{is_lost, pattern_fits};
ghost use Rattle.revision.specs.Revision.{judged};
ghost use Rattle.away.specs.Away.{away_judged, away_of};
ghost use Rattle.away.specs.Steps.{Away, AwayPlaced};

use present::Spot;
use refusal::Refusal;
use stripe::Params;
use write::{Accepted, Refused};

// Adds the difference of a new strip of a lost column to present parity; gives the count of strips added to. The strip as a rebuild would have it
// stands in the image meanwhile; then come back the bytes that the column held.
fn place_lost(image: &mut [u8], spot: Spot, strip: &[u8]) -> u64
    requires { Away image.old spot strip.now × (is_lost spot.lost spot.column ≡ true) }
    ensures { AwayPlaced image.old image.new spot strip.now result }
{
    let b = spot.q.b;
    let at = spot.at();
    let mut buffer = Params::blank_strip();
    let held = &mut buffer[0..b];
    rebuild::restore_strip(image, spot.q, spot.lost, spot.column, spot.row, held);
    image[at..at + b].swap_with_slice(held);
    let count = write::place(image, spot, strip);
    engine::copy_in(image, at, held);
    count
}

// Puts a strip in place, where its column is present, and adds its difference to present parity; gives the count of strips added to.
fn place(image: &mut [u8], spot: Spot, strip: &[u8]) -> u64
    requires { Away image.old spot strip.now }
    ensures { AwayPlaced image.old image.new spot strip.now result }
{
    if pattern::is_lost(spot.lost, spot.column) {
        return place_lost(image, spot, strip);
    }
    write::place(image, spot, strip)
}

// A write where all but the base is sound: present parity, the strip where its column is present, the revision.
fn write_sound(image: &mut [u8], spot: Spot, base: u32, strip: &[u8]) -> Result<Accepted, Refused>
    requires { Away image.old spot strip.now }
    ensures { Leaves (away_judged image.old spot.q spot.lost spot.column spot.row base strip.now (judged (revision_of image.old spot.column) base)) result image.new }
{
    let age = write::age_of(image, spot, base);
    if !age.is_current() {
        return Err(Refused::Aged(age));
    }
    let count = place(image, spot, strip);
    write::settle(image, spot, base, count)
}

// Whether the pattern names columns of the stripe alone, and the column is one of its data.
#[tactic(auto, using(pattern::proofs::Asking::within_tested))]
fn is_within(q: Params, lost: u64, column: usize) -> bool
    requires { Admitted q }
    ensures { result ≡ (pattern_fits q lost && ltb column q.k) }
{
    pattern::fits(q, lost) && column < q.k
}

// Writes a strip while the columns of a pattern are lost: present columns end as on the complete image, lost ones stay.
pub fn write(
    image: &mut [u8],
    lost: u64,
    column: usize,
    row: usize,
    base: u32,
    strip: &[u8],
) -> Result<Accepted, Refused>
    ensures { Leaves (away_of image.old lost column row base strip.now) result image.new }
{
    let q = stripe::read(image)?;
    if !is_within(q, lost, column) {
        return Err(Refused::Other(Refusal::Column));
    }
    if row >= q.p - 1 {
        return Err(Refused::Other(Refusal::Row));
    }
    if strip.len() != q.b {
        return Err(Refused::Other(Refusal::Width));
    }
    if !pattern::is_few(q, lost) {
        return Err(Refused::Other(Refusal::Many));
    }
    let spot = Spot {
        q,
        lost,
        column,
        row,
    };
    write_sound(image, spot, base, strip)
}
