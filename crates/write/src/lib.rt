// A write to one data strip, against a revision of its column.
#![tactic(auto)]

ghost use Rattle.std.specs.Prelude.{◌≡◌, ◌<◌, length};
ghost use Rattle.laws.specs.Part.{tab};
ghost use Rattle.stripe.specs.Layout.{image_length, revision_of};
ghost use Rattle.stripe.specs.Params.{Admitted};
ghost use Rattle.stripe.specs.Reading.{Image};
ghost use Rattle.revision.specs.Revision.{judged};
ghost use Rattle.write.specs.declared.Refused.TheVariants.{Other};
ghost use Rattle.write.specs.Written.{write_of};
ghost use Rattle.present.specs.Steps.{Target};
ghost use Rattle.laws.specs.Left.{Leaves};
ghost use Rattle.write.specs.Steps.{Strips, differed, Moved, Placed, settled};

use present::Spot;
use refusal::Refusal;
use revision::Age;
use stripe::Params;

// What an accepted write comes to: the column's new revision, and the count of parity strips added to.
#[derive(Clone, Copy, PartialEq, Eq, Debug)]
pub struct Accepted {
    pub revision: u32,
    pub count: u64,
}

// Why a write is refused: the age of a base that is not current, or another refusal.
#[derive(Clone, Copy, PartialEq, Eq, Debug)]
pub enum Refused {
    Aged(Age),
    Other(Refusal),
}

impl From<Refusal> for Refused {
    ghost from_gives = { λ e r. r ≡ Other e };

    fn from(e: Refusal) -> Refused {
        Refused::Other(e)
    }
}

// Fills out with the difference between the strip at a place of the image and the new strip.
fn differ(image: &[u8], at: usize, strip: &[u8], out: &mut [u8])
    requires { Strips image.now at strip.now out.old }
    ensures { out.new ≡ tab (length strip.now) (differed image.now at strip.now) }
{
    for (x, d) in out.iter_mut().enumerate() {
        *d = image[at + x] ^ strip[x];
    }
}

// Adds the difference that a new strip makes to present parity; gives the count of strips added to.
fn update_parity(image: &mut [u8], spot: Spot, strip: &[u8]) -> u64
    requires { Target image.old spot strip.now }
    ensures { Moved image.old image.new spot strip.now result }
{
    let mut buffer = Params::blank_strip();
    let diff = &mut buffer[0..spot.q.b];
    differ(image, spot.at(), strip, diff);
    present::move_parity(image, spot, diff)
}

// Puts a strip in place and adds its difference to present parity; gives the count of strips added to.
pub fn place(image: &mut [u8], spot: Spot, strip: &[u8]) -> u64
    requires { Target image.old spot strip.now }
    ensures { Placed image.old image.new spot strip.now result }
{
    let count = update_parity(image, spot, strip);
    engine::copy_in(image, spot.at(), strip);
    count
}

// Sets the revision of a column that was written against a base; gives the answer.
#[tactic(auto, unfolding(crate::specs::Steps::settled))]
pub fn settle(image: &mut [u8], spot: Spot, base: u32, count: u64) -> Result<Accepted, Refused>
    requires { Admitted spot.q × (spot.column < spot.q.k) × (length image.old ≡ image_length spot.q) }
    ensures { Leaves (settled image.old spot.column base count) result image.new }
{
    let revision = revision::renew(base);
    stripe::put_u32(image, spot.q.revision_at(spot.column), revision);
    Ok(Accepted { revision, count })
}

// The age of a base against the revision of a column.
pub fn age_of(image: &[u8], spot: Spot, base: u32) -> Age
    requires { Image image.now spot.q × (spot.column < spot.q.k) }
    ensures { result ≡ judged (revision_of image.now spot.column) base }
{
    revision::judge(stripe::u32_at(image, spot.q.revision_at(spot.column)), base)
}

// Writes a strip where the base is the column's revision: puts it in place, adds its difference to parity, sets the next revision.
pub fn write(
    image: &mut [u8],
    column: usize,
    row: usize,
    base: u32,
    strip: &[u8],
) -> Result<Accepted, Refused>
    ensures { Leaves (write_of image.old column row base strip.now) result image.new }
{
    let q = stripe::read(image)?;
    if column >= q.k {
        return Err(Refused::Other(Refusal::Column));
    }
    if row >= q.p - 1 {
        return Err(Refused::Other(Refusal::Row));
    }
    if strip.len() != q.b {
        return Err(Refused::Other(Refusal::Width));
    }
    let spot = Spot {
        q,
        lost: 0,
        column,
        row,
    };
    let age = age_of(image, spot, base);
    if !age.is_current() {
        return Err(Refused::Aged(age));
    }
    let count = place(image, spot, strip);
    settle(image, spot, base, count)
}
