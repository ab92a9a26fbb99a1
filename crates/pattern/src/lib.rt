// The pattern of lost columns: what it names, what is refused for it, and the columns that lost ones are found from.
#![tactic(auto)]

ghost use Rattle.std.specs.Prelude.{◌≡◌, ◌+◌, ◌<◌, ◌≤◌, ◌&&◌, ltb, length, replicate, take, Ok};
ghost use Rattle.laws.specs.Bit.{weight};
ghost use Rattle.stripe.specs.Params.{Admitted};
ghost use Rattle.pattern.specs.Pattern.{is_lost, lost_exponents, present_exponents, consulted, pattern_fits, few_lost, asked_read, asked};
ghost use Rattle.pattern.specs.Inner.{named};

use refusal::Refusal;
use stripe::Params;

// Whether the pattern names column n.
#[tactic(auto, using(crate::proofs::Asking::lost_tested))]
pub fn is_lost(lost: u64, n: usize) -> bool
    requires { n < 64 }
    ensures { result ≡ is_lost lost n }
{
    (lost >> n) % 2 == 1
}

// How many of the columns below n the pattern names.
#[tactic(auto, using(crate::proofs::Asking::counted))]
pub fn lost_below(lost: u64, n: usize) -> usize
    requires { n ≤ 64 }
    ensures { (result ≡ weight lost n) × (result ≤ n) }
{
    (lost & !u64::MAX.unbounded_shl(n as u32)).count_ones() as usize
}

// Whether the pattern names columns of the stripe alone.
#[tactic(auto, using(crate::proofs::Asking::fits_tested))]
pub fn fits(q: Params, lost: u64) -> bool
    requires { Admitted q }
    ensures { result ≡ pattern_fits q lost }
{
    lost >> (q.k + q.r) == 0
}

// Whether the column too is one of the stripe.
#[tactic(auto, using(crate::proofs::Asking::within_tested))]
fn is_within(q: Params, lost: u64, column: usize) -> bool
    requires { Admitted q }
    ensures { result ≡ (pattern_fits q lost && ltb column (q.k + q.r)) }
{
    fits(q, lost) && column < q.k + q.r
}

// Whether no more columns are lost than there are parity columns.
#[tactic(auto, using(crate::proofs::Single::few_tested))]
pub fn is_few(q: Params, lost: u64) -> bool
    requires { Admitted q }
    ensures { result ≡ few_lost q lost }
{
    lost_below(lost, q.k + q.r) <= q.r
}

// The parameters where strip (column, row) may be asked for with a scratch of `room` bytes, or the refusal that is due.
fn ask_within(
    q: Params,
    lost: u64,
    column: usize,
    row: usize,
    room: usize,
) -> Result<Params, Refusal>
    requires { Admitted q }
    ensures { result ≡ asked_read lost column row room (Ok q) }
{
    if !is_within(q, lost, column) {
        return Err(Refusal::Column);
    }
    if row >= q.p - 1 {
        return Err(Refusal::Row);
    }
    if !is_few(q, lost) {
        return Err(Refusal::Many);
    }
    if room < q.b {
        return Err(Refusal::Room);
    }
    Ok(q)
}

// The same of an image that is read first.
pub fn ask(
    image: &[u8],
    lost: u64,
    column: usize,
    row: usize,
    room: usize,
) -> Result<Params, Refusal>
    ensures { result ≡ asked image.now lost column row room }
{
    ask_within(stripe::read(image)?, lost, column, row, room)
}

// Room for an exponent, or a place, for each of a stripe's data columns, all 0.
pub fn no_exponents() -> [usize; Params::MOST_COLUMNS]
    ensures { (result ≡ replicate 60 0) × (length result ≡ 60) }
{
    [0usize; Params::MOST_COLUMNS]
}

// The numbers base + i, in rising order, of the bits i that are set: the first of them, as many as there are places.
#[tactic(auto, using(crate::proofs::Collecting::collecting))]
fn collect(bits: u64, base: usize, out: &mut [usize])
    requires { (base ≤ 60) × (length out.old ≤ length (named bits 1 base 64)) }
    ensures { out.new ≡ take (length out.old) (named bits 1 base 64) }
{
    let mut rest = bits;
    for place in out.iter_mut() {
        *place = base + rest.trailing_zeros() as usize;
        rest &= rest - 1;
    }
}

// The exponents of the lost data columns.
#[tactic(auto, using(crate::proofs::Collecting::losing))]
pub fn lost_data(q: Params, lost: u64, out: &mut [usize])
    requires { Admitted q × (length out.old ≡ length (lost_exponents q lost)) }
    ensures { out.new ≡ lost_exponents q lost }
{
    collect(lost, q.r, out);
}

// The exponents of the present data columns.
#[tactic(auto, using(crate::proofs::Collecting::keeping))]
pub fn present_data(q: Params, lost: u64, out: &mut [usize])
    requires { Admitted q × (length out.old ≡ length (present_exponents q lost)) }
    ensures { out.new ≡ present_exponents q lost }
{
    collect(!lost, q.r, out);
}

// The consulted parity columns: the lowest-numbered present ones, as many as data columns are lost.
#[tactic(auto, using(crate::proofs::Collecting::consulting))]
pub fn consulted(q: Params, lost: u64, out: &mut [usize])
    requires { Admitted q × (length out.old ≡ length (consulted q lost)) }
    ensures { out.new ≡ consulted q lost }
{
    collect(!(lost >> q.k), 0, out);
}
