// Parity of a block of lanes: put in its place, or compared with what stands there. A lane is byte x of each strip.
#![tactic(auto)]

ghost use Rattle.std.specs.Prelude.{◌+◌, ◌-◌};
ghost use Rattle.stripe.specs.Layout.{data_at};
ghost use Rattle.quotient.specs.Lanes.{Shows};
ghost use Rattle.walk.specs.Lanes.{Sums};
ghost use Rattle.block.specs.Inner.{BlockAsked, BlockFilled, LanesRight};

use stripe::Params;

// Leaves in `acc` what the walks over lanes l to l + w of all data columns find for parity j.
fn find(image: &[u8], q: Params, j: usize, l: usize, w: usize, acc: &mut [u8])
    requires { BlockAsked image.now acc.old q j l w }
    ensures { Sums image.now acc.new (data_at q 0 + l) q.p q.b (q.r - j) w q.k }
{
    let from = q.data_at(0) + l;
    let d = q.r - j;
    walk::walk_first(image, from, q.p, q.b, d, w, acc);
    walk::columns(image, from, q.p, q.k, q.b, d, w, acc);
}

// Puts lanes l to l + w of parity j in their place, worked out in `acc`.
pub fn refill_block(image: &mut [u8], q: Params, j: usize, l: usize, w: usize, acc: &mut [u8])
    requires { BlockAsked image.old acc.old q j l w }
    ensures { BlockFilled image.old image.new q j l (l + w) }
{
    find(image, q, j, l, w, acc);
    quotient::finish(image, q.parity_at(j) + l, q.p, q.b, j, w, acc);
}

// 0 where bad is 0 and lanes l to l + w of parity j are right; worked out in `acc`.
pub fn check_block(
    bad: u8,
    image: &[u8],
    q: Params,
    j: usize,
    l: usize,
    w: usize,
    acc: &mut [u8],
) -> u8
    requires { BlockAsked image.now acc.old q j l w }
    ensures { Shows bad result (LanesRight image.now q j l (l + w)) }
{
    find(image, q, j, l, w, acc);
    quotient::compare(bad, image, q.parity_at(j) + l, q.p, q.b, j, w, acc)
}
