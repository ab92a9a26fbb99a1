// Revisions of 32 bits on a circle: how old a base is against a revision, by how much, and the revision that follows.
#![tactic(auto)]

ghost use Rattle.std.specs.Prelude.{◌≡◌};
ghost use Rattle.revision.specs.Revision.{distance, judged, renewed, age_number, age_distance, is_current};

use refusal::Refusal;

// Half the circle: neither of two revisions that lie so far apart is the newer one.
const HALF: u32 = 2147483648;

// How old the base of a write is: current, behind the revision by so much, ahead of it by so much, or exactly half the circle away.
#[derive(Clone, Copy, PartialEq, Eq, Debug)]
pub enum Age {
    Current,
    Older(u32),
    Newer(u32),
    Unclear,
}

impl Age {
    // 0 where the base is current, else the number of the refusal.
    // Stays: a number, since `age_number` says it and the C interface hands it on.
    pub fn number(self) -> u64
        ensures { result ≡ age_number self }
    {
        match self {
            Age::Current => 0,
            Age::Older(_) => Refusal::Stale.number(),
            Age::Newer(_) => Refusal::Ahead.number(),
            Age::Unclear => Refusal::Unclear.number(),
        }
    }

    // How far the base is behind or ahead; 0 where it is neither.
    pub fn distance(self) -> u32
        ensures { result ≡ age_distance self }
    {
        match self {
            Age::Older(d) | Age::Newer(d) => d,
            Age::Current | Age::Unclear => 0,
        }
    }

    // Whether the base is current.
    pub fn is_current(self) -> bool
        ensures { result ≡ is_current self }
    {
        self == Age::Current
    }
}

// How far b lies behind n, on the circle of 32 bits.
#[tactic(auto, unfolding(crate::specs::Revision::distance))]
fn behind(n: u32, b: u32) -> u32
    ensures { result ≡ distance n b }
{
    n.wrapping_sub(b)
}

// How old a base is against a revision.
#[tactic(auto, using(crate::proofs::Circle::judgements))]
pub fn judge(n: u32, b: u32) -> Age
    ensures { result ≡ judged n b }
{
    match behind(n, b) {
        0 => Age::Current,
        HALF => Age::Unclear,
        d if d < HALF => Age::Older(d),
        _ => Age::Newer(behind(b, n)),
    }
}

// The revision that follows a base.
#[tactic(auto, unfolding(crate::specs::Revision::renewed))]
pub fn renew(base: u32) -> u32
    ensures { result ≡ renewed base }
{
    base.wrapping_add(1)
}
