// The refusals of document 01 and of the requests since, by name and by number.
#![tactic(auto)]

ghost use Rattle.std.specs.Prelude.{◌≡◌};
ghost use Rattle.refusal.specs.Number.{number_of};

#[derive(Clone, Copy, PartialEq, Eq, Debug)]
pub enum Refusal {
    Cut = 1,
    Tail = 2,
    Count = 3,
    Prime = 4,
    Shape = 5,
    Strip = 6,
    Width = 7,
    Column = 8,
    Row = 9,
    Stale = 10,
    Ahead = 11,
    Many = 12,
    Room = 13,
    Long = 14,
    Exponent = 15,
    Element = 16,
    Unclear = 17,
    Foreign = 18,
    Twice = 19,
}

impl Refusal {
    // The number that the documents give the refusal.
    pub fn number(self) -> u64
        ensures { result ≡ number_of self }
    {
        self as u64
    }
}
