// A difference added to the strips of present parity columns that a data strip touches.
#![tactic(auto)]

ghost use Rattle.std.specs.Prelude.{◌≡◌, ◌<◌, ◌≤◌, ◌^◌};
ghost use Rattle.stripe.specs.Layout.{rows, strip_at};
ghost use Rattle.stripe.specs.Params.{Admitted};
ghost use Rattle.block.specs.Touches.{touch_word};
ghost use Rattle.present.specs.Present.{present_word};
ghost use Rattle.present.specs.Steps.{Crossing, Target, Shifted};

use stripe::Params;

// A data strip, by its column and its row, of a stripe of which the columns of a pattern are lost.
#[derive(Clone, Copy, PartialEq, Eq, Debug)]
pub struct Spot {
    pub q: Params,
    pub lost: u64,
    pub column: usize,
    pub row: usize,
}

impl Spot {
    // Where the strip starts.
    pub fn at(self) -> usize
        requires { Admitted self.q × (self.column < self.q.k) × (self.row < rows self.q) }
        ensures { (result ≡ strip_at self.q self.column self.row) × (result ≤ 2000000) }
    {
        self.q.strip_at(self.column, self.row)
    }

    // The rows of parity column j that the strip touches: (x^row + x^(p-1)) / (x^j + x^(r+column)).
    fn touch(self, j: usize) -> u64
        requires { Crossing self j }
        ensures { (result ≡ touch_word self.q self.column self.row j) × (result < 2 ^ self.q.p) }
    {
        let q = self.q;
        ring::times(
            ring::inverse(j, q.r + self.column, q.p),
            self.row,
            q.p - 1,
            q.p,
        )
    }

    // The rows of parity column j that the strip touches; none where the pattern has the column as lost.
    fn touch_present(self, j: usize) -> u64
        requires { Crossing self j }
        ensures { result ≡ present_word self.q self.lost self.column self.row j }
    {
        if pattern::is_lost(self.lost, self.q.k + j) {
            return 0;
        }
        self.touch(j)
    }
}

// Adds a difference to every present parity strip that a data strip touches; gives how many these are.
pub fn move_parity(image: &mut [u8], spot: Spot, diff: &[u8]) -> u64
    requires { Target image.old spot diff.now }
    ensures { Shifted image.old image.new spot diff.now spot.q.r result }
{
    let q = spot.q;
    let rows = q.p - 1;
    let mut count = 0;
    for j in 0..q.r {
        count += engine::scatter(image, q.parity_at(j), rows, spot.touch_present(j), diff);
    }
    count
}
