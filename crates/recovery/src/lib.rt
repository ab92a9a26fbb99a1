// The words by which a lost column is a sum of word · column over the columns that it is found from; a row of the recovery matrix at a time.
#![tactic(auto)]

ghost use Rattle.std.specs.Prelude.{◌≡◌, map, ◌+◌, ◌<◌, length, take, drop};
ghost use Rattle.laws.specs.Xor.{◌⊕◌};
ghost use Rattle.algebra.specs.Cauchy.{Off};
ghost use Rattle.algebra.specs.Lane.{Apart};
ghost use Rattle.algebra.specs.Prime.{Modulus};
ghost use Rattle.algebra.specs.Recovery.{unit_of, with};
ghost use Rattle.algebra.specs.Word.{inverse_of};
ghost use Rattle.stripe.specs.Params.{Admitted};
ghost use Rattle.pattern.specs.Inner.{Repairable};
ghost use Rattle.pattern.specs.Pattern.{lost_exponents};
ghost use Rattle.recovery.specs.Inner.{Solvable, Direct, Extended, Placeable, Sourced, LostColumn};
ghost use Rattle.recovery.specs.Words.{matrix_row, parity_row, row_words, data_words, parity_words, sources, place_of, places, column_words};

use stripe::Params;

// The unit vector u: e = x + x^2 + .. + x^(p-1) in place u.
#[tactic(auto, using(crate::proofs::Solving::units))]
fn unit(u: usize, p: usize, out: &mut [u64])
    requires { Modulus p × (u < length out.old) }
    ensures { out.new ≡ unit_of p (length out.old) u }
{
    out.fill(0);
    out[u] = (1 << p) - 2;
}

// Row u of the recovery matrix: the solution for the unit vector u of the transposed system, in which the exponents are swapped.
fn row(xs: &[usize], ys: &[usize], u: usize, p: usize, out: &mut [u64])
    requires { Modulus p × Solvable p xs.now ys.now out.old × (u < length out.old) }
    ensures { out.new ≡ matrix_row p xs.now ys.now u }
{
    unit(u, p, out);
    solver::solve(ys, xs, out, p);
}

// Adds what parity j takes of each of the data columns itself.
#[tactic(auto, using(crate::proofs::Solving::inverses_added))]
fn add_inverses(j: usize, zs: &[usize], p: usize, out: &mut [u64])
    requires { Modulus p × Direct p j zs.now out.old }
    ensures { out.new ≡ with ◌⊕◌ out.old (map (inverse_of p j) zs.now) }
{
    for (i, w) in out.iter_mut().enumerate() {
        *w ^= ring::inverse(j, zs[i], p);
    }
}

// The row of parity column j: the solution of the transposed system for what it takes of each lost data column.
fn parity_row(xs: &[usize], ys: &[usize], j: usize, p: usize, out: &mut [u64])
    requires { Modulus p × Solvable p xs.now ys.now out.old × Off (Apart p) j ys.now }
    ensures { out.new ≡ parity_row p xs.now ys.now j }
{
    out.fill(0);
    add_inverses(j, ys, p, out);
    solver::solve(ys, xs, out, p);
}

// After the row in the first g places: what it takes of each present data column, whose exponents follow the g consulted ones.
fn extend(from: &[usize], g: usize, p: usize, out: &mut [u64])
    requires { Modulus p × Extended p from.now g out.old }
    ensures { out.new ≡ row_words p (take g from.now) (drop g from.now) (take g out.old) }
{
    let (xs, zs) = from.split_at(g);
    let (row, rest) = out.split_at_mut(g);
    for (i, w) in rest.iter_mut().enumerate() {
        *w = solver::row_sum(zs[i], xs, row, p);
    }
}

// The words of lost data column number u.
fn data_words(from: &[usize], ys: &[usize], u: usize, p: usize, out: &mut [u64])
    requires { Modulus p × Sourced p from.now ys.now out.old × (u < length ys.now) }
    ensures { out.new ≡ data_words p (take (length ys.now) from.now) ys.now (drop (length ys.now) from.now) u }
{
    let g = ys.len();
    row(&from[..g], ys, u, p, &mut out[..g]);
    extend(from, g, p, out);
}

// The words of lost parity column j.
fn parity_words(from: &[usize], ys: &[usize], j: usize, p: usize, out: &mut [u64])
    requires { Modulus p × Sourced p from.now ys.now out.old × Off (Apart p) j ys.now × Off (Apart p) j (drop (length ys.now) from.now) }
    ensures { out.new ≡ parity_words p (take (length ys.now) from.now) ys.now (drop (length ys.now) from.now) j }
{
    let g = ys.len();
    parity_row(&from[..g], ys, j, p, &mut out[..g]);
    extend(from, g, p, out);
    add_inverses(j, &from[g..], p, &mut out[g..]);
}

// The exponents of the columns that lost ones are found from: the consulted parity columns, then the present data columns.
#[tactic(auto, using(crate::proofs::Sourcing::sourcing))]
fn sources(q: Params, lost: u64, out: &mut [usize])
    requires { Repairable q lost × (length out.old ≡ q.k) }
    ensures { out.new ≡ sources q lost }
{
    let g = pattern::lost_below(lost, q.k);
    pattern::consulted(q, lost, &mut out[..g]);
    pattern::present_data(q, lost, &mut out[g..]);
}

// Where the column of an exponent starts.
#[tactic(auto, using(crate::proofs::Placing::placed))]
fn place(q: Params, x: usize) -> usize
    requires { Admitted q × (x < q.k + q.r) }
    ensures { result ≡ place_of q x }
{
    if x < q.r {
        q.parity_at(x)
    } else {
        q.data_at(x - q.r)
    }
}

// Puts in the place of each exponent where its column starts.
#[tactic(auto, using(crate::proofs::Placing::placing))]
fn place_all(q: Params, xs: &mut [usize])
    requires { Placeable q xs.old }
    ensures { xs.new ≡ map (place_of q) xs.old }
{
    for x in xs.iter_mut() {
        *x = place(q, *x);
    }
}

// Where the columns start that lost ones are found from.
#[tactic(auto, using(crate::proofs::Placing::placings))]
pub fn places(q: Params, lost: u64, out: &mut [usize])
    requires { Repairable q lost × (length out.old ≡ q.k) }
    ensures { out.new ≡ places q lost }
{
    sources(q, lost, out);
    place_all(q, out);
}

// The words of lost column n by the exponents of these columns and of the lost data columns.
fn words_by(q: Params, lost: u64, n: usize, from: &[usize], ys: &[usize], out: &mut [u64])
    requires { Repairable q lost × LostColumn q lost n out.old × (from.now ≡ sources q lost) × (ys.now ≡ lost_exponents q lost) }
    ensures { out.new ≡ column_words q lost n }
{
    if n < q.k {
        data_words(from, ys, pattern::lost_below(lost, n), q.p, out);
    } else {
        parity_words(from, ys, n - q.k, q.p, out);
    }
}

// The words of lost column n, one for each of the columns that it is found from.
pub fn column_words(q: Params, lost: u64, n: usize, out: &mut [u64])
    requires { Repairable q lost × LostColumn q lost n out.old }
    ensures { out.new ≡ column_words q lost n }
{
    let k = q.k;
    let g = pattern::lost_below(lost, k);
    let mut from = pattern::no_exponents();
    let mut ys = [0usize; Params::MOST_LOST];
    sources(q, lost, &mut from[..k]);
    pattern::lost_data(q, lost, &mut ys[..g]);
    words_by(q, lost, n, &from[..k], &ys[..g], out);
}
