// The ring of words below 2^p with x^p = 1, on elements of even weight.
#![tactic(auto)]

ghost use Rattle.std.specs.Prelude.{◌≡◌, ◌+◌, ◌*◌, ◌<◌, ◌≤◌, ◌^◌, ◌%◌, ◌/◌};
ghost use Rattle.laws.specs.Sum.{pick};
ghost use Rattle.algebra.specs.Divide.{evens, inv};
ghost use Rattle.algebra.specs.Word.{turn_of, times_of, product_of, inverse_of, over_of};
ghost use Rattle.algebra.specs.Word.{element};
ghost use Rattle.ring.specs.Ring.{Factor, Step, Exponents, Divisible};
ghost use Rattle.ring.specs.Answer.{product_answer, divide_answer};

use refusal::Refusal;
use stripe::Params;

// x^a · w
#[tactic(auto, using(crate::proofs::Laws::rotated))]
fn rotate(w: u64, a: usize, p: usize) -> u64
    requires { (w < 2 ^ p) × (a ≤ p) × (p ≤ 61) }
    ensures { result ≡ turn_of p a w }
{
    let cut = p - a;
    let high = w >> cut;
    let low = w - (high << cut);
    (low << a) + high
}

// (x^a + x^b) · w
#[tactic(auto, using(crate::proofs::Laws::both_turns))]
pub fn times(w: u64, a: usize, b: usize, p: usize) -> u64
    requires { (w < 2 ^ p) × (a ≤ p) × (b ≤ p) × (p ≤ 61) }
    ensures { result ≡ times_of p a b w }
{
    rotate(w, a, p) ^ rotate(w, b, p)
}

// w where the lowest bit of b is set, else 0
#[tactic(auto, using(crate::proofs::Laws::picks))]
fn picked(b: u64, w: u64) -> u64
    ensures { result ≡ pick (b % 2) w }
{
    if b % 2 == 1 { w } else { 0 }
}

// u · v
#[tactic(auto, using(crate::proofs::Laws::multiplied))]
fn multiply(u: u64, v: u64, p: usize) -> u64
    requires { Factor p v }
    ensures { result ≡ product_of p u v }
{
    let mut sum = 0;
    for i in 0..p {
        sum ^= picked(u >> i, rotate(v, i, p));
    }
    sum
}

// 1 + x^(2c) + x^(4c) + .. with p / 2 + 1 terms
#[tactic(auto, using(crate::proofs::Laws::spreading))]
fn spread(c: usize, p: usize) -> u64
    requires { Step p c }
    ensures { result ≡ evens p c (p / 2) }
{
    let mut sum = 1;
    for m in 0..p / 2 {
        sum += 1 << (2 * (m + 1) * c % p);
    }
    sum
}

// 1 / (1 + x^c)
#[tactic(auto, using(crate::proofs::Laws::inverting))]
fn invert(c: usize, p: usize) -> u64
    requires { Step p c }
    ensures { result ≡ inv p c }
{
    let sum = spread(c, p);
    if p % 4 == 1 { (1 << p) - 1 - sum } else { sum }
}

// 1 / (x^a + x^b)
#[tactic(auto, using(crate::proofs::Laws::inverses))]
pub fn inverse(a: usize, b: usize, p: usize) -> u64
    requires { Exponents p a b }
    ensures { result ≡ inverse_of p a b }
{
    rotate(invert((b + (p - a)) % p, p), p - a, p)
}

// w / (x^a + x^b)
#[tactic(auto, using(crate::proofs::Laws::divided))]
pub fn quotient(w: u64, a: usize, b: usize, p: usize) -> u64
    requires { Divisible p a b w }
    ensures { result ≡ over_of p a b w }
{
    multiply(inverse(a, b, p), w, p)
}

// Whether w has even weight and no bit at p or above.
#[tactic(auto, using(crate::proofs::Elements::weighed))]
fn is_element(w: u64, p: usize) -> bool
    requires { p ≤ 61 }
    ensures { result ≡ element p w }
{
    w >> p == 0 && w.count_ones() % 2 == 0
}

// The product of two elements, for any numbers.
pub fn product(p: usize, u: u64, v: u64) -> Result<u64, Refusal>
    ensures { result ≡ product_answer p u v }
{
    if !Params::admits(p) {
        return Err(Refusal::Prime);
    }
    if !is_element(u, p) {
        return Err(Refusal::Element);
    }
    if !is_element(v, p) {
        return Err(Refusal::Element);
    }
    Ok(multiply(u, v, p))
}

// The element c with (x^a + x^b) · c = s, for any numbers.
pub fn divide(p: usize, s: u64, a: usize, b: usize) -> Result<u64, Refusal>
    ensures { result ≡ divide_answer p s a b }
{
    if !Params::admits(p) {
        return Err(Refusal::Prime);
    }
    if !is_element(s, p) {
        return Err(Refusal::Element);
    }
    if a >= p {
        return Err(Refusal::Exponent);
    }
    if b >= p {
        return Err(Refusal::Exponent);
    }
    if a == b {
        return Err(Refusal::Exponent);
    }
    Ok(quotient(s, a, b, p))
}
