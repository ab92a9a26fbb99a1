// Each call of the library beside the same call of the second implementation: answers and every lent byte are compared.
#![tactic(auto)]

ghost use Rattle.std.specs.Prelude.{◌≡◌, ℕ, ◌+◌, ◌%◌, ◌^◌, [], ◌∷◌, List, MatchResult, replicate};
ghost use Rattle.comparing.specs.Seen.{once_more};

use drawing::fill;
use refusal::Refusal;
use second_ground::{No, Shape, Slip, Unwritten, Written};
use second_lost::Asked;
use stripe::Params;
use total::part;
use write::{Accepted, Refused};

// All numbers of refusal lie below it.
const REFUSALS_END: usize = 18;

// What an answer gives where it is no refusal, in up to four numbers.
pub trait Numbers {
    ghost numbers_of: { Self → List ℕ };

    fn numbers(self) -> [u64; 4]
        ensures { result ≡ numbers_of self };
}

impl Numbers for () {
    ghost numbers_of = { λ _. replicate 4 0 };

    fn numbers(self) -> [u64; 4] {
        [0; 4]
    }
}

impl Numbers for u64 {
    ghost numbers_of = { λ n. n ∷ 0 ∷ 0 ∷ 0 ∷ [] };

    fn numbers(self) -> [u64; 4] {
        [self, 0, 0, 0]
    }
}

impl Numbers for Shape {
    ghost numbers_of = { λ q. q.p ∷ q.k ∷ q.r ∷ q.b ∷ [] };

    fn numbers(self) -> [u64; 4] {
        [self.p, self.k, self.r, self.b].map(|n| n as u64)
    }
}

impl Numbers for Params {
    ghost numbers_of = { λ q. q.p ∷ q.k ∷ q.r ∷ q.b ∷ [] };

    fn numbers(self) -> [u64; 4] {
        [self.p, self.k, self.r, self.b].map(|n| n as u64)
    }
}

// An answer in numbers: that of its refusal or 0, and those beside it.
#[derive(Clone, Copy, PartialEq, Eq, Debug)]
pub struct Answer {
    // Stays: a number, since the two implementations share no enum of refusals, and the documents' numbers are what both give.
    pub refusal: u64,
    pub beside: [u64; 4],
}

impl Answer {
    // An answer that has numbers only where it is no refusal.
    pub fn new<T: Numbers>(answer: Result<T, u64>) -> Answer
        ensures { MatchResult answer (λ given. result ≡ record { refusal = 0; beside = T.numbers_of given }) (λ number. result ≡ record { refusal = number; beside = replicate 4 0 }) }
    {
        let (refusal, beside) = match answer {
            Ok(given) => (0, given.numbers()),
            Err(no) => (no, [0; 4]),
        };
        Answer { refusal, beside }
    }

    // How many numbers of two answers are different.
    pub fn apart(self, other: Answer) -> usize {
        let beside = apart(&self.beside, &other.beside);
        beside.wrapping_add(usize::from(self.refusal != other.refusal))
    }
}

impl From<Result<Written, Unwritten>> for Answer {
    fn from(written: Result<Written, Unwritten>) -> Answer {
        let (refusal, beside) = match written {
            Ok(to) => (0, [u64::from(to.revision), to.count, 0, 0]),
            Err(no) => (no.no.number(), [u64::from(no.distance), 0, 0, 0]),
        };
        Answer { refusal, beside }
    }
}

impl From<Result<Accepted, Refused>> for Answer {
    fn from(written: Result<Accepted, Refused>) -> Answer {
        let (refusal, beside) = match written {
            Ok(to) => (0, [u64::from(to.revision), to.count, 0, 0]),
            Err(Refused::Aged(age)) => (age.number(), [u64::from(age.distance()), 0, 0, 0]),
            Err(Refused::Other(no)) => (no.number(), [0; 4]),
        };
        Answer { refusal, beside }
    }
}

// How many places of two slices hold different items, and one more where their lengths differ.
pub fn apart<T: PartialEq>(s: &[T], t: &[T]) -> usize {
    let unlike = s.iter().zip(t).filter(|(x, y)| x != y).count();
    unlike.wrapping_add(usize::from(s.len() != t.len()))
}

// The image of each implementation, and lent room as long.
#[derive(Drop)]
pub struct Pair<'a> {
    pub one: &'a mut [u8],
    pub two: &'a mut [u8],
    pub room: &'a mut [u8],
}

impl Pair<'_> {
    // How many bytes of the images are different.
    pub fn apart(&self) -> usize {
        apart(self.one, self.two)
    }
}

// What was seen: cases, differences, and how often the library gave each number of refusal, at 0 how often none.
#[derive(Clone, Copy, PartialEq, Eq, Debug)]
pub struct Tally {
    pub cases: usize,
    pub differences: usize,
    pub given: [u64; REFUSALS_END],
}

impl Tally {
    // Nothing seen yet.
    pub fn nothing() -> Tally {
        Tally {
            cases: 0,
            differences: 0,
            given: [0; REFUSALS_END],
        }
    }

    // No case and no difference, for the next group; how often each refusal was given stands.
    pub fn start_group(&mut self)
        ensures { self.new ≡ record self.old { cases = 0; differences = 0 } }
    {
        self.cases = 0;
        self.differences = 0;
    }

    // One more case.
    pub fn start_case(&mut self)
        ensures { self.new ≡ record self.old { cases = (self.old.cases + 1) % 2 ^ 64 } }
    {
        self.cases = self.cases.wrapping_add(1);
    }

    // More differences.
    pub fn add(&mut self, differences: usize)
        ensures { self.new ≡ record self.old { differences = (self.old.differences + differences) % 2 ^ 64 } }
    {
        self.differences = self.differences.wrapping_add(differences);
    }

    // An answer of the library in numbers, beside the one that is due.
    pub fn compare(&mut self, answer: Answer, due: Answer)
        ensures cases { self.new.cases ≡ self.old.cases }
        ensures given { self.new.given ≡ once_more self.old.given answer.refusal }
    {
        self.add(answer.apart(due));
        let refusal = answer.refusal as usize;
        if refusal < REFUSALS_END {
            self.given[refusal] = self.given[refusal].wrapping_add(1);
        }
    }

    // An answer of the library, beside that of the second implementation.
    fn beside<A: Numbers, B: Numbers>(&mut self, one: Result<A, Refusal>, two: Result<B, No>) {
        let due = Answer::new(two.map_err(No::number));
        self.compare(Answer::new(one.map_err(Refusal::number)), due);
    }

    // The parameters' test.
    pub fn parameters(&mut self, q: Shape) {
        self.beside(Params::checked(q.p, q.k, q.r, q.b), q.tested());
    }

    // Reading.
    pub fn read(&mut self, image: &[u8]) {
        self.beside(stripe::read(image), second_ground::read(image, None));
    }

    // The product of two words.
    pub fn product(&mut self, p: usize, u: u64, v: u64) {
        self.beside(ring::product(p, u, v), second_ground::product(p, u, v));
    }

    // The division of a word.
    pub fn divide(&mut self, p: usize, s: u64, a: usize, b: usize, slip: Option<Slip>) {
        let one = ring::divide(p, s, a, b);
        self.beside(one, second_ground::divide(p, s, a, b, slip));
    }

    // Make.
    pub fn make(&mut self, q: Shape, given: &[u8], one: &mut [u8], two: &mut [u8]) {
        let done = parity::make(q.p, q.k, q.r, q.b, given, one);
        self.beside(done, second::make(q, given, two));
        self.add(apart(one, two));
    }

    // Makes both images from drawn data.
    pub fn make_drawn(&mut self, q: Shape, c: usize, pair: &mut Pair) {
        let given = draw_data(q, c, pair.room);
        self.make(q, given, pair.one, pair.two);
    }

    // Makes one image from drawn data, by the library.
    pub fn make_again(&mut self, q: Shape, c: usize, image: &mut [u8], room: &mut [u8]) {
        let given = draw_data(q, c, room);
        let done = parity::make(q.p, q.k, q.r, q.b, given, image);
        let answer = Answer::new(done.map_err(Refusal::number));
        self.compare(answer, answer);
    }

    // Refill.
    pub fn refill(&mut self, pair: &mut Pair, slip: Option<Slip>) {
        let done = parity::refill(pair.one);
        self.beside(done, second::refill(pair.two, slip));
        self.add(pair.apart());
    }

    // Check of the library's image.
    pub fn check(&mut self, pair: &mut Pair, slip: Option<Slip>) {
        let image = &mut *pair.one;
        let wrong = parity::check(image);
        self.beside(wrong, second::check(image, pair.room, slip));
    }

    // Rebuild.
    pub fn rebuild(&mut self, pair: &mut Pair, lost: u64, slip: Option<Slip>) {
        let done = rebuild::rebuild(pair.one, lost);
        self.beside(done, second_lost::rebuild(pair.two, lost, slip));
        self.add(pair.apart());
    }

    // Restore one strip of the library's image into scratch of a length up to 600; a longer one counts as a difference.
    pub fn restore(&mut self, pair: &mut Pair, asked: Asked, length: usize, slip: Option<Slip>) {
        let mut one = [7; 600];
        let mut two = [7; 600];
        let (Some(first), Some(second)) = (one.get_mut(..length), two.get_mut(..length)) else {
            return self.add(1);
        };
        let Asked { lost, column, row } = asked;
        let image = &mut *pair.one;
        let done = rebuild::restore(image, lost, column, row, first);
        self.beside(
            done,
            second_lost::restore(image, asked, second, pair.room, slip),
        );
        self.add(apart(&one, &two));
    }

    // Show of a strip of an image, and the number of its refusal.
    pub fn show(&mut self, image: &[u8], asked: Asked, scratch: &[u8]) {
        let Asked { lost, column, row } = asked;
        let refusal = rebuild::show_refusal(image, lost, column, row, scratch);
        let beside = [0; 4];
        let bytes = rebuild::show(image, lost, column, row, scratch);
        let due = second_lost::show(image, asked, scratch).map_err(No::number);
        self.compare(Answer { refusal, beside }, Answer::new(due.map(|_| ())));
        self.add(apart(bytes, due.unwrap_or(&[])));
    }
}

// Draws the data of a stripe into lent room.
fn draw_data(q: Shape, c: usize, room: &mut [u8]) -> &[u8] {
    let n = q.data_size();
    fill(room, 0, n, c);
    part(room, 0, n)
}
