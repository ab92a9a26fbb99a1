// The report of an image: what it is, the revision of each data column, each parity right or wrong.
// It is put together in a buffer of fixed room, which every report fits, and written at once.
#![tactic(auto)]

ghost use Rattle.std.specs.Prelude.{◌≡◌, ◌+◌, ◌*◌, ◌++◌, ◌<◌, ◌≤◌, [], length, IfSome, OnOk};
ghost use Rattle.std.specs.Io.KnownBytes.{Appends};
ghost use Rattle.stripe.specs.Reading.{Image};
ghost use Rattle.reporting.specs.Inner.{line_room, report_room, is_clear};
ghost use Rattle.reporting.specs.Report.{refused_line, verdict, stripe_line, lines, data_line, parity_line, lines_of, report_of};

use arrayvec::ArrayString;
use refusal::Refusal;
use std::io;
use std::io::{Read, Write};
use stripe::Params;
use texts::{push_last, push_number};

// The longest input that is taken.
const LONGEST: usize = 65536;

// Room for a line: a word, four numbers of at most 20 digits with a space before each, and the line's end are 91 bytes.
const LINE: usize = 96;

// Room for a report: a line of the parameters, and one for each of k + r columns, which are at most p.
const ROOM: usize = (1 + Params::LARGEST_PRIME) * LINE;

type Report = ArrayString<ROOM>;

// Puts the report of an input that is refused.
fn push_refused(report: &mut Report, e: Refusal)
    requires { report.old.bytes ≡ [] }
    ensures { report.new.bytes ≡ refused_line e }
{
    report.push_str("refused");
    push_last(report, e.number());
}

// Begins a report with the line of the parameters.
fn push_stripe(report: &mut Report, q: Params)
    requires { report.old.bytes ≡ [] }
    ensures { report.new.bytes ≡ stripe_line q }
{
    let Params { p, k, r, b } = q;
    report.push_str("stripe");
    push_number(report, p as u64);
    push_number(report, k as u64);
    push_number(report, r as u64);
    push_last(report, b as u64);
}

// Puts a line for each data column behind a report.
fn push_data(report: &mut Report, image: &[u8], q: Params)
    requires { Image image.now q × (length report.old.bytes + q.k * line_room ≤ report_room) }
    ensures { report.new.bytes ≡ report.old.bytes ++ lines q.k (data_line image.now) }
{
    for i in 0..q.k {
        let revision = stripe::u32_at(image, q.revision_at(i));
        report.push_str("data");
        push_number(report, i as u64);
        push_last(report, revision as u64);
    }
}

// Whether parity j is right, as the word of wrong parities has it.
#[tactic(auto, unfolding(crate::specs::Inner::is_clear, laws::specs::Bit::bit))]
fn verdict(wrong: u64, j: usize) -> &'static str
    requires { j < 64 }
    ensures { result.now ≡ verdict (is_clear wrong j) }
{
    if (wrong >> j) % 2 == 0 {
        "right"
    } else {
        "wrong"
    }
}

// Puts a line for each of r parities behind a report.
fn push_parities(report: &mut Report, wrong: u64, r: usize)
    requires { (r ≤ 61) × (length report.old.bytes + r * line_room ≤ report_room) }
    ensures { report.new.bytes ≡ report.old.bytes ++ lines r (parity_line (is_clear wrong)) }
{
    for j in 0..r {
        report.push_str("parity");
        push_number(report, j as u64);
        report.push_str(" ");
        report.push_str(verdict(wrong, j));
        report.push_str("\n");
    }
}

// Puts the report of an image of any length, or of its refusal.
fn push_image(report: &mut Report, image: &[u8])
    requires { report.old.bytes ≡ [] }
    ensures { report.new.bytes ≡ lines_of image.now }
{
    let q = match stripe::read(image) {
        Ok(q) => q,
        Err(e) => return push_refused(report, e),
    };
    // Check refuses no image that reading accepts.
    let Ok(wrong) = parity::check(image) else {
        unreachable!();
    };
    push_stripe(report, q);
    push_data(report, image, q);
    push_parities(report, wrong, q.r);
}

// The same of an input of the report program; LONG comes first.
fn push_input(report: &mut Report, input: &[u8])
    requires { report.old.bytes ≡ [] }
    ensures { report.new.bytes ≡ report_of input.now }
{
    if input.len() > LONGEST {
        return push_refused(report, Refusal::Long);
    }
    push_image(report, input)
}

// Writes the report of an image, or its refusal, on standard output.
pub fn describe(rt: &impl Print, image: &[u8]) -> io::Result<()> {
    let mut report = Report::new();
    push_image(&mut report, image);
    rt.write_all(report.as_str().as_bytes())
}

// Writes the report of what a reader gives; one byte above the longest tells LONG.
pub fn write_report<R: Read, W: Write>(input: &mut R, output: &mut W) -> io::Result<()>
    ensures { OnOk result (IfSome (R.remaining input.old) (λ s. Appends (W.contents output.old) (W.contents output.new) (report_of s))) }
{
    let mut front = [0u8; LONGEST + 1];
    let n = fronts::read_front(input, &mut front)?;
    let mut report = Report::new();
    push_input(&mut report, &front[..n]);
    output.write_all(report.as_str().as_bytes())
}

// The same on standard output.
pub fn report(rt: &impl Print, input: &mut impl Read) -> io::Result<()> {
    write_report(input, &mut io::writer(rt))
}
