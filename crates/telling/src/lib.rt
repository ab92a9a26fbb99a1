// What the program `examples` writes: what was seen in groups and with slips, and both reports of a file.
#![tactic(auto)]

use comparing::Tally;
use drawing::Group;
use second_ground::{No, Slip};
use std::fs::File;
use std::io::{ErrorKind, Write};
use std::rt::Files;
use std::{fs, io};

// The line of what was seen under a name.
pub fn tell(rt: &impl Print, name: &str, t: &Tally) -> io::Result<()> {
    println!(rt; "{name}: cases {} differences {}", t.cases, t.differences)
}

// The name of a group of drawn cases.
fn name_of(group: Group) -> &'static str {
    match group {
        Group::Ring => "ring",
        Group::Made => "make, check, refill",
        Group::Unmade => "make with wrong numbers or lengths",
        Group::Damaged => "damaged images",
        Group::Histories => "histories of writes in two arrangements",
        Group::Lost => "lost columns",
        Group::Wide => "wide stripes, p = 31",
        Group::Strips => "strip lengths",
        Group::Widest => "wide stripes, p = 61",
        Group::Away => "writes while columns are away",
    }
}

// The line of a group of drawn cases.
pub fn say_group(rt: &impl Print, group: Group, t: &Tally) -> io::Result<()> {
    tell(rt, name_of(group), t)
}

// How often drawn cases met each refusal: never stands out. 0 is no refusal, and LONG is given by a report alone.
pub fn tell_refusals(rt: &impl Print, t: &Tally) -> io::Result<()> {
    print!(rt; "refusals met by drawn cases (how often):")?;
    for (refusal, times) in t.given.iter().enumerate() {
        if refusal == 0 || refusal as u64 == No::Long.number() {
            continue;
        }
        if *times == 0 {
            print!(rt; " {refusal} (NEVER)")?;
        } else {
            print!(rt; " {refusal} ({times})")?;
        }
    }
    println!(rt)
}

// The name of a slip.
fn name_of_slip(slip: Slip) -> &'static str {
    match slip {
        Slip::Zeroed => "zeroed form",
        Slip::Forgotten => "coefficient p-1 forgotten",
        Slip::Exponents => "exponents i and k+j",
        Slip::Plain => "revisions by plain size",
        Slip::Read => "lost bytes read",
        Slip::Moved => "lost column moved",
        Slip::Counted => "lost parity counted",
        Slip::Late => "MANY after the base",
        Slip::Opposite => "distance of the other direction",
        Slip::Halved => "half the circle called STALE",
    }
}

// A slip's line, by the differences that it makes in the document's examples and in drawn cases, and by whether it does what the document says of it.
pub fn tell_slip(
    rt: &impl Print,
    slip: Slip,
    documented: usize,
    drawn: usize,
    said: Option<bool>,
) -> io::Result<()> {
    let verdict = match said {
        _ if documented == 0 => "NOT FOUND by the document's examples",
        _ if drawn == 0 => "NOT FOUND by drawn cases",
        Some(false) => "NOT AS DOCUMENTED",
        Some(true) => "found, as documented",
        None => "found",
    };
    println!(rt; "planted slip, {}: {verdict}", name_of_slip(slip))
}

// Makes a file; one that is there stays as it is.
fn store(rt: &impl Files, path: &str, bytes: &[u8]) -> io::Result<()> {
    match File::create_new(rt, path) {
        Ok(mut file) => file.write_all(bytes),
        Err(e) if e.kind() == ErrorKind::AlreadyExists => Ok(()),
        Err(e) => Err(e),
    }
}

// Both reports of a file with these bytes.
pub fn tell_reports(rt: &(impl Print + Files), path: &str, bytes: &[u8]) -> io::Result<()> {
    store(rt, path, bytes)?;
    println!(rt; "report of {path}")?;
    let mut file = fs::open(rt, path)?;
    reporting::report(rt, &mut file)?;
    println!(rt; "second report of the same")?;
    let mut again = fs::open(rt, path)?;
    second_report::report(rt, &mut again)
}
