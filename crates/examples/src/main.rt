// Runs the examples of document 01 and drawn cases through the library and the second implementation, and prints a line a group.
#![tactic(auto)]

use comparing::{Pair, Tally};
use drawing::Group;
use second_ground::Slip;
use std::io;
use telling::tell;

// The groups in the order of their lines, and how many cases each has.
const GROUPS: [(Group, usize); 10] = [
    (Group::Ring, 510),
    (Group::Made, 340),
    (Group::Unmade, 510),
    (Group::Damaged, 510),
    (Group::Histories, 340),
    (Group::Lost, 408),
    (Group::Wide, 96),
    (Group::Strips, 48),
    (Group::Widest, 8),
    (Group::Away, 408),
];

// The groups whose first cases are to find the slips.
const FINDING: [Group; 7] = [
    Group::Away,
    Group::Ring,
    Group::Made,
    Group::Unmade,
    Group::Damaged,
    Group::Histories,
    Group::Lost,
];

// All groups of drawn cases; refusals are counted on from group to group.
fn run_groups(rt: &impl Print, pair: &mut Pair) -> io::Result<()> {
    let mut t = Tally::nothing();
    for (group, cases) in GROUPS {
        trials::run(group, cases, None, &mut t, pair);
        telling::say_group(rt, group, &t)?;
    }
    telling::tell_refusals(rt, &t)
}

// How many differences a planted slip makes in the first cases of some groups.
fn drawn_differences(slip: Slip, pair: &mut Pair) -> usize {
    let mut found: usize = 0;
    for group in FINDING {
        let mut t = Tally::nothing();
        trials::run(group, 68, Some(slip), &mut t, pair);
        found = found.wrapping_add(t.differences);
    }
    found
}

// The self-test: plants each slip in the second implementation; the document's examples and drawn cases have to find it, and it has to do what the document says of it.
fn self_test(rt: &impl Print, pair: &mut Pair) -> io::Result<()> {
    for slip in Slip::ALL {
        let mut t = Tally::nothing();
        documented::slips(&mut t, Some(slip));
        let drawn = drawn_differences(slip, pair);
        telling::tell_slip(rt, slip, t.differences, drawn, documented::said(slip))?;
    }
    Ok(())
}

// The document's examples: the limits, and what the slips would spoil.
fn run_documented(rt: &impl Print) -> io::Result<()> {
    let mut limits = Tally::nothing();
    documented::limits(&mut limits);
    tell(rt, "limits", &limits)?;
    let mut slips = Tally::nothing();
    documented::slips(&mut slips, None);
    tell(rt, "slips", &slips)
}

fn main(rt: HostRuntime) -> io::Result<()> {
    let mut one = [0; 131072];
    let mut two = [0; 131072];
    let mut room = [0; 131072];
    let mut pair = Pair {
        one: &mut one,
        two: &mut two,
        room: &mut room,
    };
    run_documented(&rt)?;
    run_groups(&rt, &mut pair)?;
    self_test(&rt, &mut pair)?;
    telling::tell_reports(&rt, "right", &documented::EXAMPLE)?;
    telling::tell_reports(&rt, "spoiled", &documented::SPOILED)?;
    telling::tell_reports(&rt, "long", &[0; 65537])
}
