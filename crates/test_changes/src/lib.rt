// The calls that change a chart, made by the test program of calls.

#![tactic(auto)]

use spec_charts::Refusal;
use spec_plane::Point;
use std::io::Read;
use test_support::charts::Chart;
use test_support::test_prints;

// The most numbers of a load.
const LONGEST: usize = 3200;

// The counts of a chart after a call.
#[derive(Clone, Copy)]
struct Counts {
    triangles: usize,
    entries: usize,
}

// An edit of a chart.
#[derive(Clone, Copy)]
pub enum Edit {
    Insert(Point),
    TakeOut(Point),
    Flip(usize, usize),
}

impl Edit {
    // What it is called in the output.
    fn name(self) -> &'static str {
        match self {
            Edit::Insert(_) => "insert",
            Edit::TakeOut(_) => "take_out",
            Edit::Flip(_, _) => "flip",
        }
    }
}

// The line of a change, and the counts after it.
fn say_changed(
    rt: &impl Print,
    chart: &mut Chart,
    name: &str,
    answer: Result<(), Refusal>,
    counts: Counts,
) {
    test_prints::print_changed(rt, name, answer, counts.triangles, counts.entries);
    let _ = println!(rt; " {}", chart.buffers.checksum(0));
    chart.set_counts(counts.triangles, counts.entries);
}

// Edits a chart.
pub fn run_edit(rt: &impl Print, chart: &mut Chart, edit: Edit) {
    let mut lent = chart.view_mut();
    let answer = match edit {
        Edit::Insert(p) => call_edits::insert(&mut lent, p),
        Edit::TakeOut(p) => call_edits::take_out(&mut lent, p),
        Edit::Flip(i, j) => call_edits::flip(&mut lent, i, j),
    };
    let counts = Counts {
        triangles: lent.triangles,
        entries: lent.entries,
    };
    say_changed(rt, chart, edit.name(), answer, counts);
}

// Loads the n numbers that follow in the input, or the most that a load takes; where the input ends within them, the rest is 0.
pub fn run_load(rt: &impl Print, source: &mut impl Read, chart: &mut Chart, n: usize) {
    let n = n.min(LONGEST);
    let mut bytes = [0u8; 2 * LONGEST];
    let bytes = &mut bytes[..2 * n];
    let _ = source.read_exact(bytes);
    let mut given = [0u16; LONGEST];
    test_support::decode(bytes, &mut given);
    let mut lent = chart.view_mut();
    let answer = call_load::load(&given[..n], &mut lent);
    let counts = Counts {
        triangles: lent.triangles,
        entries: lent.entries,
    };
    say_changed(rt, chart, "load", answer, counts);
}
