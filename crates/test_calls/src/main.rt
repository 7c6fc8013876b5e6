// Runs calls on two charts whose buffers may be damaged: reads steps from standard input and prints what each call answers.
//
// A step is twelve bytes: what to do, a buffer (0 table, 1 keys, 2 levels, 3 triangle numbers; of chart 1: four more; 8 pairs), a
// 16-bit number a and two 32-bit numbers b and c, low byte first. A call goes by the chart of the buffer.
//   1 load of the a numbers that follow, two bytes each    2 locate (b, c)    3 cell listing of (b, c)    4 soundness
//   5 doubled area    6 put b at place a of a buffer    7 lend a places of a buffer    8 counts b and c
//   9 put b at every place of a buffer    10 insert (b, c)    11 take out (b, c)    12 flip b, c
//   13 overlay of the chart and chart a    14 window (b % 65536, b / 65536) to (c % 65536, c / 65536), listed in the pairs
// Each call prints a line: its name, what it answers, and a checksum of all places of the chart's buffers, lent or not; an overlay
// and a window one of all places of both charts and of the pairs.

#![tactic(auto)]

mod steps;

use std::io::Read;
use steps::{Action, Place, Step};
use test_support::charts::{self, Buffer, Buffers, Chart, Charts, Lent, Pairs, State, Which};

// Runs an action on the pairs.
fn run_on_pairs(pairs: &mut Pairs, action: Action) {
    match action {
        Action::Put(place, x) => {
            test_support::put(&mut pairs.list, place, test_support::low_half(x));
        }
        Action::Lend(n) => pairs.lent = n,
        Action::Fill(x) => pairs.list.fill(test_support::low_half(x)),
        _ => {}
    }
}

// Runs an action on a chart and a buffer of it.
fn run_on_chart(
    rt: &impl Print,
    source: &mut impl Read,
    state: &mut State,
    which: Which,
    buffer: Buffer,
    action: Action,
) {
    let charts = &mut state.charts;
    match action {
        Action::Load(n) => test_changes::run_load(rt, source, charts.chart_mut(which), n),
        Action::Read(reading) => test_readers::run_reading(rt, charts.chart(which), reading),
        Action::Put(place, x) => charts.chart_mut(which).put(buffer, place, x),
        Action::Lend(n) => charts.chart_mut(which).lend(buffer, n),
        Action::Count(triangles, entries) => {
            charts.chart_mut(which).set_counts(triangles, entries);
        }
        Action::Fill(x) => charts.chart_mut(which).fill(buffer, x),
        Action::Edit(edit) => test_changes::run_edit(rt, charts.chart_mut(which), edit),
        Action::Overlay(other) => test_readers::run_overlay(rt, state, which, other),
        Action::Window(b, c) => test_readers::run_window(rt, state, which, b, c),
    }
}

// Runs all steps of the input.
fn run(rt: &impl Print, source: &mut impl Read, state: &mut State) {
    for _ in 0..u64::MAX {
        let Some(step) = Step::read(source) else {
            break;
        };
        match step.place {
            Place::Chart(which, buffer) => {
                run_on_chart(rt, source, state, which, buffer, step.action);
            }
            Place::Pairs => run_on_pairs(&mut state.pairs, step.action),
        }
    }
}

fn main(rt: HostRuntime) {
    let mut source = rt.reader();
    let mut state = State {
        charts: Charts {
            first: Chart {
                buffers: Buffers {
                    table: [0; charts::TABLE],
                    keys: [0; charts::LIST],
                    levels: [0; charts::LIST],
                    items: [0; charts::LIST],
                },
                lent: Lent::asked(),
            },
            second: Chart {
                buffers: Buffers {
                    table: [0; charts::TABLE],
                    keys: [0; charts::LIST],
                    levels: [0; charts::LIST],
                    items: [0; charts::LIST],
                },
                lent: Lent::asked(),
            },
        },
        pairs: Pairs {
            list: [0; charts::PAIRS],
            lent: 8192,
        },
    };
    run(&rt, &mut source, &mut state);
}
