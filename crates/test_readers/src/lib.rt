// The calls that read charts, made by the test program of calls.

#![tactic(auto)]

use base_geometry::bounds::Bounds;
use spec_calls::ChartView;
use spec_plane::Point;
use test_support::charts::{Chart, State, Which};
use test_support::test_prints;

// What is asked of a chart.
#[derive(Clone, Copy)]
pub enum Reading {
    Locate(Point),
    Listing(Point),
    Soundness,
    Area,
}

// The call of a reading, and what it answers.
fn answer(rt: &impl Print, chart: ChartView<'_>, reading: Reading) {
    match reading {
        Reading::Locate(p) => test_prints::print_located(rt, call_locate::locate(chart, p)),
        Reading::Listing(p) => {
            let list = call_locate::cell_listing(
                chart.table,
                chart.keys,
                chart.levels,
                chart.items,
                chart.triangles,
                chart.entries,
                p,
            );
            test_prints::print_listing(rt, list)
        }
        Reading::Soundness => test_prints::print_soundness(rt, call_soundness::soundness(chart)),
        Reading::Area => test_prints::print_area(rt, call_area::doubled_area(chart)),
    }
}

// Reads a chart, and ends the line.
pub fn run_reading(rt: &impl Print, chart: &Chart, reading: Reading) {
    answer(rt, chart.view(), reading);
    let _ = println!(rt; " {}", chart.buffers.checksum(0));
}

// Lays a chart over the other, and ends the line.
pub fn run_overlay(rt: &impl Print, state: &mut State, first: Which, second: Which) {
    let a = state.charts.chart(first).view();
    let b = state.charts.chart(second).view();
    let r = call_overlay::overlay(a, b, state.pairs.view_mut());
    test_prints::print_overlaid(rt, r);
    let _ = println!(rt; " {}", state.checksum());
}

// The window with two sides in b and two in c, the first of each its lower half.
fn window_of(b: u32, c: u32) -> Bounds {
    Bounds {
        left: test_support::low_half(b),
        top: (b / 65536) as u16,
        right: test_support::low_half(c),
        bottom: (c / 65536) as u16,
    }
}

// Lists the window of b and c of a chart in the pairs, and ends the line.
pub fn run_window(rt: &impl Print, state: &mut State, which: Which, b: u32, c: u32) {
    let chart = state.charts.chart(which).view();
    let r = call_window::window(chart, window_of(b, c), state.pairs.view_mut());
    test_prints::print_windowed(rt, r);
    let _ = println!(rt; " {}", state.checksum());
}
