// Window: the triangles of a chart that have a point in common with a rectangle.

#![tactic(auto)]

ghost use Rattle.std.specs.Prelude.{◌≡◌, true, false, ◌≤◌, length};
ghost use Rattle.spec_window.specs.Window.{window_of, empty_window, window_length};
ghost use Rattle.spec_calls.specs.Buffers.{too_short, chain_rule, chart_table, chart_entries};
ghost use Rattle.spec_calls.specs.Calls.{window_call};
ghost use Rattle.spec_calls.specs.Lent.{viewed};
ghost use Rattle.base_geometry.specs.Bounds.{bounds_box};
ghost use Rattle.base_answers.specs.Outcomes.{left_list};
ghost use Rattle.call_window.specs.Filled.{Filled};

use base_geometry::bounds::Bounds;
use spec_calls::ChartView;
use spec_charts::Refusal;

// The places of the list.
const LIST_PLACES: usize = base_tables::MOST_TRIANGLES;

// What lies in the window, on the list, and zeros after it; how many triangles they are.
fn fill(chart: ChartView, w: Bounds, list: &mut [u16]) -> usize
    requires chart { (too_short (viewed chart) ≡ false) × (chain_rule (viewed chart) ≡ true) }
    requires window { (empty_window (bounds_box w) ≡ false) × (window_length ≤ length list.old) }
    ensures { Filled (window_of (chart_table (viewed chart.entry)) (chart_entries (viewed chart.entry)) (bounds_box w)) list.old list.new result }
{
    let mut near = [false; window_cells::MARKS];
    window_cells::mark_near(
        chart.keys,
        chart.levels,
        chart.items,
        chart.entries,
        w,
        &mut near,
    );
    let listed = window_triangles::list_window(chart.table, chart.triangles, w, &near, list);
    list[listed..LIST_PLACES].fill(0);
    listed
}

// Window: every triangle of the chart that has a point in common with the closed rectangle, ascending; how many are listed.
pub fn window(chart: ChartView, w: Bounds, list: &mut [u16]) -> Result<usize, Refusal>
    ensures { left_list list result ≡ window_call (viewed chart.entry) (bounds_box w) list.old }
{
    if chart_rule::too_short(chart) | (list.len() < LIST_PLACES) {
        return Err(Refusal::ShortBuffer);
    }
    if !chart_rule::chain_rule(chart) {
        return Err(Refusal::BrokenChain);
    }
    if (w.right < w.left) | (w.bottom < w.top) {
        return Err(Refusal::EmptyWindow);
    }
    Ok(fill(chart, w, list))
}
