// Lists of calls, written as numbers, run on a chart.

#![tactic(auto)]

pub mod call_steps;

ghost use Rattle.std.specs.Prelude.{◌≡◌, [], ◌∷◌};
ghost use Rattle.spec_charts.specs.Edits.{load as Edits·load};
ghost use Rattle.spec_calls.specs.History.{chart_after};
ghost use Rattle.spec_calls.specs.Lent.{viewed_mut, SameLists};
ghost use Rattle.replay_calls.specs.Encoding.{decode};

use spec_calls::ChartMut;

// Makes the calls of a list on a chart, one after another.
fn run_calls(calls: &[u16], chart: &mut ChartMut)
    ensures ran { viewed_mut chart.new ≡ chart_after (decode calls.now) (viewed_mut chart.old) }
    ensures same_lists { SameLists chart.old chart.new }
{
    let mut left = calls;
    while let Some(size) = replay_calls::whole_call(left) {
        let (call, rest) = left.split_at(size);
        let _answer = call_steps::run_call(call, chart);
        left = rest;
    }
}

// Begins a chart with a load of the empty table, then makes the calls of a list on it.
pub fn run_history(calls: &[u16], chart: &mut ChartMut)
    ensures ran { viewed_mut chart.new ≡ chart_after (Edits·load [] ∷ decode calls.now) (viewed_mut chart.old) }
    ensures same_lists { SameLists chart.old chart.new }
{
    let _begun = call_load::load(&[], chart);
    run_calls(calls, chart);
}
