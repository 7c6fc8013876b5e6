// Load: a table given as numbers becomes the chart.

#![tactic(auto)]

mod load_checks;

ghost use Rattle.std.specs.Prelude.{◌≡◌};
ghost use Rattle.spec_calls.specs.Calls.{load_call};
ghost use Rattle.spec_calls.specs.Lent.{viewed_mut, SameLists};
ghost use Rattle.base_answers.specs.Outcomes.{answered};

use spec_calls::ChartMut;
use spec_charts::Refusal;

// Load. A refusal leaves lists and counts as they were.
pub fn load(numbers: &[u16], chart: &mut ChartMut) -> Result<(), Refusal>
    ensures loaded { answered result (viewed_mut chart.new) ≡ load_call numbers.now (viewed_mut chart.old) }
    ensures same_lists { SameLists chart.old chart.new }
{
    let judged = load_checks::judge_load(numbers, chart.view());
    judged?;
    let n = numbers.len() / base_tables::TRIANGLE_NUMBERS;
    chart_store::store(numbers, n, chart)
}
