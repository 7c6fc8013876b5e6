// Soundness of a chart.

#![tactic(auto)]

mod disjoint;

ghost use Rattle.std.specs.Prelude.{◌≡◌};
ghost use Rattle.spec_calls.specs.Calls.{sound_call};
ghost use Rattle.spec_calls.specs.Lent.{viewed};
ghost use Rattle.base_answers.specs.Outcomes.{soundness_of};

use spec_calls::ChartView;
use spec_charts::Refusal;

// Soundness: whether no two different triangle numbers have a point strictly inside both.
pub fn soundness(chart: ChartView) -> Result<bool, Refusal>
    ensures { soundness_of result ≡ sound_call (viewed chart.entry) }
{
    chart_rule::judge(chart)?;
    Ok(disjoint::all_disjoint(chart.table, chart.triangles))
}
