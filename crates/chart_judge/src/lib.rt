// Refusals 1, 2 and 3 of a chart, before an edit.

#![tactic(auto)]

mod entry_checks;

ghost use Rattle.std.specs.Prelude.{◌≡◌};
ghost use Rattle.spec_charts.specs.Refusals.{done};
ghost use Rattle.spec_calls.specs.Calls.{if_indexed};
ghost use Rattle.spec_calls.specs.Lent.{viewed};
ghost use Rattle.base_answers.specs.Outcomes.{outcome_of};

use spec_calls::ChartView;
use spec_charts::Refusal;

// Refusals 1, 2 and 3 of a chart, in their order.
pub fn judge_edit(chart: ChartView) -> Result<(), Refusal>
    ensures { outcome_of result ≡ if_indexed (viewed chart.entry) (done tt) }
{
    chart_rule::judge(chart)?;
    if entry_checks::entries_match(chart) {
        Ok(())
    } else {
        Err(Refusal::StaleEntries)
    }
}
