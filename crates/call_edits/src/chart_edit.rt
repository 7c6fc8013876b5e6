// Any edit of a chart: it is judged, the edit makes a table in a scratch table, and that is stored with its entries.

ghost use Rattle.std.specs.Prelude.{◌≡◌};
ghost use Rattle.spec_calls.specs.Calls.{edit_call};
ghost use Rattle.spec_calls.specs.Lent.{viewed_mut, SameLists};
ghost use Rattle.base_answers.specs.Outcomes.{answered};
ghost use Rattle.edit_steps.specs.Edit.{event_of};

use edit_steps::Edit;
use spec_calls::ChartMut;
use spec_charts::Refusal;

// Any edit of a chart. A refusal leaves lists and counts as they were.
pub fn edit_chart(chart: &mut ChartMut, edit: Edit) -> Result<(), Refusal>
    ensures edited { answered result (viewed_mut chart.new) ≡ edit_call (event_of edit) (viewed_mut chart.old) }
    ensures same_lists { SameLists chart.old chart.new }
{
    let before = chart.view();
    chart_judge::judge_edit(before)?;
    let mut scratch = [0u16; base_tables::TABLE_NUMBERS];
    let made = edit_steps::edit_table(edit, before.table, before.triangles, &mut scratch);
    edit_steps::finish(made, &scratch, chart)
}
