// The public calls insert, take-out and flip of a chart. A refusal leaves lists and counts as they were.

#![tactic(auto)]

mod chart_edit;

ghost use Rattle.std.specs.Prelude.{◌≡◌};
ghost use Rattle.spec_calls.specs.Calls.{insert_call, take_out_call, flip_call};
ghost use Rattle.spec_calls.specs.Lent.{viewed_mut, SameLists};
ghost use Rattle.base_answers.specs.Outcomes.{answered};

use edit_steps::Edit;
use spec_calls::ChartMut;
use spec_charts::Refusal;
use spec_plane::Point;

// Insert: of the point p.
pub fn insert(chart: &mut ChartMut, p: Point) -> Result<(), Refusal>
    ensures inserted { answered result (viewed_mut chart.new) ≡ insert_call p (viewed_mut chart.old) }
    ensures same_lists { SameLists chart.old chart.new }
{
    chart_edit::edit_chart(chart, Edit::Insert(p))
}

// Take-out: of the point p.
pub fn take_out(chart: &mut ChartMut, p: Point) -> Result<(), Refusal>
    ensures taken_out { answered result (viewed_mut chart.new) ≡ take_out_call p (viewed_mut chart.old) }
    ensures same_lists { SameLists chart.old chart.new }
{
    chart_edit::edit_chart(chart, Edit::TakeOut(p))
}

// Flip: triangles i and j.
pub fn flip(chart: &mut ChartMut, i: usize, j: usize) -> Result<(), Refusal>
    ensures flipped { answered result (viewed_mut chart.new) ≡ flip_call i j (viewed_mut chart.old) }
    ensures same_lists { SameLists chart.old chart.new }
{
    chart_edit::edit_chart(chart, Edit::Flip(i, j))
}
