// The steps of an edit of a chart: the plain table is edited, and what is made is stored or the refusal answered.

#![tactic(auto)]

ghost use Rattle.std.specs.Prelude.{◌≡◌, false, ◌≤◌};
ghost use Rattle.spec_charts.specs.Table.{Drawn, max_triangles, table_of};
ghost use Rattle.spec_charts.specs.Refusals.{and_then};
ghost use Rattle.spec_charts.specs.Edits.{proposed, within_limit};
ghost use Rattle.spec_calls.specs.Buffers.{too_short};
ghost use Rattle.spec_calls.specs.Lent.{viewed_mut, SameLists};
ghost use Rattle.spec_calls.specs.Calls.{changed_by};
ghost use Rattle.base_answers.specs.Outcomes.{answered};
ghost use Rattle.edit_rows.specs.Edited.{edited_outcome, edited_count};
ghost use Rattle.edit_rows.specs.Workspace.{Workspace};
ghost use Rattle.edit_steps.specs.Edit.{event_of};

use spec_calls::ChartMut;
use spec_charts::Refusal;
use spec_plane::Point;

// An edit of a chart.
#[derive(Clone, Copy)]
pub enum Edit {
    Insert(Point),
    TakeOut(Point),
    Flip(usize, usize),
}

// What the edit makes of a plain table.
pub fn edit_table(
    edit: Edit,
    table: &[u16],
    n: usize,
    scratch: &mut [u16],
) -> Result<usize, Refusal>
    requires { Workspace table.now n scratch.old }
    ensures scratch_after { edited_outcome result scratch.new ≡ proposed (event_of edit) (table_of table.now n) }
    ensures result_bound { edited_count result ≤ max_triangles }
{
    match edit {
        Edit::Insert(p) => edit_insert::insert_table(table, n, p, scratch),
        Edit::TakeOut(p) => edit_take_out::take_out_table(table, n, p, scratch),
        Edit::Flip(i, j) => edit_flip::flip_table(table, n, i, j, scratch),
    }
}

// What an edit made in the scratch table becomes the chart, unless it has too many entries; or its refusal is answered.
// Kept: a match in place of `?`, so that the edits counts_exchanged, no_flip_as_8 and stale_entries_as_0 turn its refusal alone.
pub fn finish(
    made: Result<usize, Refusal>,
    scratch: &[u16],
    chart: &mut ChartMut,
) -> Result<(), Refusal>
    requires drawn { Drawn scratch.now (edited_count made) }
    requires long { too_short (viewed_mut chart.old) ≡ false }
    ensures finished { answered result (viewed_mut chart.new) ≡ changed_by (viewed_mut chart.old) (and_then (edited_outcome made scratch.now) (λ t. within_limit t)) }
    ensures same_lists { SameLists chart.old chart.new }
{
    match made {
        Ok(n) => chart_store::store(scratch, n, chart),
        Err(refusal) => Err(refusal),
    }
}
