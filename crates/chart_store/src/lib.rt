// A new table stored in a chart with its entries: what loads and edits share.

#![tactic(auto)]

ghost use Rattle.std.specs.Prelude.{◌≡◌, false};
ghost use Rattle.spec_charts.specs.Table.{Drawn, table_of};
ghost use Rattle.spec_charts.specs.Edits.{within_limit};
ghost use Rattle.spec_calls.specs.Buffers.{too_short};
ghost use Rattle.spec_calls.specs.Calls.{changed_by};
ghost use Rattle.spec_calls.specs.Lent.{viewed_mut, SameLists};
ghost use Rattle.base_answers.specs.Outcomes.{answered};

use chart_lists::table_writes;
use spec_calls::ChartMut;
use spec_charts::Refusal;

// The proposed table of n triangles becomes the chart, with its entries; or it has too many of them, and lists and counts stay as
// they were.
pub fn store(proposed: &[u16], n: usize, chart: &mut ChartMut) -> Result<(), Refusal>
    requires drawn { Drawn proposed.now n }
    requires long { too_short (viewed_mut chart.old) ≡ false }
    ensures stored { answered result (viewed_mut chart.new) ≡ changed_by (viewed_mut chart.old) (within_limit (table_of proposed.now n)) }
    ensures same_lists { SameLists chart.old chart.new }
{
    let Some(m) = chart_index::build_into(proposed, n, chart.keys, chart.levels, chart.items) else {
        return Err(Refusal::TooManyEntries);
    };
    table_writes::put_table(proposed, base_tables::TRIANGLE_NUMBERS * n, chart.table);
    chart.triangles = n;
    chart.entries = m;
    Ok(())
}
