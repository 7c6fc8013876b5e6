// The chain rule of a chart's lent buffers, and refusals 1 and 2.

#![tactic(auto)]

mod entry_chains;

ghost use Rattle.std.specs.Prelude.{◌≡◌, false, ◌*◌, ◌≤◌, length};
ghost use Rattle.theory_lists.specs.Lists.{all};
ghost use Rattle.spec_plane.specs.Triangle.{proper};
ghost use Rattle.spec_charts.specs.Table.{numbers_per_triangle, table_of, table_length};
ghost use Rattle.spec_charts.specs.Cells.{max_entries};
ghost use Rattle.spec_charts.specs.Refusals.{done};
ghost use Rattle.spec_calls.specs.Buffers.{Roomy, too_short, table_rule, entries_rule, chain_rule};
ghost use Rattle.spec_calls.specs.Lent.{viewed};
ghost use Rattle.spec_calls.specs.Calls.{if_chained};
ghost use Rattle.base_answers.specs.Outcomes.{outcome_of};

use base_geometry::geometry;
use spec_calls::ChartView;
use spec_charts::Refusal;

// Each of the first n triangles has D > 0.
pub fn all_proper(table: &[u16], n: usize) -> bool
    requires { numbers_per_triangle * n ≤ length table.now }
    ensures { result ≡ all (λ t. proper t) (table_of table.now n) }
{
    let mut ok = true;
    for i in 0..n {
        ok &= geometry::is_proper(base_tables::triangle_at(table, i));
    }
    ok
}

// A lent buffer is too short.
pub fn too_short(chart: ChartView) -> bool
    ensures { result ≡ too_short (viewed chart.entry) }
{
    (chart.table.len() < base_tables::TABLE_NUMBERS)
        | (chart.keys.len() < base_tables::MOST_ENTRIES)
        | (chart.levels.len() < base_tables::MOST_ENTRIES)
        | (chart.items.len() < base_tables::MOST_ENTRIES)
}

// The table's part of the chain rule: at most 512 triangles, each with D > 0.
pub fn table_rule(table: &[u16], triangles: usize) -> bool
    requires { table_length ≤ length table.now }
    ensures { result ≡ table_rule table.now triangles }
{
    if triangles > base_tables::MOST_TRIANGLES {
        return false;
    }
    all_proper(table, triangles)
}

// The entries' part: 1 to 16,384 of them, which are a chain.
pub fn entries_rule(chart: ChartView) -> bool
    requires { Roomy max_entries chart.keys.now chart.levels.now chart.items.now }
    ensures { result ≡ entries_rule (viewed chart.entry) }
{
    if chart.entries > base_tables::MOST_ENTRIES {
        return false;
    }
    entry_chains::chain_holds(
        chart.keys,
        chart.levels,
        chart.items,
        chart.triangles,
        chart.entries,
    )
}

// The chain rule, for any counts.
pub fn chain_rule(chart: ChartView) -> bool
    requires { too_short (viewed chart) ≡ false }
    ensures { result ≡ chain_rule (viewed chart.entry) }
{
    table_rule(chart.table, chart.triangles) & entries_rule(chart)
}

// Refusals 1 and 2 of a chart, in their order.
pub fn judge(chart: ChartView) -> Result<(), Refusal>
    ensures { outcome_of result ≡ if_chained (viewed chart.entry) (done tt) }
{
    if too_short(chart) {
        return Err(Refusal::ShortBuffer);
    }
    if !chain_rule(chart) {
        return Err(Refusal::BrokenChain);
    }
    Ok(())
}
