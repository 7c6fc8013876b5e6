// Doubled area: the sum over a chart's table.

#![tactic(auto)]

ghost use Rattle.std.specs.Prelude.{◌≡◌, true, ◌<◌};
ghost use Rattle.spec_plane.specs.Triangle.{proper, triangle_of, doubled_area};
ghost use Rattle.spec_charts.specs.Table.{Drawn, table_of};
ghost use Rattle.spec_charts.specs.Reading.{total_area};
ghost use Rattle.spec_calls.specs.Calls.{area_call};
ghost use Rattle.spec_calls.specs.Lent.{viewed};
ghost use Rattle.base_answers.specs.Outcomes.{area_of};

use base_geometry::orientation;
use spec_calls::ChartView;
use spec_charts::Refusal;
use spec_plane::Point;

// The doubled area of a triangle with D > 0.
fn doubled(t: [Point; 3]) -> u64
    requires { proper (triangle_of t) ≡ true }
    ensures { (result ≡ doubled_area (triangle_of t)) × (result < 17179869184) }
{
    let d = orientation::orientation(t[0], t[1], t[2]);
    d.high - d.low
}

// The sum over the first n triangles, each with D > 0.
fn sum(table: &[u16], n: usize) -> u64
    requires { Drawn table.now n }
    ensures { result ≡ total_area (table_of table.now n) }
{
    let mut s = 0;
    for i in 0..n {
        s += doubled(base_tables::triangle_at(table, i));
    }
    s
}

// Doubled area: the sum over the table.
pub fn doubled_area(chart: ChartView) -> Result<u64, Refusal>
    ensures { area_of result ≡ area_call (viewed chart.entry) }
{
    chart_rule::judge(chart)?;
    Ok(sum(chart.table, chart.triangles))
}
