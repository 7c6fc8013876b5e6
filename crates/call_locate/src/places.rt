// Where cell listing's part lies.

ghost use Rattle.std.specs.Prelude.{◌≡◌, ◌-◌, take, drop};
ghost use Rattle.spec_calls.specs.Calls.{listing_call};
ghost use Rattle.spec_calls.specs.Lent.{viewed};
ghost use Rattle.call_locate.specs.Places.{places_call, PartAt};

use read_cells::Part;
use spec_calls::ChartView;
use spec_plane::Point;

// Where the part that cell listing of p hands back lies in the items; 0 and 0 where it is empty.
pub fn cell_part(chart: ChartView, p: Point) -> Part
    ensures value { take (result.to - result.from) (drop result.from chart.entry.items.now) ≡ listing_call (viewed chart.entry) p }
    ensures part_at { PartAt chart.entry.items.now (places_call (viewed chart.entry) p) result.from result.to }
{
    let Ok(()) = chart_rule::judge(chart) else {
        return Part { from: 0, to: 0 };
    };
    read_cells::listed_part(chart.keys, chart.items, chart.entries, p)
}
