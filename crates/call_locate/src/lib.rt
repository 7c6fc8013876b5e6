// Locate and cell listing.

#![tactic(auto)]

pub mod places;

ghost use Rattle.std.specs.Prelude.{◌≡◌, ℕ, ◌+◌, ◌*◌, ◌≤◌, ◌<◌, length, get_or};
ghost use Rattle.theory_lists.specs.Lists.{first};
ghost use Rattle.spec_plane.specs.Triangle.{holds};
ghost use Rattle.spec_plane.specs.Position.{position};
ghost use Rattle.spec_charts.specs.Table.{numbers_per_triangle, triangle_at};
ghost use Rattle.spec_calls.specs.Calls.{locate_call, listing_call};
ghost use Rattle.spec_calls.specs.Lent.{shown, viewed};
ghost use Rattle.read_cells.specs.Place.{OwnPart};
ghost use Rattle.base_answers.specs.Outcomes.{located_of};
ghost use Rattle.call_locate.specs.Holding.{found_of};
ghost use Rattle.call_locate.specs.Places.{places_call};

use base_answers::Found;
use spec_calls::ChartView;
use spec_charts::Refusal;
use spec_plane::Point;

// The first of the listed triangles that holds p, and where p lies by it.
fn first_holding(table: &[u16], list: &[u16], p: Point) -> Option<Found>
    requires { (k : ℕ) → k < length list.now → numbers_per_triangle * (get_or list.now k 0 + 1) ≤ length table.now }
    ensures { result ≡ found_of (λ i. position (triangle_at table.now i) p) (first (λ i. holds (triangle_at table.now i) p) list.now) }
{
    for k in 0..list.len() {
        let triangle = list[k];
        let t = base_tables::triangle_at(table, usize::from(triangle));
        let position = base_positions::position_in(t, p);
        if base_positions::is_held(position) {
            return Some(Found { triangle, position });
        }
    }
    None
}

// Cell listing of p: the triangle numbers of the cell whose key range has Z(p), as a part of the caller's own list; an empty
// part for the mark and at a refusal.
// Kept: the lists one by one, since the part that is handed back borrows the items alone, and would borrow all four lists of a view.
pub fn cell_listing<'a>(
    table: &[u16],
    keys: &[u32],
    levels: &[u8],
    items: &'a [u16],
    triangles: usize,
    entries: usize,
    p: Point,
) -> &'a [u16]
    ensures result_value { result.now ≡ listing_call (shown table keys levels items triangles entries) p }
    ensures own_part { OwnPart items.entry result (places_call (shown table keys levels items triangles entries) p) }
{
    let chart = ChartView {
        table,
        keys,
        levels,
        items,
        triangles,
        entries,
    };
    let part = places::cell_part(chart, p);
    let from = part.from;
    let to = part.to;
    &items[from..to]
}

// Locate p: the lowest numbered triangle, among those listed in the cell whose key range has Z(p), that holds p;
// and where p lies by it.
pub fn locate(chart: ChartView, p: Point) -> Result<Option<Found>, Refusal>
    ensures { located_of result ≡ locate_call (viewed chart.entry) p }
{
    chart_rule::judge(chart)?;
    let listed = read_cells::listing(chart.keys, chart.items, chart.entries, p);
    Ok(first_holding(chart.table, listed, p))
}
