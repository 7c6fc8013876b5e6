// Insert: the lowest numbered triangle of a plain table that holds the point is split, inside or on a side. The new table is written into
// a scratch table.

#![tactic(auto)]

mod holders;

ghost use Rattle.std.specs.Prelude.{◌≡◌, ◌≤◌, ◌<◌};
ghost use Rattle.spec_charts.specs.Table.{max_triangles, triangle_at, table_of};
ghost use Rattle.spec_charts.specs.Edits.{insert_in, insert_table};
ghost use Rattle.edit_rows.specs.Edited.{edited_outcome, edited_count};
ghost use Rattle.edit_rows.specs.Workspace.{Workspace};

use base_geometry::geometry;
use spec_charts::Refusal;
use spec_plane::{Point, Position};

// Insert into triangle i, by which p lies at q.
fn insert_in(
    table: &[u16],
    n: usize,
    i: usize,
    q: Position,
    p: Point,
    scratch: &mut [u16],
) -> Result<usize, Refusal>
    requires i_lt_n { i < n }
    requires workspace { Workspace table.now n scratch.old }
    ensures scratch_after { edited_outcome result scratch.new ≡ insert_in i (triangle_at table.now i) q p (table_of table.now n) }
    ensures result_bound { edited_count result ≤ max_triangles }
{
    let t = base_tables::triangle_at(table, i);
    if base_positions::is_inside(q) {
        return edit_split::split_row(table, n, i, t, p, scratch);
    }
    let Some(k) = edit_side_split::side_rotation(q) else {
        return Err(Refusal::AtCorner);
    };
    edit_side_split::side_split_row(table, n, i, geometry::rotated(t, k), p, scratch)
}

// Insert of p.
pub fn insert_table(
    table: &[u16],
    n: usize,
    p: Point,
    scratch: &mut [u16],
) -> Result<usize, Refusal>
    requires { Workspace table.now n scratch.old }
    ensures scratch_after { edited_outcome result scratch.new ≡ insert_table p (table_of table.now n) }
    ensures result_bound { edited_count result ≤ max_triangles }
{
    let Some(holder) = holders::lowest_holder(table, n, p) else {
        return Err(Refusal::NoHolder);
    };
    insert_in(table, n, holder.number, holder.position, p, scratch)
}
