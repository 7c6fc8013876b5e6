// The pairs of one row of marks, and of all rows in their order.

ghost use Rattle.std.specs.Prelude.{◌≡◌, true, ◌≤◌, length};
ghost use Rattle.spec_plane.specs.Triangle.{proper};
ghost use Rattle.spec_charts.specs.Table.{triangle_at, Drawn};
ghost use Rattle.spec_calls.specs.Buffers.{pairs_length};
ghost use Rattle.overlay_pairs.specs.Pairs.{marked_pairs, Wrote, TriangleIn, PairsRoom, SecondTable, RowWrote};

use crate::pair_writes;
use base_boxes::boxes;
use overlay_candidates::MarkedBoxes;

// The pairs of row i, after those found. The marked boxes are those of the second table's triangles.
fn put_row(
    first: &[u16],
    second: &[u16],
    marked: MarkedBoxes,
    i: usize,
    near: &mut [usize],
    pairs: &mut [u16],
    found: usize,
) -> Option<usize>
    requires triangle_in { TriangleIn first.now i × (proper (triangle_at first.now i) ≡ true) }
    requires second_table { SecondTable second.now marked near.old }
    requires pairs_room { PairsRoom found pairs.old }
    ensures { RowWrote first.now second.now marked.entry.triangles marked.entry.rows.now i found result near pairs }
{
    let b = boxes::triangle_box(first, i);
    let d = marked.collect_row(b, i, near);
    pair_writes::put_near(first, i, second, &near[..d], pairs, found)
}

// The pairs of all rows, one for each triangle of the first table.
pub fn put_rows(
    first: &[u16],
    first_triangles: usize,
    second: &[u16],
    marked: MarkedBoxes,
    near: &mut [usize],
    pairs: &mut [u16],
) -> Option<usize>
    requires drawn { Drawn first.now first_triangles }
    requires second_table { SecondTable second.now marked near.old }
    requires pairs_length_in_bounds { pairs_length ≤ length pairs.old }
    ensures { Wrote (marked_pairs first.now first_triangles second.now marked.entry.triangles marked.entry.rows.now) 0 result pairs.old pairs.new }
{
    let mut found = 0;
    for i in 0..first_triangles {
        found = put_row(first, second, marked, i, near, pairs, found)?;
    }
    Some(found)
}
