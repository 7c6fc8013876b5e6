// The pairs of an overlay, from two tables and a table of marks: the marked pairs that have a common interior point, written in
// ascending order. A row's candidates are listed first; products are needed for these alone.

#![tactic(auto)]

mod pair_rows;
pub mod pair_writes;

ghost use Rattle.std.specs.Prelude.{◌≤◌, length};
ghost use Rattle.spec_charts.specs.Table.{Drawn};
ghost use Rattle.spec_calls.specs.Buffers.{pairs_length};
ghost use Rattle.overlay_marks.specs.PairMarks.{rows_length};
ghost use Rattle.overlay_pairs.specs.Pairs.{marked_pairs, Wrote};

use base_boxes::boxes::BoxTable;
use overlay_candidates::MarkedBoxes;

// Writes the marked pairs whose triangles have a common interior point, ascending: how many they are, or none where they are too many.
pub fn put_pairs(
    first: &[u16],
    first_triangles: usize,
    second: &[u16],
    second_triangles: usize,
    rows: &[u64],
    pairs: &mut [u16],
) -> Option<usize>
    requires drawn { Drawn first.now first_triangles × Drawn second.now second_triangles }
    requires rows_length_in_bounds { (rows_length ≤ length rows.now) × (pairs_length ≤ length pairs.old) }
    ensures { Wrote (marked_pairs first.now first_triangles second.now second_triangles rows.now) 0 result pairs.old pairs.new }
{
    let mut boxes = BoxTable::EMPTY;
    boxes.put_boxes(second, second_triangles);
    let marked = MarkedBoxes {
        boxes: &boxes,
        triangles: second_triangles,
        rows,
    };
    let mut near = [0usize; base_tables::MOST_TRIANGLES];
    pair_rows::put_rows(first, first_triangles, second, marked, &mut near, pairs)
}
