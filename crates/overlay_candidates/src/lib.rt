// The candidates of a row of marks: the marked places whose boxes overlap, listed without a branch but for each mark.

#![tactic(auto)]

ghost use Rattle.std.specs.Prelude.{◌+◌, ◌*◌, ◌<◌};
ghost use Rattle.spec_charts.specs.Table.{max_triangles};
ghost use Rattle.base_geometry.specs.Bounds.{bounds_box};
ghost use Rattle.base_boxes.specs.Boxes.{box_at};
ghost use Rattle.overlay_marks.specs.PairMarks.{row_words};
ghost use Rattle.overlay_candidates.specs.RowCandidates.{NearInRow, RowPlaces, Collected};

use base_boxes::boxes::BoxTable;
use base_geometry::bounds::Bounds;
use overlay_marks::bitsets;

// What the candidates of a row are found in: the boxes of the second table's triangles, so many, and the rows of marks.
#[derive(Clone, Copy)]
pub struct MarkedBoxes<'a> {
    pub boxes: &'a BoxTable,
    pub triangles: usize,
    pub rows: &'a [u64],
}

impl MarkedBoxes<'_> {
    // The candidates of word q of row i, after the first `found`: each mark of the word is looked at once. The box of triangle i is b.
    // Kept: the loop goes from mark to mark, so that no index is counted.
    fn collect_word(self, b: Bounds, i: usize, q: usize, near: &mut [usize], found: usize) -> usize
        requires row_places { RowPlaces self.rows.now near.old × ((i < max_triangles) × (q < row_words)) }
        requires near_in_row { NearInRow (bounds_box b) (box_at self.boxes.now) self.rows.now self.triangles i near.old (64 * q) found }
        ensures { Collected (bounds_box b) (box_at self.entry.boxes.now) self.entry.rows.now self.entry.triangles i near.old near.new (64 * (q + 1)) result }
    {
        let mut w = self.rows[overlay_marks::ROW_WORDS * i + q];
        let mut j = bitsets::WORD * q;
        let mut c = found;
        while w != 0 {
            let t = u64::trailing_zeros(w);
            j += t as usize;
            c = self.boxes.append_if_near(b, j, self.triangles, near, c);
            w = (w >> t) >> 1;
            j += 1;
        }
        c
    }

    // The candidates of row i.
    pub fn collect_row(self, b: Bounds, i: usize, near: &mut [usize]) -> usize
        requires { RowPlaces self.rows.now near.old × (i < max_triangles) }
        ensures { Collected (bounds_box b) (box_at self.entry.boxes.now) self.entry.rows.now self.entry.triangles i near.old near.new max_triangles result }
    {
        let mut c = 0;
        for q in 0..overlay_marks::ROW_WORDS {
            c = self.collect_word(b, i, q, near, c);
        }
        c
    }
}
