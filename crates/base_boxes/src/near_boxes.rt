// The boxes before a place that overlap a box, on a list: so many as there are lanes are tested at a time without a branch, and only where
// some of them overlap are they looked at one by one.

ghost use Rattle.std.specs.Prelude.{◌≡◌, ◌+◌, ◌≤◌};
ghost use Rattle.theory_lists.specs.Lists.{all, up_to};
ghost use Rattle.spec_charts.specs.Table.{max_triangles};
ghost use Rattle.base_geometry.specs.Bounds.{bounds_box};
ghost use Rattle.base_boxes.specs.Boxes.{separate, box_at};
ghost use Rattle.base_boxes.specs.Near.{lanes, Near, Collectable, Collected};

use crate::boxes::BoxTable;
use base_geometry::bounds::Bounds;

// How many boxes are tested at a time.
const LANES: usize = 16;

impl BoxTable {
    // A box is separate from all boxes in the lanes from place j on: no branch, so that they are compared side by side.
    fn lanes_separate(&self, b: Bounds, j: usize) -> bool
        requires { j + lanes ≤ max_triangles }
        ensures { result ≡ all (λ k. separate (bounds_box b) (box_at self.now (j + k))) (up_to lanes) }
    {
        let mut o = true;
        for k in 0..LANES {
            o &= self.is_separate(b, j + k);
        }
        o
    }

    // The places from j up to m whose boxes overlap b, after the c places of the list.
    fn collect(&self, b: Bounds, j: usize, m: usize, near: &mut [usize], c: usize) -> usize
        requires collectable { Collectable near.old m × (j ≤ m) }
        requires near { Near (bounds_box b) (box_at self.now) near.old j c }
        ensures { Collected (bounds_box b) (box_at self.now) near.old near.new m result }
    {
        let mut n = c;
        for k in j..m {
            n = self.append_if_near(b, k, m, near, n);
        }
        n
    }

    // Those in the lanes from place j on.
    fn collect_lanes(&self, b: Bounds, j: usize, near: &mut [usize], c: usize) -> usize
        requires collectable { Collectable near.old (j + lanes) }
        requires near { Near (bounds_box b) (box_at self.now) near.old j c }
        ensures { Collected (bounds_box b) (box_at self.now) near.old near.new (j + lanes) result }
    {
        if self.lanes_separate(b, j) {
            return c;
        }
        self.collect(b, j, j + LANES, near, c)
    }

    // All places before i whose boxes overlap b: so many as there are lanes at a time, then the few that are left.
    pub fn collect_before(&self, b: Bounds, i: usize, near: &mut [usize]) -> usize
        requires { Collectable near.old i }
        ensures { Collected (bounds_box b) (box_at self.now) near.old near.new i result }
    {
        let mut c = 0;
        for q in 0..i / LANES {
            c = self.collect_lanes(b, LANES * q, near, c);
        }
        self.collect(b, LANES * (i / LANES), i, near, c)
    }
}
