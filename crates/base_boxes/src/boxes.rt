// Bounding boxes of a table's triangles: their four sides in four arrays, one place for each triangle. They are not one array of boxes, so
// that the same side of many boxes is read, and compared, at once.

ghost use Rattle.std.specs.Prelude.{◌≡◌, ◌||◌, cond, ◌+◌, ◌*◌, ◌≤◌, ◌<◌, leb, length, set};
ghost use Rattle.spec_plane.specs.Box.{triangle_box};
ghost use Rattle.spec_charts.specs.Table.{numbers_per_triangle, max_triangles, triangle_at};
ghost use Rattle.base_geometry.specs.Bounds.{bounds_box};
ghost use Rattle.base_boxes.specs.Boxes.{separate, box_at, boxes_given, Places, Boxable, Stored, Boxes};

use base_geometry::bounds;
use base_geometry::bounds::Bounds;
use base_tables::MOST_TRIANGLES;

// The boxes of a table's triangles: at place i the four sides of the box of triangle i.
#[derive(Drop)]
pub struct BoxTable {
    pub lefts: [u16; MOST_TRIANGLES],
    pub tops: [u16; MOST_TRIANGLES],
    pub rights: [u16; MOST_TRIANGLES],
    pub bottoms: [u16; MOST_TRIANGLES],
}

// The bounding box of triangle i.
pub fn triangle_box(table: &[u16], i: usize) -> Bounds
    requires { numbers_per_triangle * (i + 1) ≤ length table.now }
    ensures { bounds_box result ≡ triangle_box (triangle_at table.now i) }
{
    bounds::triangle_bounds(base_tables::triangle_at(table, i))
}

// A box and the one at place j of four lists have no more than a border in common.
pub fn is_separate(
    b: Bounds,
    lefts: &[u16],
    tops: &[u16],
    rights: &[u16],
    bottoms: &[u16],
    j: usize,
) -> bool
    requires { Places lefts.now tops.now rights.now bottoms.now (j + 1) }
    ensures { result ≡ separate (bounds_box b) (boxes_given lefts tops rights bottoms j) }
{
    (b.right <= lefts[j]) | (rights[j] <= b.left) | (b.bottom <= tops[j]) | (bottoms[j] <= b.top)
}

impl BoxTable {
    // No triangle's box yet.
    pub const EMPTY: BoxTable = BoxTable {
        lefts: [0; MOST_TRIANGLES],
        tops: [0; MOST_TRIANGLES],
        rights: [0; MOST_TRIANGLES],
        bottoms: [0; MOST_TRIANGLES],
    };

    // The bounding box of triangle i of a table, to place i.
    fn put_box(&mut self, table: &[u16], i: usize)
        requires { Boxable table.now (i + 1) }
        ensures { Stored (triangle_box (triangle_at table.now i)) i self.old self.new }
    {
        let b = triangle_box(table, i);
        self.lefts[i] = b.left;
        self.tops[i] = b.top;
        self.rights[i] = b.right;
        self.bottoms[i] = b.bottom;
    }

    // The bounding boxes of the first n triangles of a table.
    pub fn put_boxes(&mut self, table: &[u16], n: usize)
        requires { Boxable table.now n }
        ensures { Boxes table.now self.new n }
    {
        for i in 0..n {
            self.put_box(table, i);
        }
    }

    // A box and the one at place j have no more than a border in common.
    pub fn is_separate(&self, b: Bounds, j: usize) -> bool
        requires { j < max_triangles }
        ensures { result ≡ separate (bounds_box b) (box_at self.now j) }
    {
        is_separate(b, &self.lefts, &self.tops, &self.rights, &self.bottoms, j)
    }

    // Place j, appended to the first c of the list where j is below m and the box there overlaps b: it is stored in any case, so that there
    // is no branch, and the number returned says whether it counts.
    // Kept: the count beside the list, since place c, past what is listed, is written.
    pub fn append_if_near(
        &self,
        b: Bounds,
        j: usize,
        m: usize,
        near: &mut [usize],
        c: usize,
    ) -> usize
        requires { (j < max_triangles) × (c < length near.old) }
        ensures near_after { near.new ≡ set near.old c j }
        ensures value { result ≡ cond (separate (bounds_box b) (box_at self.now j) || leb m j) c (c + 1) }
    {
        near[c] = j;
        if self.is_separate(b, j) | (m <= j) {
            c
        } else {
            c + 1
        }
    }
}
