// Whether no two triangles of a table have a common interior point. Every pair is tested, so bounding boxes are worked out once for
// a table, and products are needed only where two boxes overlap. These are listed first, so that few branches are mispredicted. For
// a few triangles the boxes do not pay, and each pair is tested at once.

ghost use Rattle.std.specs.Prelude.{◌≡◌, not, ◌+◌, ◌*◌, ◌≤◌, length, get_or};
ghost use Rattle.theory_lists.specs.Lists.{all, up_to};
ghost use Rattle.spec_plane.specs.Interior.{interiors_meet};
ghost use Rattle.spec_charts.specs.Table.{numbers_per_triangle, triangle_at, table_of, Drawn};
ghost use Rattle.spec_charts.specs.Reading.{sound};
ghost use Rattle.base_boxes.specs.Boxes.{BoxedTable};
ghost use Rattle.base_boxes.specs.Near.{ListedRows};

use base_boxes::boxes;
use base_boxes::boxes::BoxTable;
use base_interiors::differences;

// The most triangles for which boxes do not pay.
const MOST_UNBOXED: usize = 16;

// Triangle i has a common interior point with none of the triangles of a list.
fn near_disjoint(table: &[u16], near: &[usize], i: usize) -> bool
    requires { ListedRows table.now near.now i }
    ensures { result ≡ all (λ k. not (interiors_meet (triangle_at table.now i) (triangle_at table.now (get_or near.now k 0)))) (up_to (length near.now)) }
{
    let sides = differences::differences_of(base_tables::triangle_at(table, i));
    for j in near {
        if base_interiors::interiors_meet(sides, base_tables::triangle_at(table, *j)) {
            return false;
        }
    }
    true
}

// Triangle i has a common interior point with none of those before it.
fn is_disjoint(table: &[u16], boxes: &BoxTable, near: &mut [usize], i: usize) -> bool
    requires { BoxedTable table.now boxes.now (i + 1) × (i ≤ length near.old) }
    ensures value { result ≡ all (λ k. not (interiors_meet (triangle_at table.now i) (triangle_at table.now k))) (up_to i) }
    ensures near_len_unchanged { length near.new ≡ length near.old }
{
    let b = boxes::triangle_box(table, i);
    let c = boxes.collect_before(b, i, near);
    near_disjoint(table, &near[..c], i)
}

// No two of the first n triangles have a common interior point.
fn pairs_disjoint(table: &[u16], boxes: &BoxTable, near: &mut [usize], n: usize) -> bool
    requires { BoxedTable table.now boxes.now n × (n ≤ length near.old) }
    ensures { result ≡ sound (table_of table.now n) }
{
    for i in 0..n {
        if !is_disjoint(table, boxes, near, i) {
            return false;
        }
    }
    true
}

// Triangle i has a common interior point with none of those before it, each tested at once.
// Kept: not one with near_disjoint, since it goes over a range and that over a list: the loop is all that the two have in common.
fn each_disjoint(table: &[u16], i: usize) -> bool
    requires { numbers_per_triangle * (i + 1) ≤ length table.now }
    ensures { result ≡ all (λ k. not (interiors_meet (triangle_at table.now i) (triangle_at table.now k))) (up_to i) }
{
    let sides = differences::differences_of(base_tables::triangle_at(table, i));
    for k in 0..i {
        if base_interiors::interiors_meet(sides, base_tables::triangle_at(table, k)) {
            return false;
        }
    }
    true
}

// No two of the first n triangles have a common interior point, each pair tested at once.
// Kept: not one with pairs_disjoint, which lends its list to each row: a closure for the row needs a longer contract than either loop.
fn few_disjoint(table: &[u16], n: usize) -> bool
    requires { numbers_per_triangle * n ≤ length table.now }
    ensures { result ≡ sound (table_of table.now n) }
{
    for i in 0..n {
        if !each_disjoint(table, i) {
            return false;
        }
    }
    true
}

// No two of the first n triangles, each with D > 0, have a common interior point.
pub fn all_disjoint(table: &[u16], n: usize) -> bool
    requires { Drawn table.now n }
    ensures { result ≡ sound (table_of table.now n) }
{
    if n <= MOST_UNBOXED {
        return few_disjoint(table, n);
    }
    let mut boxes = BoxTable::EMPTY;
    boxes.put_boxes(table, n);
    let mut near = [0usize; base_tables::MOST_TRIANGLES];
    pairs_disjoint(table, &boxes, &mut near, n)
}
