// What depends on a triangle alone, worked out once for a table: the numbers of its sides and its box by which `shapes` tests
// boxes, the offsets V(p) of its sides, and its corners as one number each.

#![tactic(auto)]

ghost use Rattle.std.specs.Prelude.{◌≡◌, ◌+◌, ◌≤◌, length};
ghost use Rattle.std.proofs.lemmas.List.Edits.{sets};
ghost use Rattle.spec_plane.specs.Triangle.{triangle_of};
ghost use Rattle.spec_charts.specs.Table.{triangle_at, table_of};
ghost use Rattle.base_geometry.specs.Bounds.{bounds_box};
ghost use Rattle.quadtree_shapes.specs.Shape.{triangle_sides, triangle_corners, line_numbers, box_numbers, side_numbers, shape_numbers, at_most, box_shape, line_shape, side_shape, shape_of, side_offset, offsets_of, packed_point, corners_of};
ghost use Rattle.quadtree_prepare.specs.Prepare.{Preparable, StoredShape, StoredShapes};

use base_geometry::bounds;
use base_geometry::bounds::Bounds;
use quadtree_shapes::shapes;
use spec_plane::Point;

// 1 where a is at most b, otherwise 0.
fn flag(a: u16, b: u16) -> u16
    ensures { result ≡ at_most a b }
{
    u16::from(a <= b)
}

// V(p) of the side from p to q.
fn offset(p: Point, q: Point) -> u64
    ensures { result ≡ side_offset p q }
{
    let x = u64::from(p.x);
    let y = u64::from(p.y);
    shapes::weighted(
        p.y.abs_diff(q.y),
        shapes::choose_by_flag(flag(q.y, p.y), 65536 - x, x),
    ) + shapes::weighted(
        q.x.abs_diff(p.x),
        shapes::choose_by_flag(flag(p.x, q.x), 65536 - y, y),
    )
}

// The numbers of a box, from k on.
fn put_box(shape: &mut [u16], k: usize, b: Bounds)
    requires { k + box_numbers ≤ length shape.old }
    ensures { shape.new ≡ sets shape.old k (box_shape (bounds_box b)) }
{
    shape[k] = b.left;
    shape[k + 1] = b.top;
    shape[k + 2] = b.right;
    shape[k + 3] = b.bottom;
}

// The numbers of the line of the side from p to q, from k on.
fn put_line(shape: &mut [u16], k: usize, p: Point, q: Point)
    requires { k + line_numbers ≤ length shape.old }
    ensures { shape.new ≡ sets shape.old k (line_shape p q) }
{
    shape[k] = p.y.abs_diff(q.y);
    shape[k + 1] = q.x.abs_diff(p.x);
    shape[k + 2] = flag(q.y, p.y);
    shape[k + 3] = flag(p.x, q.x);
}

// The numbers of the side from p to q, from k on.
fn put_side(shape: &mut [u16], k: usize, p: Point, q: Point)
    requires { k + side_numbers ≤ length shape.old }
    ensures { shape.new ≡ sets shape.old k (side_shape p q) }
{
    put_line(shape, k, p, q);
    put_box(shape, k + shapes::LINE_NUMBERS, bounds::side_bounds(p, q));
}

// The numbers of a triangle, from k on.
fn put_shape(shape: &mut [u16], k: usize, t: [Point; 3])
    requires { k + shape_numbers ≤ length shape.old }
    ensures { shape.new ≡ sets shape.old k (shape_of (triangle_of t)) }
{
    put_side(shape, k, t[0], t[1]);
    put_side(shape, k + shapes::SECOND_SIDE, t[1], t[2]);
    put_side(shape, k + shapes::THIRD_SIDE, t[2], t[0]);
    put_box(shape, k + shapes::WHOLE_BOX, bounds::triangle_bounds(t));
}

// The offsets of a triangle's sides, from k on.
fn put_offsets(offsets: &mut [u64], k: usize, t: [Point; 3])
    requires { k + triangle_sides ≤ length offsets.old }
    ensures { offsets.new ≡ sets offsets.old k (offsets_of (triangle_of t)) }
{
    offsets[k] = offset(t[0], t[1]);
    offsets[k + 1] = offset(t[1], t[2]);
    offsets[k + 2] = offset(t[2], t[0]);
}

// A point as one number.
fn packed_point(p: Point) -> u32
    ensures { result ≡ packed_point p }
{
    u32::from(p.x) + 65536 * u32::from(p.y)
}

// The corners of a triangle, from k on.
fn put_corners(corners: &mut [u32], k: usize, t: [Point; 3])
    requires { k + triangle_corners ≤ length corners.old }
    ensures { corners.new ≡ sets corners.old k (corners_of (triangle_of t)) }
{
    corners[k] = packed_point(t[0]);
    corners[k + 1] = packed_point(t[1]);
    corners[k + 2] = packed_point(t[2]);
}

// Triangle i of the table.
fn prepare_triangle(
    table: &[u16],
    i: usize,
    shape: &mut [u16],
    offsets: &mut [u64],
    corners: &mut [u32],
)
    requires { Preparable (i + 1) table.now shape.old offsets.old corners.old }
    ensures { StoredShape (triangle_at table.now i) i shape.old offsets.old corners.old shape.new offsets.new corners.new }
{
    let t = base_tables::triangle_at(table, i);
    put_shape(shape, shapes::SHAPE_NUMBERS * i, t);
    put_offsets(offsets, shapes::TRIANGLE_SIDES * i, t);
    put_corners(corners, shapes::TRIANGLE_CORNERS * i, t);
}

// The numbers of the first n triangles of a table.
pub fn prepare(table: &[u16], n: usize, shape: &mut [u16], offsets: &mut [u64], corners: &mut [u32])
    requires { Preparable n table.now shape.old offsets.old corners.old }
    ensures { StoredShapes (table_of table.now n) shape.old offsets.old corners.old shape.new offsets.new corners.new }
{
    for i in 0..n {
        prepare_triangle(table, i, shape, offsets, corners);
    }
}
