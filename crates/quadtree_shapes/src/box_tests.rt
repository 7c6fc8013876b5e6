// A box tested against a triangle, and against one of its sides, by the numbers that `shapes` keeps of the triangle.

ghost use Rattle.std.specs.Prelude.{◌≡◌, ◌+◌, ◌≤◌, length};
ghost use Rattle.spec_plane.specs.Box.{Framed};
ghost use Rattle.quadtree_shapes.specs.Shape.{box_numbers, side_numbers, frame_box, Testable, touches_at, triangle_meets_at, side_meets_at};

use crate::shapes;
use crate::shapes::Frame;

// The box whose numbers start at k is not strictly apart from the frame.
fn touches(shape: &[u16], k: usize, f: Frame) -> bool
    requires { k + box_numbers ≤ length shape.now }
    ensures { result ≡ touches_at shape.now k (frame_box f) }
{
    (f.left <= u64::from(shape[k + 2]))
        & (u64::from(shape[k]) <= f.right)
        & (f.top <= u64::from(shape[k + 3]))
        & (u64::from(shape[k + 1]) <= f.bottom)
}

// Triangle i meets the frame.
pub fn triangle_meets(shape: &[u16], offsets: &[u64], i: usize, f: Frame) -> bool
    requires { Testable i shape.now offsets.now (frame_box f) }
    ensures { result ≡ triangle_meets_at shape.now offsets.now i (frame_box f) }
{
    let k = shapes::SHAPE_NUMBERS * i;
    if touches(shape, k + shapes::WHOLE_BOX, f) {
        let v = shapes::TRIANGLE_SIDES * i;
        return (offsets[v] <= shapes::largest_value(shape, k, f))
            & (offsets[v + 1] <= shapes::largest_value(shape, k + shapes::SECOND_SIDE, f))
            & (offsets[v + 2] <= shapes::largest_value(shape, k + shapes::THIRD_SIDE, f));
    }
    false
}

// The side whose numbers start at k, with the offset v, meets the frame, where its triangle does: V reaches v then.
pub fn side_meets(shape: &[u16], k: usize, v: u64, f: Frame) -> bool
    requires { (k + side_numbers ≤ length shape.now) × Framed (frame_box f) }
    ensures { result ≡ side_meets_at shape.now k v (frame_box f) }
{
    touches(shape, k + shapes::LINE_NUMBERS, f) & (shapes::smallest_value(shape, k, f) <= v)
}
