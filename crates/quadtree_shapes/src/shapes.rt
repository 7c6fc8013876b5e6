// Numbers that depend on a triangle alone, by which boxes are tested: for each side the sizes and signs of D's coefficients and
// its bounding box, and the triangle's bounding box. A box is tested by one corner for each side, and by no signed number.
//
// For a side from p to q let X(c) be c.x where q.y <= p.y, and 65536 - c.x elsewhere; let Y(c) be c.y where p.x <= q.x, and
// 65536 - c.y elsewhere. Then D(p,q,c) = V(c) - V(p), where V(c) = |p.y - q.y| X(c) + |q.x - p.x| Y(c).

ghost use Rattle.std.specs.Prelude.{◌≡◌, ◌+◌, ◌*◌, ◌≤◌, length, get_or};
ghost use Rattle.spec_plane.specs.Box.{Framed};
ghost use Rattle.quadtree_shapes.specs.Shape.{line_numbers, chosen, frame_box, value_of, largest_at, smallest_at};

// The sides of a triangle, each with an offset, and its corners.
pub const TRIANGLE_SIDES: usize = 3;

pub const TRIANGLE_CORNERS: usize = 3;

// The numbers of a side's line, of a box, of a side, and of a triangle.
pub const LINE_NUMBERS: usize = 4;

pub const BOX_NUMBERS: usize = 4;

pub const SIDE_NUMBERS: usize = LINE_NUMBERS + BOX_NUMBERS;

pub const SHAPE_NUMBERS: usize = TRIANGLE_SIDES * SIDE_NUMBERS + BOX_NUMBERS;

// Where the second and third side of a triangle and its box start among its numbers.
pub const SECOND_SIDE: usize = SIDE_NUMBERS;

pub const THIRD_SIDE: usize = 2 * SIDE_NUMBERS;

pub const WHOLE_BOX: usize = TRIANGLE_SIDES * SIDE_NUMBERS;

// A box of the grid: left ≤ right ≤ 65536 and top ≤ bottom ≤ 65536, which `Bounds` of base_geometry does not hold. It is compared with one
// box at a time and its sides are factors of products, so it has the products' width.
#[derive(Clone, Copy)]
pub struct Frame {
    pub left: u64,
    pub top: u64,
    pub right: u64,
    pub bottom: u64,
}

// The low one where the flag is 0, otherwise the high one.
pub fn choose_by_flag(flag: u16, low: u64, high: u64) -> u64
    requires { (low ≤ 65536) × (high ≤ 65536) }
    ensures { (result ≡ chosen flag low high) × (result ≤ 65536) }
{
    if flag == 0 { low } else { high }
}

// A coordinate times its weight.
pub fn weighted(weight: u16, coordinate: u64) -> u64
    requires { coordinate ≤ 65536 }
    ensures { (result ≡ weight * coordinate) × (result ≤ 65535 * 65536) }
{
    u64::from(weight) * coordinate
}

// V at a point, for the line whose numbers start at k: mx and my are the mirrored x and y.
fn value_at(shape: &[u16], k: usize, mx: u64, x: u64, my: u64, y: u64) -> u64
    requires { (k + line_numbers ≤ length shape.now) × (((mx ≤ 65536) × (x ≤ 65536)) × ((my ≤ 65536) × (y ≤ 65536))) }
    ensures { result ≡ value_of (get_or shape.now k 0) (get_or shape.now (k + 1) 0) (get_or shape.now (k + 2) 0) (get_or shape.now (k + 3) 0) mx x my y }
{
    weighted(shape[k], choose_by_flag(shape[k + 2], mx, x))
        + weighted(shape[k + 1], choose_by_flag(shape[k + 3], my, y))
}

// V at the corner of the frame where it is largest, for the line whose numbers start at k.
pub fn largest_value(shape: &[u16], k: usize, f: Frame) -> u64
    requires { (k + line_numbers ≤ length shape.now) × Framed (frame_box f) }
    ensures { result ≡ largest_at shape.now k (frame_box f) }
{
    value_at(shape, k, 65536 - f.left, f.right, 65536 - f.top, f.bottom)
}

// V at the corner where it is smallest.
pub fn smallest_value(shape: &[u16], k: usize, f: Frame) -> u64
    requires { (k + line_numbers ≤ length shape.now) × Framed (frame_box f) }
    ensures { result ≡ smallest_at shape.now k (frame_box f) }
{
    value_at(shape, k, 65536 - f.right, f.left, 65536 - f.bottom, f.top)
}
