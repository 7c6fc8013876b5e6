// The sides of a triangle that meet a frame, as a mask of three bits, and those of them that have no end in a point.

ghost use Rattle.std.specs.Prelude.{◌≡◌, ◌<◌, eqb};
ghost use Rattle.theory_lists.specs.Lists.{all};
ghost use Rattle.theory_lists.specs.Masks.{mask_of, masked};
ghost use Rattle.spec_plane.specs.Triangle.{sides};
ghost use Rattle.spec_charts.specs.Cells.{is_end};
ghost use Rattle.quadtree_shapes.specs.Shape.{frame_box, Testable};
ghost use Rattle.quadtree_shapes.specs.Masks.{side_masks, unpacked, unpacked_triangle, start_of, sides_met};

use crate::shapes::Frame;
use crate::{box_tests, shapes};

// The bits of the sides in a mask.
const AB: u32 = 1;

const BC: u32 = 2;

const CA: u32 = 4;

const ALL_SIDES: u32 = AB + BC + CA;

// The sides of which a, b and c are ends.
const SIDES_AT_A: u32 = CA + AB;

const SIDES_AT_B: u32 = AB + BC;

const SIDES_AT_C: u32 = BC + CA;

// The sides of triangle i, which meets the frame, that meet it too, as a mask.
pub fn sides_met(shape: &[u16], offsets: &[u64], i: usize, f: Frame) -> u32
    requires { Testable i shape.now offsets.now (frame_box f) }
    ensures { (result ≡ mask_of (sides_met shape.now offsets.now (frame_box f) i)) × (result < side_masks) }
{
    let k = shapes::SHAPE_NUMBERS * i;
    let v = shapes::TRIANGLE_SIDES * i;
    let ab = box_tests::side_meets(shape, k, offsets[v], f);
    let bc = box_tests::side_meets(shape, k + shapes::SECOND_SIDE, offsets[v + 1], f);
    let ca = box_tests::side_meets(shape, k + shapes::THIRD_SIDE, offsets[v + 2], f);
    (ab as u32) + BC * (bc as u32) + CA * (ca as u32)
}

// Those of the sides in the mask m that have no end in p, in the triangle with the corners a, b, c.
pub fn missed(m: u32, p: u32, a: u32, b: u32, c: u32) -> u32
    requires { m < side_masks }
    ensures { eqb result 0 ≡ all (λ d. is_end (unpacked p) d) (masked m (sides (unpacked_triangle a b c))) }
{
    let pa = (p == a) as u32;
    let pb = (p == b) as u32;
    let pc = (p == c) as u32;
    m & (ALL_SIDES ^ (SIDES_AT_A * pa | SIDES_AT_B * pb | SIDES_AT_C * pc))
}

// The corner where the first side of the mask starts.
pub fn start_of(m: u32, a: u32, b: u32, c: u32) -> u32
    ensures { result ≡ start_of m a b c }
{
    if m % 2 == 1 {
        return a;
    }
    if m / 2 % 2 == 1 {
        return b;
    }
    c
}
