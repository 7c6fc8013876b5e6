// Tests on triangles. A triangle is an array of three corners by value; its rotations index it modulo 3.

ghost use Rattle.std.specs.Prelude.{◌≡◌, ◌+◌};
ghost use Rattle.spec_plane.specs.Triangle.{corner_at, triangle_of, rotated as Triangle·rotated, proper};

use crate::orientation;
use spec_plane::Point;

// Corner i, counted from 0 and modulo 3.
pub fn corner(t: [Point; 3], i: usize) -> Point
    ensures { result ≡ corner_at t i }
{
    t[i % 3]
}

// The triangle rotated so that corner i comes first.
pub fn rotated(t: [Point; 3], i: usize) -> [Point; 3]
    ensures { result ≡ Triangle·rotated t i }
{
    let k = i % 3;
    [t[k], t[(k + 1) % 3], t[(k + 2) % 3]]
}

// D(a,b,c) > 0.
pub fn is_proper(t: [Point; 3]) -> bool
    ensures { result ≡ proper (triangle_of t) }
{
    orientation::is_inner(t[0], t[1], t[2])
}
