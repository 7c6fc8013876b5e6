// Where a point lies by a triangle: the one test of a point against a triangle, and what is read from its answer.

#![tactic(auto)]

ghost use Rattle.std.specs.Prelude.{◌≡◌};
ghost use Rattle.spec_plane.specs.Triangle.{triangle_of};
ghost use Rattle.spec_plane.specs.Position.{position, position_of, position_number, is_held, is_inside};

use base_geometry::orientation;
use spec_plane::{Point, Position};

// By whether the triangle holds the point, and whether D is 0 for each of its sides.
#[tactic(auto, unfolding(spec_plane::specs::Position::position_of))]
fn position_by(held: bool, ab: bool, bc: bool, ca: bool) -> Position
    ensures { result ≡ position_of held ab bc ca }
{
    match (held, ab, bc, ca) {
        (false, _, _, _) => Position::Outside,
        (true, false, false, false) => Position::Inside,
        (true, true, false, false) => Position::OnAb,
        (true, false, true, false) => Position::OnBc,
        (true, false, false, true) => Position::OnCa,
        (true, true, _, true) => Position::AtA,
        (true, true, true, false) => Position::AtB,
        (true, false, true, true) => Position::AtC,
    }
}

// Where p lies by the triangle.
pub fn position_in(t: [Point; 3], p: Point) -> Position
    ensures { result ≡ position (triangle_of t) p }
{
    let ab = orientation::orientation(t[0], t[1], p);
    let bc = orientation::orientation(t[1], t[2], p);
    let ca = orientation::orientation(t[2], t[0], p);
    let held = (ab.low <= ab.high) & (bc.low <= bc.high) & (ca.low <= ca.high);
    position_by(
        held,
        ab.low == ab.high,
        bc.low == bc.high,
        ca.low == ca.high,
    )
}

// The triangle holds the point: it is not outside.
pub fn is_held(q: Position) -> bool
    ensures { result ≡ is_held q }
{
    !matches!(q, Position::Outside)
}

// The point is strictly inside the triangle.
pub fn is_inside(q: Position) -> bool
    ensures { result ≡ is_inside q }
{
    matches!(q, Position::Inside)
}

// Its number: 0 inside, 1 to 3 on a side, 4 to 6 at a corner, 7 outside.
// Kept: (d) as `From` it would stand in spec_plane, and calls would read `u64::from(u16::from(q))`, which does not say what the number is.
pub fn position_number(q: Position) -> u16
    ensures { result ≡ position_number q }
{
    match q {
        Position::Inside => 0,
        Position::OnAb => 1,
        Position::OnBc => 2,
        Position::OnCa => 3,
        Position::AtA => 4,
        Position::AtB => 5,
        Position::AtC => 6,
        Position::Outside => 7,
    }
}
