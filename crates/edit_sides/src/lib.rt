// Sides that two triangles share: the test, and the rotation of one that starts with a side of the other.

#![tactic(auto)]

ghost use Rattle.std.specs.Prelude.{◌≡◌};
ghost use Rattle.spec_plane.specs.Triangle.{triangle_of};
ghost use Rattle.spec_charts.specs.Edits.{rotations, shares_side};
ghost use Rattle.edit_sides.specs.Sharing.{first_sharing, RotationFound};

use base_geometry::geometry;
use spec_plane::Point;

// The side ab of s is the side ba of u.
#[tactic(auto, unfolding(spec_charts::specs::Edits::shares_side, spec_plane::specs::Triangle::triangle_of, spec_plane::specs::Triangle::corner_at, spec_plane::specs::Point::same_point))]
fn shares_side(s: [Point; 3], u: [Point; 3]) -> bool
    ensures { result ≡ shares_side (triangle_of s) (triangle_of u) }
{
    (s[0] == u[1]) & (s[1] == u[0])
}

// The number of the first rotation of u that shares the side ab of s.
pub fn sharing_rotation(s: [Point; 3], u: [Point; 3]) -> Option<usize>
    ensures { RotationFound (first_sharing (triangle_of s) (rotations (triangle_of u))) u result }
{
    for k in 0..3 {
        if shares_side(s, geometry::rotated(u, k)) {
            return Some(k);
        }
    }
    None
}
