// Whether two triangles have a common interior point. The coordinate differences of the first triangle's sides are worked out once
// (`differences`) and handed to the test of each pair.

#![tactic(auto)]

mod corners;
pub mod differences;

ghost use Rattle.std.specs.Prelude.{◌≡◌, ◌↔◌, T};
ghost use Rattle.spec_plane.specs.Triangle.{Triangle, triangle_of, proper};
ghost use Rattle.spec_plane.specs.Interior.{interiors_meet, CommonInterior};
ghost use Rattle.base_interiors.specs.Differences.{SmallDifferences, DifferencesOf};

use corners::HIGH;
use differences::Differences;
use spec_plane::Point;

// Some point is strictly inside both t and the triangle that has these differences, where both have D > 0: no side of either separates
// them. Two tests end it early; nothing else branches.
pub fn interiors_meet(d: Differences, t: [Point; 3]) -> bool
    requires { SmallDifferences d }
    ensures value { (s : Triangle) → DifferencesOf s d → result ≡ interiors_meet s (triangle_of t) }
    ensures variant { (s : Triangle) → DifferencesOf s d → T (proper s) → T (proper (triangle_of t)) → CommonInterior s (triangle_of t) ↔ T result }
{
    let r = corners::offsets_by(d.x, d.y, t);
    let ab = corners::of_first(d.ab, r);
    if corners::joined(ab) < HIGH {
        return false;
    }
    let ca = corners::of_first(d.ca, r);
    let bc = corners::of_third(d.third, ab, ca);
    if (corners::joined(ca) & corners::joined(bc)) < HIGH {
        return false;
    }
    let p = corners::of_second(r.a, r.b, ab.a, ab.b, ca.a, ca.b);
    let q = corners::of_second(r.b, r.c, ab.b, ab.c, ca.b, ca.c);
    let u = corners::of_second(r.c, r.a, ab.c, ab.a, ca.c, ca.a);
    HIGH <= (corners::joined(p) & corners::joined(q) & corners::joined(u))
}
