// D at three corners at a time. Each number is raised, which means D + 2^40 - 1: that D > 0 is its highest bit, and what three numbers say
// is joined without a branch.

ghost use Rattle.std.specs.Prelude.{◌≡◌, ◌+◌, ◌*◌, ◌≤◌};
ghost use Rattle.spec_plane.specs.Triangle.{triangle_of};
ghost use Rattle.base_interiors.specs.Differences.{SmallSide, SmallOffset, Near, ThirdSmall};
ghost use Rattle.base_interiors.specs.Corners.{OffsetsBy, SmallOffsets, RaisedAll, NearAll, BelowAll, ThirdOf, AtA, SecondOf, Joined};

use crate::differences;
use crate::differences::{Offset, SideDifferences};
use spec_plane::Point;

// From here on a raised number says D > 0.
pub const HIGH: u64 = 1099511627776;

// Where the corners of a triangle lie from a.
#[derive(Clone, Copy)]
pub struct Offsets {
    pub a: Offset,
    pub b: Offset,
    pub c: Offset,
}

// D at the corners of a triangle, raised.
#[derive(Clone, Copy)]
pub struct Raised {
    pub a: u64,
    pub b: u64,
    pub c: u64,
}

// Where the corners of t lie, by 65536 less the coordinates of a.
pub fn offsets_by(x: u64, y: u64, t: [Point; 3]) -> Offsets
    requires { (x ≤ 65536) × (y ≤ 65536) }
    ensures { OffsetsBy x y (triangle_of t) result × SmallOffsets result }
{
    let a = differences::offset_by(x, y, t[0]);
    let b = differences::offset_by(x, y, t[1]);
    let c = differences::offset_by(x, y, t[2]);
    Offsets { a, b, c }
}

// D of a side of the first triangle at three corners.
pub fn of_first(d: SideDifferences, r: Offsets) -> Raised
    requires { SmallSide d × SmallOffsets r }
    ensures { RaisedAll d r result × NearAll result }
{
    Raised {
        a: differences::raised_at(d, r.a),
        b: differences::raised_at(d, r.b),
        c: differences::raised_at(d, r.c),
    }
}

// D of its third side, from those of the other two.
pub fn of_third(third: u64, ab: Raised, ca: Raised) -> Raised
    requires { ThirdSmall third × (NearAll ab × NearAll ca) }
    ensures { ThirdOf third ab ca result × BelowAll result }
{
    Raised {
        a: third - ab.a - ca.a,
        b: third - ab.b - ca.b,
        c: third - ab.c - ca.c,
    }
}

// 65536 times x less y, with 65536 times 131072 added.
fn slope(p: Offset) -> u64
    requires { SmallOffset p }
    ensures { (result + 65536 * p.y ≡ 65536 * p.x + 8589934592) × (result ≤ 17179803648) }
{
    65536 * (p.x + 131072 - p.y)
}

// D of the side from p to q at a: two products. 1099511627775 is 2^40 - 1.
fn at_a(p: Offset, q: Offset) -> u64
    requires { SmallOffset p × SmallOffset q }
    ensures { AtA p q result × Near result }
{
    differences::product(p.x, q.y) + slope(q) + 1099511627775
        - differences::product(p.y, q.x)
        - slope(p)
}

// D of the side of the second triangle from p to q at the corners of the first: at b and c by what ab and ca have at p and q.
pub fn of_second(p: Offset, q: Offset, ab_p: u64, ab_q: u64, ca_p: u64, ca_q: u64) -> Raised
    requires { (SmallOffset p × SmallOffset q) × ((Near ab_p × Near ab_q) × (Near ca_p × Near ca_q)) }
    ensures { SecondOf p q ab_p ab_q ca_p ca_q result × BelowAll result }
{
    let a = at_a(p, q);
    Raised {
        a,
        b: a + ab_p - ab_q,
        c: a + ca_q - ca_p,
    }
}

// What three numbers say: it is high where one of them is.
pub fn joined(n: Raised) -> u64
    requires { BelowAll n }
    ensures { Joined n result }
{
    n.a | n.b | n.c
}
