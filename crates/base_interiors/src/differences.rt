// The coordinate differences of a triangle's sides, each with 65536 added, so that none is negative, and D from them.

ghost use Rattle.std.specs.Prelude.{◌≡◌, ◌+◌, ◌*◌, ◌≤◌};
ghost use Rattle.spec_plane.specs.Triangle.{triangle_of};
ghost use Rattle.base_interiors.specs.Differences.{SideOf, SmallSide, SmallOffset, RaisedAt, Near, Handed};

use spec_plane::Point;

// Those of the side from p to q, q.x - p.x and p.y - q.y, and what a raised D has of them alone.
#[derive(Clone, Copy)]
pub struct SideDifferences {
    pub dx: u64,
    pub dy: u64,
    pub base: u64,
}

// What the test of a pair is handed of its first triangle: 65536 less the coordinates of a, the differences of the sides at a, and the
// doubled area, raised three times. The differences of bc are what the other two leave, and so is D.
#[derive(Clone, Copy)]
pub struct Differences {
    pub x: u64,
    pub y: u64,
    pub ab: SideDifferences,
    pub ca: SideDifferences,
    pub third: u64,
}

// Where a point lies from a: x and y less those of a, each with 65536 added.
#[derive(Clone, Copy)]
pub struct Offset {
    pub x: u64,
    pub y: u64,
}

// p less q, with 65536 added.
fn minus(p: u16, q: u16) -> u64
    ensures { (result + q ≡ p + 65536) × (result ≤ 131071) }
{
    u64::from(p) + 65536 - u64::from(q)
}

// 65536 less p.
fn below(p: u16) -> u64
    ensures { (result + p ≡ 65536) × (result ≤ 65536) }
{
    65536 - u64::from(p)
}

// The product of two differences, each below 2^17.
pub fn product(a: u64, b: u64) -> u64
    requires { (a ≤ 131071) × (b ≤ 131071) }
    ensures { (result ≡ a * b) × (result ≤ 17179607041) }
{
    a * b
}

// The differences of the side from p to q. 1108101562367 is 2^40 - 1 and twice 65536 times 65536: what is raised, and what the two
// 65536 that are added bring into the two products.
fn side(p: Point, q: Point) -> SideDifferences
    ensures { SideOf p q result × SmallSide result }
{
    let dx = minus(q.x, p.x);
    let dy = minus(p.y, q.y);
    SideDifferences {
        dx,
        dy,
        base: 1108101562367 - 65536 * (dx + dy),
    }
}

// Where a point lies, by 65536 less the coordinates of a.
pub fn offset_by(x: u64, y: u64, p: Point) -> Offset
    requires { (x ≤ 65536) × (y ≤ 65536) }
    ensures { ((result.x ≡ p.x + x) × (result.y ≡ p.y + y)) × SmallOffset result }
{
    Offset {
        x: u64::from(p.x) + x,
        y: u64::from(p.y) + y,
    }
}

// D of a side at a, raised, at a point: two products.
pub fn raised_at(d: SideDifferences, r: Offset) -> u64
    requires { SmallSide d × SmallOffset r }
    ensures { RaisedAt d r result × Near result }
{
    product(d.dx, r.y) + product(d.dy, r.x) + d.base - 65536 * (r.x + r.y)
}

// What the test of a pair is handed of its first triangle. 2199023255550 is twice 2^40 - 1, which raises the doubled area twice more.
pub fn differences_of(s: [Point; 3]) -> Differences
    ensures { Handed (triangle_of s) result }
{
    let x = below(s[0].x);
    let y = below(s[0].y);
    let ab = side(s[0], s[1]);
    let ca = side(s[2], s[0]);
    let area = raised_at(ab, offset_by(x, y, s[2]));
    Differences {
        x,
        y,
        ab,
        ca,
        third: area + 2199023255550,
    }
}
