// The orientation test. D(p,q,r) is the difference of two sums of three products each, and its sign the order of these sums, so
// nothing here is signed and nothing overflows: each product is below 2^32.

ghost use Rattle.std.specs.Prelude.{◌≡◌, ◌+◌, ◌*◌, ◌<◌, pos, ◌-ℤ◌};
ghost use Rattle.std.specs.Int.Signed.{lt_z};
ghost use Rattle.spec_plane.specs.Point.{orient};

use spec_plane::Point;

// The product of two numbers of a table.
fn product(a: u16, b: u16) -> u64
    ensures { (result ≡ a * b) × (result < 4294967296) }
{
    u64::from(a) * u64::from(b)
}

// A difference of two sums of products.
#[derive(Clone, Copy)]
pub struct Difference {
    pub high: u64,
    pub low: u64,
}

// D(p,q,r).
pub fn orientation(p: Point, q: Point, r: Point) -> Difference
    ensures low_value { pos result.high -ℤ pos result.low ≡ orient p q r }
    ensures high_bound { (result.high < 17179869184) × (result.low < 17179869184) }
{
    let high = product(q.x, r.y) + product(q.y, p.x) + product(p.y, r.x);
    let low = product(q.x, p.y) + product(p.x, r.y) + product(q.y, r.x);
    Difference { high, low }
}

// D(p,q,r) > 0.
pub fn is_inner(p: Point, q: Point, r: Point) -> bool
    ensures { result ≡ lt_z (pos 0) (orient p q r) }
{
    let d = orientation(p, q, r);
    d.low < d.high
}
