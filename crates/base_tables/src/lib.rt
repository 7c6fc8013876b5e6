// Tables of triangles: how many numbers a triangle and a table have, and the rows of a table, read and written. Nothing else
// knows where the numbers of a triangle stand.

#![tactic(auto)]

ghost use Rattle.std.specs.Prelude.{◌≡◌, [], ◌∷◌, ◌+◌, ◌*◌, ◌≤◌, length};
ghost use Rattle.std.proofs.lemmas.List.Edits.{sets};
ghost use Rattle.spec_plane.specs.Triangle.{corners, triangle_of};
ghost use Rattle.spec_charts.specs.Table.{numbers_per_triangle, point_at, triangle_at, triangle_numbers};

use spec_plane::Point;

// The numbers of a triangle.
pub const TRIANGLE_NUMBERS: usize = 6;

// The most triangles of a table, and the numbers of so many.
pub const MOST_TRIANGLES: usize = 512;

pub const TABLE_NUMBERS: usize = TRIANGLE_NUMBERS * MOST_TRIANGLES;

// The most entries of a chart.
pub const MOST_ENTRIES: usize = 16384;

// The point at places k and k + 1 of a table.
pub fn point_at(table: &[u16], k: usize) -> Point
    requires { k + 2 ≤ length table.now }
    ensures { result ≡ point_at table.now k }
{
    Point {
        x: table[k],
        y: table[k + 1],
    }
}

// Triangle i of a table.
pub fn triangle_at(table: &[u16], i: usize) -> [Point; 3]
    requires { numbers_per_triangle * (i + 1) ≤ length table.now }
    ensures { result ≡ corners (triangle_at table.now i) }
{
    let k = TRIANGLE_NUMBERS * i;
    [
        point_at(table, k),
        point_at(table, k + 2),
        point_at(table, k + 4),
    ]
}

// The point p at places k and k + 1 of a table.
fn put_point(table: &mut [u16], k: usize, p: Point)
    requires { k + 2 ≤ length table.old }
    ensures { table.new ≡ sets table.old k (p.x ∷ p.y ∷ []) }
{
    table[k] = p.x;
    table[k + 1] = p.y;
}

// The triangle t in row i of a table.
pub fn put_triangle(table: &mut [u16], i: usize, t: [Point; 3])
    requires { numbers_per_triangle * (i + 1) ≤ length table.old }
    ensures { table.new ≡ sets table.old (numbers_per_triangle * i) (triangle_numbers (triangle_of t)) }
{
    let k = TRIANGLE_NUMBERS * i;
    put_point(table, k, t[0]);
    put_point(table, k + 2, t[1]);
    put_point(table, k + 4, t[2]);
}
