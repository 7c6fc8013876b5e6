// The triangle on the other side of a side: the lowest numbered that has the side in the other direction.

ghost use Rattle.std.specs.Prelude.{◌≡◌, ◌*◌, ◌≤◌, length};
ghost use Rattle.spec_plane.specs.Triangle.{triangle_of};
ghost use Rattle.spec_charts.specs.Table.{numbers_per_triangle, table_of};
ghost use Rattle.spec_charts.specs.Edits.{neighbour_from};
ghost use Rattle.edit_side_split.specs.Sides.{neighbour_of};

use base_geometry::geometry;
use spec_plane::Point;

// A triangle on the other side: its number, and its rotation (b,a,d), where the side is ab.
#[derive(Clone, Copy)]
pub struct Neighbour {
    pub number: usize,
    pub rotation: [Point; 3],
}

// The lowest numbered triangle that rotates to (b,a,d), where s is (a,b,c).
pub fn lowest_neighbour(table: &[u16], n: usize, s: [Point; 3]) -> Option<Neighbour>
    requires { numbers_per_triangle * n ≤ length table.now }
    ensures { neighbour_of result ≡ neighbour_from (triangle_of s) 0 (table_of table.now n) }
{
    for j in 0..n {
        let u = base_tables::triangle_at(table, j);
        if let Some(k) = edit_sides::sharing_rotation(s, u) {
            return Some(Neighbour {
                number: j,
                rotation: geometry::rotated(u, k),
            });
        }
    }
    None
}
