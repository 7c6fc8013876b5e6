// The star of a vertex: the triangles of a plain table that have a point as a corner, one after another, and each rotated to end in it.

#![tactic(auto)]

ghost use Rattle.std.specs.Prelude.{◌≡◌, ◌+◌, ◌*◌, ◌≤◌, length};
ghost use Rattle.spec_plane.specs.Triangle.{triangle_of};
ghost use Rattle.spec_charts.specs.Table.{numbers_per_triangle, triangle_at, table_of};
ghost use Rattle.spec_charts.specs.Edits.{has_corner, ending_in};
ghost use Rattle.edit_star.specs.Star.{NextAround};

use base_geometry::geometry;
use spec_plane::Point;

// The triangle has p as a corner.
#[tactic(auto, unfolding(spec_charts::specs::Edits::has_corner, spec_plane::specs::Triangle::triangle_of, spec_plane::specs::Triangle::corner_at, spec_plane::specs::Point::same_point))]
fn has_corner(s: [Point; 3], p: Point) -> bool
    ensures { result ≡ has_corner p (triangle_of s) }
{
    (p == s[0]) | (p == s[1]) | (p == s[2])
}

// The lowest number, from `first` on, of a triangle with p as a corner.
pub fn next_around(table: &[u16], n: usize, p: Point, first: usize) -> Option<usize>
    requires { numbers_per_triangle * n ≤ length table.now }
    ensures { NextAround p (table_of table.now n) n first result }
{
    for i in first..n {
        if has_corner(base_tables::triangle_at(table, i), p) {
            return Some(i);
        }
    }
    None
}

// The triangle rotated to end in its corner p.
#[tactic(auto, unfolding(spec_charts::specs::Edits::ending_in, spec_charts::specs::Edits::triangle, spec_plane::specs::Triangle::triangle_of, spec_plane::specs::Triangle::rotated, spec_plane::specs::Triangle::corner_at, spec_plane::specs::Point::same_point))]
fn ending_in(s: [Point; 3], p: Point) -> [Point; 3]
    ensures { triangle_of result ≡ ending_in p (triangle_of s) }
{
    if p == s[2] {
        return geometry::rotated(s, 0);
    }
    if p == s[1] {
        return geometry::rotated(s, 2);
    }
    geometry::rotated(s, 1)
}

// Triangle i of a table, rotated to end in its corner p.
pub fn row_ending_in(table: &[u16], i: usize, p: Point) -> [Point; 3]
    requires { numbers_per_triangle * (i + 1) ≤ length table.now }
    ensures { triangle_of result ≡ ending_in p (triangle_at table.now i) }
{
    ending_in(base_tables::triangle_at(table, i), p)
}
