// Three triangles around a point become one: whether they close round, the triangle, and the rows of the table without the other two.

ghost use Rattle.std.specs.Prelude.{◌≡◌, cond, ◌-◌};
ghost use Rattle.spec_plane.specs.Triangle.{triangle_of};
ghost use Rattle.spec_charts.specs.Table.{table_of};
ghost use Rattle.spec_charts.specs.Edits.{triangle, closes_round, merge_around};
ghost use Rattle.edit_rows.specs.Workspace.{Workspace};
ghost use Rattle.edit_take_out.specs.Places.{Ascending};

use spec_plane::Point;

// The places of the three triangles of a take-out, ascending.
#[derive(Clone, Copy)]
pub struct Places {
    pub first: usize,
    pub second: usize,
    pub third: usize,
}

// With s = (a,b,p): u is (b,c,p) and v is (c,a,p).
#[tactic(auto, unfolding(spec_charts::specs::Edits::closes_round, spec_plane::specs::Triangle::triangle_of, spec_plane::specs::Triangle::corner_at, spec_plane::specs::Point::same_point))]
pub fn closes_round(s: [Point; 3], u: [Point; 3], v: [Point; 3]) -> bool
    ensures { result ≡ closes_round (triangle_of s) (triangle_of u) (triangle_of v) }
{
    (u[0] == s[1]) & (v[1] == s[0]) & (u[1] == v[0])
}

// The merged triangle (a,b,c), where s is (a,b,p): the one of u and v that follows it is (b,c,p).
#[tactic(auto, unfolding(spec_charts::specs::Edits::triangle, spec_plane::specs::Triangle::triangle_of, spec_plane::specs::Triangle::corner_at))]
pub fn merged(s: [Point; 3], u: [Point; 3], v: [Point; 3], u_follows: bool) -> [Point; 3]
    ensures { triangle_of result ≡ triangle (triangle_of s).a (triangle_of s).b (cond u_follows (triangle_of u).b (triangle_of v).b) }
{
    if u_follows {
        return [s[0], s[1], u[1]];
    }
    [s[0], s[1], v[1]]
}

// The table with the merged triangle in the first place and without the triangles at the other two.
pub fn put_merged(table: &[u16], n: usize, at: Places, merged: [Point; 3], scratch: &mut [u16])
    requires ascending { Ascending at.first at.second at.third n }
    requires workspace { Workspace table.now n scratch.old }
    ensures { table_of scratch.new (n - 2) ≡ merge_around (table_of table.now n) at.first at.second at.third (triangle_of merged) }
{
    edit_rows::append_rows(table, 0, at.second, scratch, 0);
    edit_rows::append_rows(table, at.second + 1, at.third, scratch, at.second);
    edit_rows::append_rows(table, at.third + 1, n, scratch, at.third - 1);
    base_tables::put_triangle(scratch, at.first, merged);
}
