// A triangle's row split at a point of its side ab: its two parts, one in its place and one at the end.

ghost use Rattle.std.specs.Prelude.{◌≡◌, ◌+◌, ◌*◌, ◌≤◌, ◌<◌, length};
ghost use Rattle.spec_plane.specs.Triangle.{triangle_of};
ghost use Rattle.spec_charts.specs.Table.{max_triangles, numbers_per_triangle, table_of};
ghost use Rattle.spec_charts.specs.Edits.{side_split_at};
ghost use Rattle.edit_rows.specs.Workspace.{Workspace};

use spec_plane::Point;

// Row i, of a triangle with the corners t, split at p, among n rows.
pub fn split_row(rows: &mut [u16], n: usize, i: usize, t: [Point; 3], p: Point)
    requires i_lt_n { i < n }
    requires n_lt_max_triangles { n < max_triangles }
    requires n_in_bounds { numbers_per_triangle * (n + 1) ≤ length rows.old }
    ensures { table_of rows.new (n + 1) ≡ side_split_at (table_of rows.old n) i (triangle_of t) p }
{
    base_tables::put_triangle(rows, i, [t[0], p, t[2]]);
    base_tables::put_triangle(rows, n, [p, t[1], t[2]]);
}

// The table with triangle i, of which t is a rotation, split at p.
pub fn put_split(table: &[u16], n: usize, i: usize, t: [Point; 3], p: Point, scratch: &mut [u16])
    requires i_lt_n { i < n }
    requires n_lt_max_triangles { n < max_triangles }
    requires workspace { Workspace table.now n scratch.old }
    ensures { table_of scratch.new (n + 1) ≡ side_split_at (table_of table.now n) i (triangle_of t) p }
{
    edit_rows::append_rows(table, 0, n, scratch, 0);
    split_row(scratch, n, i, t, p);
}

// The table with triangles i and j, of which t and u are rotations, split at p one after the other.
pub fn put_both(
    table: &[u16],
    n: usize,
    i: usize,
    j: usize,
    t: [Point; 3],
    u: [Point; 3],
    p: Point,
    scratch: &mut [u16],
)
    requires i_lt_n { i < n }
    requires j_lt_n { j < n }
    requires n_bound { n + 1 < max_triangles }
    requires workspace { Workspace table.now n scratch.old }
    ensures { table_of scratch.new (n + 2) ≡ side_split_at (side_split_at (table_of table.now n) i (triangle_of t) p) j (triangle_of u) p }
{
    put_split(table, n, i, t, p, scratch);
    split_row(scratch, n + 1, j, u, p);
}
