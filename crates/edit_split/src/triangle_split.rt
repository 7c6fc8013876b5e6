// A triangle's row split at a point: its three parts, one in its place and two at the end.

ghost use Rattle.std.specs.Prelude.{◌≡◌, ◌+◌, ◌≤◌, ◌<◌};
ghost use Rattle.spec_plane.specs.Triangle.{triangle_of};
ghost use Rattle.spec_charts.specs.Table.{max_triangles, table_of};
ghost use Rattle.spec_charts.specs.Edits.{split_at};
ghost use Rattle.edit_rows.specs.Workspace.{Workspace};

use spec_plane::Point;

// The table with triangle i, of corners s, split at p.
pub fn put_split(table: &[u16], n: usize, i: usize, s: [Point; 3], p: Point, scratch: &mut [u16])
    requires i_lt_n { i < n }
    requires n_bound { n + 2 ≤ max_triangles }
    requires workspace { Workspace table.now n scratch.old }
    ensures { table_of scratch.new (n + 2) ≡ split_at (table_of table.now n) i (triangle_of s) p }
{
    edit_rows::replace_row(table, n, i, [s[0], s[1], p], scratch);
    base_tables::put_triangle(scratch, n, [s[1], s[2], p]);
    base_tables::put_triangle(scratch, n + 1, [s[2], s[0], p]);
}
