// What the edits of plain tables share: rows of one table copied behind those of another, and a row replaced.
// Nothing here knows entries.

#![tactic(auto)]

ghost use Rattle.std.specs.Prelude.{◌≡◌, ◌++◌, ◌+◌, ◌-◌, ◌*◌, ◌≤◌, ◌<◌, length, drop, set};
ghost use Rattle.spec_plane.specs.Triangle.{triangle_of};
ghost use Rattle.spec_charts.specs.Table.{numbers_per_triangle, max_triangles, table_of};

use spec_plane::Point;

// The triangles from number `first` to before number `end` of a table, behind the first m of the scratch table.
pub fn append_rows(table: &[u16], first: usize, end: usize, scratch: &mut [u16], m: usize)
    requires first_le_end { first ≤ end }
    requires m_le_max_triangles { m ≤ max_triangles }
    requires end_in_bounds { numbers_per_triangle * end ≤ length table.now }
    requires first_in_bounds { numbers_per_triangle * (m + (end - first)) ≤ length scratch.old }
    ensures { table_of scratch.new (m + (end - first)) ≡ table_of scratch.old m ++ drop first (table_of table.now end) }
{
    for i in first..end {
        base_tables::put_triangle(scratch, m + (i - first), base_tables::triangle_at(table, i));
    }
}

// The table with triangle x in place i.
pub fn replace_row(table: &[u16], n: usize, i: usize, x: [Point; 3], scratch: &mut [u16])
    requires i_lt_n { i < n }
    requires n_le_max_triangles { n ≤ max_triangles }
    requires n_in_bounds { numbers_per_triangle * n ≤ length table.now }
    requires n_in_bounds_2 { numbers_per_triangle * n ≤ length scratch.old }
    ensures { table_of scratch.new n ≡ set (table_of table.now n) i (triangle_of x) }
{
    append_rows(table, 0, n, scratch, 0);
    base_tables::put_triangle(scratch, i, x);
}
