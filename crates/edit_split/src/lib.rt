// Split: insertion of a vertex into a triangle of a plain table. The new table is written into a scratch table.

#![tactic(auto)]

mod triangle_split;

ghost use Rattle.std.specs.Prelude.{◌≡◌, ◌≤◌, ◌<◌};
ghost use Rattle.spec_plane.specs.Triangle.{triangle_of};
ghost use Rattle.spec_charts.specs.Table.{max_triangles, table_of};
ghost use Rattle.spec_charts.specs.Edits.{split_row};
ghost use Rattle.edit_rows.specs.Edited.{edited_outcome, edited_count};
ghost use Rattle.edit_rows.specs.Workspace.{Workspace};

use spec_charts::Refusal;
use spec_plane::Point;

// Split of triangle i, of corners t, at p.
pub fn split_row(
    table: &[u16],
    n: usize,
    i: usize,
    t: [Point; 3],
    p: Point,
    scratch: &mut [u16],
) -> Result<usize, Refusal>
    requires i_lt_n { i < n }
    requires workspace { Workspace table.now n scratch.old }
    ensures scratch_after { edited_outcome result scratch.new ≡ split_row i (triangle_of t) p (table_of table.now n) }
    ensures result_bound { edited_count result ≤ max_triangles }
{
    if n + 2 > base_tables::MOST_TRIANGLES {
        return Err(Refusal::TableFull);
    }
    triangle_split::put_split(table, n, i, t, p, scratch);
    Ok(n + 2)
}
