// Flip: the side that two triangles of a plain table share is exchanged for the other diagonal. The new table is written into a
// scratch table.

#![tactic(auto)]

ghost use Rattle.std.specs.Prelude.{◌≡◌, ◌≤◌};
ghost use Rattle.spec_plane.specs.Triangle.{triangle_of};
ghost use Rattle.spec_charts.specs.Table.{max_triangles, table_of};
ghost use Rattle.spec_charts.specs.Edits.{flip_as, flip_table};
ghost use Rattle.edit_rows.specs.Edited.{edited_outcome, edited_count};
ghost use Rattle.edit_rows.specs.Workspace.{Workspace};
ghost use Rattle.edit_flip.specs.Places.{BothBelow};

use base_geometry::geometry;
use spec_charts::Refusal;
use spec_plane::Point;

// Flip of triangles i and j, of which s and u are the rotations that share a side.
fn flip_as(
    table: &[u16],
    n: usize,
    i: usize,
    j: usize,
    s: [Point; 3],
    u: [Point; 3],
    scratch: &mut [u16],
) -> Result<usize, Refusal>
    requires both_below { BothBelow i j n }
    requires workspace { Workspace table.now n scratch.old }
    ensures scratch_after { edited_outcome result scratch.new ≡ flip_as (table_of table.now n) i j (triangle_of s) (triangle_of u) }
    ensures result_bound { edited_count result ≤ max_triangles }
{
    let x = [s[0], u[2], s[2]];
    let y = [u[2], s[1], s[2]];
    if !(geometry::is_proper(x) & geometry::is_proper(y)) {
        return Err(Refusal::NoFlip);
    }
    edit_rows::replace_row(table, n, i, x, scratch);
    base_tables::put_triangle(scratch, j, y);
    Ok(n)
}

// Flip: triangles i and j.
pub fn flip_table(
    table: &[u16],
    n: usize,
    i: usize,
    j: usize,
    scratch: &mut [u16],
) -> Result<usize, Refusal>
    requires { Workspace table.now n scratch.old }
    ensures scratch_after { edited_outcome result scratch.new ≡ flip_table i j (table_of table.now n) }
    ensures result_bound { edited_count result ≤ max_triangles }
{
    if (i >= n) | (j >= n) {
        return Err(Refusal::NoSuchTriangle);
    }
    let s = base_tables::triangle_at(table, i);
    let u = base_tables::triangle_at(table, j);
    for k in 0..3 {
        let v = geometry::rotated(s, k);
        if let Some(m) = edit_sides::sharing_rotation(v, u) {
            return flip_as(table, n, i, j, v, geometry::rotated(u, m), scratch);
        }
    }
    Err(Refusal::NoFlip)
}
