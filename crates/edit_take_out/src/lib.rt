// Take-out: removal of a vertex with three triangles around it from a plain table. The new table is written into a scratch table.

#![tactic(auto)]

mod triangle_merge;

ghost use Rattle.std.specs.Prelude.{◌≡◌, ◌*◌, ◌≤◌, length};
ghost use Rattle.spec_plane.specs.Triangle.{triangle_of};
ghost use Rattle.spec_charts.specs.Table.{max_triangles, numbers_per_triangle, table_of};
ghost use Rattle.spec_charts.specs.Edits.{merge_three, take_out_table};
ghost use Rattle.edit_rows.specs.Edited.{edited_outcome, edited_count};
ghost use Rattle.edit_rows.specs.Workspace.{Workspace};
ghost use Rattle.edit_take_out.specs.Places.{Ascending, ThreeAround};

use spec_charts::Refusal;
use spec_plane::Point;
use triangle_merge::Places;

// Take-out of p, where the triangles at the three places, rotated to end in p, are s, u, v.
#[tactic(auto, unfolding(spec_charts::specs::Edits::merge_three, spec_charts::specs::Edits::triangle))]
fn merge_three(
    table: &[u16],
    n: usize,
    at: Places,
    s: [Point; 3],
    u: [Point; 3],
    v: [Point; 3],
    scratch: &mut [u16],
) -> Result<usize, Refusal>
    requires ascending { Ascending at.first at.second at.third n }
    requires workspace { Workspace table.now n scratch.old }
    ensures scratch_after { edited_outcome result scratch.new ≡ merge_three (table_of table.now n) at.first at.second at.third (triangle_of s) (triangle_of u) (triangle_of v) }
    ensures result_bound { edited_count result ≤ max_triangles }
{
    let u_follows = triangle_merge::closes_round(s, u, v);
    if !(u_follows | triangle_merge::closes_round(s, v, u)) {
        return Err(Refusal::NotThreeAround);
    }
    triangle_merge::put_merged(
        table,
        n,
        at,
        triangle_merge::merged(s, u, v, u_follows),
        scratch,
    );
    Ok(n - 2)
}

// The three triangles around p, ascending, where there are three and no more.
fn three_around(table: &[u16], n: usize, p: Point) -> Option<Places>
    requires n_le_max_triangles { n ≤ max_triangles }
    requires n_in_bounds { numbers_per_triangle * n ≤ length table.now }
    ensures { ThreeAround p (table_of table.now n) n result }
{
    let i = edit_star::next_around(table, n, p, 0)?;
    let j = edit_star::next_around(table, n, p, i + 1)?;
    let k = edit_star::next_around(table, n, p, j + 1)?;
    match edit_star::next_around(table, n, p, k + 1) {
        Some(_) => None,
        None => Some(Places {
            first: i,
            second: j,
            third: k,
        }),
    }
}

// Take-out: of the point p.
pub fn take_out_table(
    table: &[u16],
    n: usize,
    p: Point,
    scratch: &mut [u16],
) -> Result<usize, Refusal>
    requires { Workspace table.now n scratch.old }
    ensures scratch_after { edited_outcome result scratch.new ≡ take_out_table p (table_of table.now n) }
    ensures result_bound { edited_count result ≤ max_triangles }
{
    let Some(at) = three_around(table, n, p) else {
        return Err(Refusal::NotThreeAround);
    };
    let s = edit_star::row_ending_in(table, at.first, p);
    let u = edit_star::row_ending_in(table, at.second, p);
    let v = edit_star::row_ending_in(table, at.third, p);
    merge_three(table, n, at, s, u, v, scratch)
}
