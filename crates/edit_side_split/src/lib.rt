// Side split: insertion of a vertex on a side of a triangle of a plain table, and of the triangle on the other side of it. The new table
// is written into a scratch table.

#![tactic(auto)]

mod neighbours;
mod row_split;

ghost use Rattle.std.specs.Prelude.{◌≡◌, ◌≤◌, ◌<◌};
ghost use Rattle.spec_plane.specs.Triangle.{triangle_of};
ghost use Rattle.spec_charts.specs.Table.{max_triangles, table_of};
ghost use Rattle.spec_charts.specs.Edits.{side_split_row};
ghost use Rattle.edit_rows.specs.Edited.{edited_outcome, edited_count};
ghost use Rattle.edit_rows.specs.Workspace.{Workspace};
ghost use Rattle.edit_side_split.specs.Sides.{SideRotation};

use spec_charts::Refusal;
use spec_plane::{Point, Position};

// The number of the rotation with p on its side ab, by where p lies; there is none where p is on no side, or at an end of one.
#[tactic(auto, unfolding(spec_charts::specs::Edits::side_first, spec_charts::specs::Edits::triangle, spec_plane::specs::Triangle::triangle_of, spec_plane::specs::Triangle::rotated, spec_plane::specs::Triangle::corner_at))]
pub fn side_rotation(q: Position) -> Option<usize>
    ensures { SideRotation q result }
{
    match q {
        Position::Inside => None,
        Position::OnAb => Some(0),
        Position::OnBc => Some(1),
        Position::OnCa => Some(2),
        Position::AtA => None,
        Position::AtB => None,
        Position::AtC => None,
        Position::Outside => None,
    }
}

// Side split of triangle i, of which t is the rotation with p on its side ab.
pub fn side_split_row(
    table: &[u16],
    n: usize,
    i: usize,
    t: [Point; 3],
    p: Point,
    scratch: &mut [u16],
) -> Result<usize, Refusal>
    requires i_lt_n { i < n }
    requires workspace { Workspace table.now n scratch.old }
    ensures scratch_after { edited_outcome result scratch.new ≡ side_split_row i (triangle_of t) p (table_of table.now n) }
    ensures result_bound { edited_count result ≤ max_triangles }
{
    match neighbours::lowest_neighbour(table, n, t) {
        None => {
            if n + 1 > base_tables::MOST_TRIANGLES {
                return Err(Refusal::TableFull);
            }
            row_split::put_split(table, n, i, t, p, scratch);
            Ok(n + 1)
        }
        Some(other) => {
            if n + 2 > base_tables::MOST_TRIANGLES {
                return Err(Refusal::TableFull);
            }
            row_split::put_both(table, n, i, other.number, t, other.rotation, p, scratch);
            Ok(n + 2)
        }
    }
}
