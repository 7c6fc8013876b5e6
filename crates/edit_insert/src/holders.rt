// The triangle that an insert takes: the lowest numbered that holds the point.

ghost use Rattle.std.specs.Prelude.{◌*◌, ◌≤◌, length};
ghost use Rattle.spec_charts.specs.Table.{numbers_per_triangle};
ghost use Rattle.edit_insert.specs.Holders.{HolderFound};

use spec_plane::{Point, Position};

// A triangle that holds the point: its number, and where the point lies by it.
#[derive(Clone, Copy)]
pub struct Holder {
    pub number: usize,
    pub position: Position,
}

// The lowest numbered triangle that holds p.
pub fn lowest_holder(table: &[u16], n: usize, p: Point) -> Option<Holder>
    requires { numbers_per_triangle * n ≤ length table.now }
    ensures { HolderFound table.now n p result }
{
    for i in 0..n {
        let q = base_positions::position_in(base_tables::triangle_at(table, i), p);
        if base_positions::is_held(q) {
            return Some(Holder {
                number: i,
                position: q,
            });
        }
    }
    None
}
