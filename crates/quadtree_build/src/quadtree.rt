// Building the quadtree of a table: one recursion on quarters writes the entries of its cells, packed into numbers, and stops as soon as there
// are too many. A square looks only at the triangles that met its parent; a stack keeps the lists of the squares above.

ghost use Rattle.std.specs.Prelude.{◌+◌, ◌≤◌};
ghost use Rattle.spec_charts.specs.Table.{table_of, Drawn};
ghost use Rattle.spec_charts.specs.Cells.{entries_in, entries_of};
ghost use Rattle.quadtree_stopping.specs.Stopping.{corner_table};
ghost use Rattle.quadtree_build.specs.Build.{Buildable, BuildRoom, Built};
ghost use Rattle.quadtree_build.specs.Packed.{EntryRoom, Packed};

use quadtree_cells::quarters::KeyedSquare;
use quadtree_cells::{candidates, leaves, quarters};
use quadtree_shapes::shapes;
use quadtree_stopping::Shapes;
use spec_squares::Square;

// Builds a square: its entries from `at` on, up to the place that it answers, or none where they do not fit below place `most`. Its
// triangles are among the candidates from `from` up to `to` of the stack.
fn build_square(
    shapes: &Shapes,
    stack: &mut [u16],
    from: usize,
    to: usize,
    s: KeyedSquare,
    out: &mut [u64],
    at: usize,
    most: usize,
) -> Option<usize>
    requires buildable { Buildable from to shapes.now.corners.now shapes.now.shape.now shapes.now.offsets.now stack.old s }
    requires entry_room { EntryRoom most out.old × (at ≤ most) }
    ensures { Built (entries_in (corner_table shapes.now.corners.now) s.square) most at result to out.old out.new stack.old stack.new }
{
    let square = s.square;
    let f = quarters::frame_of(square);
    let top = candidates::narrow(shapes.shape, shapes.offsets, stack, from, to, f);
    if shapes.is_stopped(&stack[to..top], square, f) {
        let head = base_entries::head_of(s.key, square.level);
        return leaves::put_leaf(&stack[to..top], head, out, at, most);
    }
    let mut next = at;
    for k in 0..4 {
        let q = quarters::keyed_quarter(s, k);
        next = build_square(shapes, stack, to, top, q, out, next, most)?;
    }
    Some(next)
}

// The entries of a table, packed, from place 0 on: their number, or none where they are more than `most`.
pub fn build(
    table: &[u16],
    n: usize,
    shape: &mut [u16],
    offsets: &mut [u64],
    corners: &mut [u32],
    stack: &mut [u16],
    out: &mut [u64],
    most: usize,
) -> Option<usize>
    requires { Drawn table.now n × (BuildRoom n shape.old offsets.old corners.old stack.old × EntryRoom most out.old) }
    ensures { Packed most (entries_of (table_of table.now n)) result out.old out.new }
{
    quadtree_prepare::prepare(table, n, shape, offsets, corners);
    candidates::put_numbers(stack, n);
    let whole = KeyedSquare {
        square: Square::whole(),
        key: 0,
    };
    let shapes = Shapes {
        corners: &corners[..shapes::TRIANGLE_CORNERS * n],
        shape,
        offsets,
    };
    build_square(&shapes, stack, 0, n, whole, out, 0, most)
}
