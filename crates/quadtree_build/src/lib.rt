// The packed entries of a table, built in scratch of its own. All scratch is cleared first, so a small table has small scratch.

#![tactic(auto)]

mod quadtree;

ghost use Rattle.std.specs.Prelude.{◌≤◌};
ghost use Rattle.spec_charts.specs.Table.{table_of, Drawn};
ghost use Rattle.spec_charts.specs.Cells.{entries_of};
ghost use Rattle.quadtree_build.specs.Packed.{few_triangles, EntryRoom, Packed};

use base_tables::MOST_TRIANGLES;
use quadtree_shapes::shapes;

// The most triangles of a small table, and the entries that it mostly does not exceed.
pub const FEW_TRIANGLES: usize = 32;

pub const FEW_ENTRIES: usize = 1024;

// The deepest level of a square.
const DEPTH: usize = 16;

// The lists of candidates that the stack may hold: that of the whole table, and one for each level from 0 on.
const STACK_LEVELS: usize = DEPTH + 2;

// The entries of a small table.
// Kept: a twin of `build_large`: one function of both takes four const parameters, computed in eight constants, and is no plainer.
fn build_small(table: &[u16], n: usize, out: &mut [u64], most: usize) -> Option<usize>
    requires { Drawn table.now n × ((n ≤ few_triangles) × EntryRoom most out.old) }
    ensures { Packed most (entries_of (table_of table.now n)) result out.old out.new }
{
    let mut shape = [0u16; shapes::SHAPE_NUMBERS * FEW_TRIANGLES];
    let mut offsets = [0u64; shapes::TRIANGLE_SIDES * FEW_TRIANGLES];
    let mut corners = [0u32; shapes::TRIANGLE_CORNERS * FEW_TRIANGLES];
    let mut stack = [0u16; STACK_LEVELS * FEW_TRIANGLES];
    quadtree::build(
        table,
        n,
        &mut shape,
        &mut offsets,
        &mut corners,
        &mut stack,
        out,
        most,
    )
}

// The entries of any table.
fn build_large(table: &[u16], n: usize, out: &mut [u64], most: usize) -> Option<usize>
    requires { Drawn table.now n × EntryRoom most out.old }
    ensures { Packed most (entries_of (table_of table.now n)) result out.old out.new }
{
    let mut shape = [0u16; shapes::SHAPE_NUMBERS * MOST_TRIANGLES];
    let mut offsets = [0u64; shapes::TRIANGLE_SIDES * MOST_TRIANGLES];
    let mut corners = [0u32; shapes::TRIANGLE_CORNERS * MOST_TRIANGLES];
    let mut stack = [0u16; STACK_LEVELS * MOST_TRIANGLES];
    quadtree::build(
        table,
        n,
        &mut shape,
        &mut offsets,
        &mut corners,
        &mut stack,
        out,
        most,
    )
}

// The entries of a table, packed, from place 0 on: their number, or none where they are more than `most`.
pub fn build_packed(table: &[u16], n: usize, out: &mut [u64], most: usize) -> Option<usize>
    requires { Drawn table.now n × EntryRoom most out.old }
    ensures { Packed most (entries_of (table_of table.now n)) result out.old out.new }
{
    if n <= FEW_TRIANGLES {
        return build_small(table, n, out, most);
    }
    build_large(table, n, out, most)
}
