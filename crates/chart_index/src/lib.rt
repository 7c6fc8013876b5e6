// The entries of a table in the three entry lists of a chart.

#![tactic(auto)]

ghost use Rattle.std.specs.Prelude.{◌≤◌};
ghost use Rattle.spec_charts.specs.Table.{table_of, Drawn};
ghost use Rattle.spec_charts.specs.Cells.{entries_of, max_entries};
ghost use Rattle.spec_calls.specs.Buffers.{Roomy};
ghost use Rattle.chart_index.specs.Lists.{ListedIn};

use base_tables::MOST_ENTRIES;
use chart_lists::list_writes;
use quadtree_build::FEW_ENTRIES;

// The entries of a table in the three lists: their number, or none where they are more than `MOST` and the lists stay as they were.
fn list_within<const MOST: usize>(
    table: &[u16],
    n: usize,
    keys: &mut [u32],
    levels: &mut [u8],
    items: &mut [u16],
) -> Option<usize>
    requires drawn { Drawn table.now n }
    requires roomy { Roomy max_entries keys.old levels.old items.old }
    requires limit { MOST ≤ max_entries }
    ensures { ListedIn MOST (entries_of (table_of table.now n)) result keys levels items }
{
    let mut entries = [0u64; MOST];
    let m = quadtree_build::build_packed(table, n, &mut entries, MOST)?;
    list_writes::put_lists(&entries, m, keys, levels, items);
    Some(m)
}

// Builds a table into the three lists: the number of its entries, or none where they are too many and the lists stay as they were. A
// small table mostly has few entries, so this is tried first, in small scratch; the large one stands in the frame of
// `list_within::<MOST_ENTRIES>`, which is called from two places and so not made a part of this function's.
pub fn build_into(
    table: &[u16],
    n: usize,
    keys: &mut [u32],
    levels: &mut [u8],
    items: &mut [u16],
) -> Option<usize>
    requires drawn { Drawn table.now n }
    requires roomy { Roomy max_entries keys.old levels.old items.old }
    ensures { ListedIn max_entries (entries_of (table_of table.now n)) result keys levels items }
{
    if n > quadtree_build::FEW_TRIANGLES {
        return list_within::<MOST_ENTRIES>(table, n, keys, levels, items);
    }
    match list_within::<FEW_ENTRIES>(table, n, keys, levels, items) {
        None => list_within::<MOST_ENTRIES>(table, n, keys, levels, items),
        few => few,
    }
}
