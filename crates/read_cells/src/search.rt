// Search in keys that never fall, such as those of a chain of cells, where a cell is equal keys beside each other.

ghost use Rattle.std.specs.Prelude.{◌≤◌, ◌<◌, get_or};
ghost use Rattle.read_cells.specs.Keys.{Searchable, LastCell};

use crate::Part;

// The last cell at or below the key k, of the first n keys.
pub fn last_cell(keys: &[u32], n: usize, k: u32) -> Part
    requires searchable { Searchable keys.now n }
    requires n_nonzero { (0 < n) × (get_or keys.now 0 0 ≤ k) }
    ensures { LastCell keys.now n k result.from result.to }
{
    let first = &keys[..n];
    let to = first.partition_point(|key| *key <= k);
    let last = first[to - 1];
    let from = first.partition_point(|key| *key < last);
    Part { from, to }
}
