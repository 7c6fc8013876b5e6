// Runs of entries by their keys: a cell is equal keys beside each other, and ends where the next key begins. Where a cell of one list
// starts with a cell of another, the larger of the two ends the block.

ghost use Rattle.std.specs.Prelude.{◌≡◌, ◌≤◌, ◌<◌, length};
ghost use Rattle.theory_orthtree.specs.KeyCells.{CellEnd, key_from};
ghost use Rattle.overlay_merge.specs.Runs.{RunOf};

// Where the entries end that have the key of place `at`.
pub fn cell_end(keys: &[u32], at: usize) -> usize
    requires { at < length keys.now }
    ensures { CellEnd keys.now (length keys.now) at result }
{
    let key = keys[at];
    for r in at + 1..keys.len() {
        if keys[r] != key {
            return r;
        }
    }
    keys.len()
}

// The key at place i, or the end of the tree's keys after the last.
pub fn key_from(keys: &[u32], i: usize, tree_end: u64) -> u64
    ensures { result ≡ key_from keys.now (length keys.now) tree_end i }
{
    if i < keys.len() {
        u64::from(keys[i])
    } else {
        tree_end
    }
}

// A run of entries: the place after it, and how many cells it has.
#[derive(Clone, Copy)]
pub struct Run {
    pub end: usize,
    pub cells: usize,
}

// The run whose first cell ends at place p, up to the key `end`: the keys of that cell are not looked at again.
pub fn run_end(keys: &[u32], p: usize, end: u64) -> Run
    requires { (1 ≤ p) × (p ≤ length keys.now) }
    ensures { RunOf keys.now (length keys.now) p end result.end result.cells }
{
    let mut cells = 1;
    for r in p..keys.len() {
        if end <= u64::from(keys[r]) {
            return Run { end: r, cells };
        }
        cells += usize::from(keys[r - 1] != keys[r]);
    }
    Run {
        end: keys.len(),
        cells,
    }
}
