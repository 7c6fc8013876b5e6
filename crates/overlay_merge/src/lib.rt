// Which items of two charts are listed in cells that overlap, and how many pairs of cells overlap: both lists of entries are
// walked by their keys alone, block by block. A block starts where a cell of each chart starts and ends where the larger
// of the two ends, so one of its two runs is a single cell, and every cell of the one overlaps every cell of the other.
// Of the tree only the end of its keys is needed, where its last cells end.

#![tactic(auto)]

mod runs;

ghost use Rattle.std.specs.Prelude.{◌≤◌, ◌<◌, length};
ghost use Rattle.overlay_marks.specs.PairMarks.{rows_length};
ghost use Rattle.overlay_merge.specs.Merge.{keyed, EntriesFit, EmptyRows, BlockMarked, Merged};

// A block: the places after its two runs, and how many pairs of cells it has.
#[derive(Clone, Copy)]
pub struct Marked {
    pub first: usize,
    pub second: usize,
    pub pairs: usize,
}

// The entries of a chart: their keys, and as many items.
#[derive(Clone, Copy)]
pub struct ChartEntries<'a> {
    pub keys: &'a [u32],
    pub items: &'a [u16],
}

// Marks the block that starts at two places.
fn mark_block(
    first: ChartEntries,
    first_at: usize,
    second: ChartEntries,
    second_at: usize,
    rows: &mut [u64],
    tree_end: u64,
) -> Marked
    requires entries_fit { EntriesFit (keyed first) × (first_at < length first.keys.now) }
    requires entries_fit_2 { EntriesFit (keyed second) × (second_at < length second.keys.now) }
    requires rows_length_in_bounds { rows_length ≤ length rows.old }
    ensures { BlockMarked tree_end (keyed first.entry) first_at (keyed second.entry) second_at result rows.old rows.new }
{
    let p = runs::cell_end(first.keys, first_at);
    let q = runs::cell_end(second.keys, second_at);
    let first_end = runs::key_from(first.keys, p, tree_end);
    let second_end = runs::key_from(second.keys, q, tree_end);
    let end = first_end.max(second_end);
    let s = runs::run_end(first.keys, p, end);
    let t = runs::run_end(second.keys, q, end);
    overlay_marks::mark_parts(
        &first.items[first_at..s.end],
        &second.items[second_at..t.end],
        rows,
    );
    Marked {
        first: s.end,
        second: t.end,
        pairs: s.cells * t.cells,
    }
}

// Marks in the rows each pair of items that are listed in overlapping cells, and counts the pairs of cells that overlap, where the keys
// of the tree end at `tree_end`.
pub fn mark_pairs(
    first: ChartEntries,
    second: ChartEntries,
    rows: &mut [u64],
    tree_end: u64,
) -> usize
    requires entries_fit { EntriesFit (keyed first) }
    requires entries_fit_2 { EntriesFit (keyed second) }
    requires empty_rows { EmptyRows rows.old }
    ensures { Merged tree_end (keyed first.entry) (keyed second.entry) rows.new result }
{
    // Kept: both places move on by blocks, so that no index is counted.
    let mut meetings = 0;
    let mut first_at = 0;
    let mut second_at = 0;
    while (first_at < first.keys.len()) & (second_at < second.keys.len()) {
        let next = mark_block(first, first_at, second, second_at, rows, tree_end);
        meetings += next.pairs;
        first_at = next.first;
        second_at = next.second;
    }
    meetings
}
