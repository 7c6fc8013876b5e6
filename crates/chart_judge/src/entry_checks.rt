// The three entry lists of a chart compared with the entries of a table.

ghost use Rattle.std.specs.Prelude.{◌≡◌, ◌&&◌, ◌≤◌, eqb, length};
ghost use Rattle.spec_charts.specs.Table.{Drawn};
ghost use Rattle.spec_charts.specs.Cells.{max_entries};
ghost use Rattle.spec_calls.specs.Buffers.{Roomy, indexed};
ghost use Rattle.spec_calls.specs.Lent.{shown, viewed};
ghost use Rattle.chart_judge.specs.Places.{same_places};

use base_tables::MOST_ENTRIES;
use quadtree_build::FEW_ENTRIES;
use spec_calls::ChartView;

// 0 if the first n packed entries are those of the three lists.
fn differences(entries: &[u64], keys: &[u32], levels: &[u8], items: &[u16], n: usize) -> u64
    requires { (n ≤ length entries.now) × Roomy n keys.now levels.now items.now }
    ensures { eqb result 0 ≡ same_places entries.now keys.now levels.now items.now n }
{
    let mut found = 0;
    for i in 0..n {
        found |= entries[i] ^ base_entries::pack(keys[i], levels[i], items[i]);
    }
    found
}

// The r packed entries are the m entries of the three lists.
fn same_entries(
    entries: &[u64],
    r: usize,
    keys: &[u32],
    levels: &[u8],
    items: &[u16],
    m: usize,
) -> bool
    requires { (m ≤ length entries.now) × Roomy m keys.now levels.now items.now }
    ensures { result ≡ (eqb r m && same_places entries.now keys.now levels.now items.now m) }
{
    r == m && differences(entries, keys, levels, items, m) == 0
}

// The first m entries of the three lists, at most `MOST`, are those of the table.
fn match_within<const MOST: usize>(
    table: &[u16],
    n: usize,
    keys: &[u32],
    levels: &[u8],
    items: &[u16],
    m: usize,
) -> bool
    requires drawn { Drawn table.now n }
    requires m_le_most { (m ≤ MOST) × Roomy m keys.now levels.now items.now }
    requires limit { MOST ≤ max_entries }
    ensures { result ≡ indexed (shown table keys levels items n m) }
{
    let mut entries = [0u64; MOST];
    match quadtree_build::build_packed(table, n, &mut entries, MOST) {
        Some(r) => same_entries(&entries, r, keys, levels, items, m),
        None => false,
    }
}

// The chart's entries are those of its table. A small table with few entries is compared in small scratch; the large
// one stands in the frame of `match_within::<MOST_ENTRIES>`, which is called from two places and so not made a part of this function's.
pub fn entries_match(chart: ChartView) -> bool
    requires drawn { Drawn chart.table.now chart.triangles }
    requires few { (chart.entries ≤ max_entries) × Roomy chart.entries chart.keys.now chart.levels.now chart.items.now }
    ensures { result ≡ indexed (viewed chart.entry) }
{
    let table = chart.table;
    let n = chart.triangles;
    let keys = chart.keys;
    let levels = chart.levels;
    let items = chart.items;
    let m = chart.entries;
    if n > quadtree_build::FEW_TRIANGLES {
        return match_within::<MOST_ENTRIES>(table, n, keys, levels, items, m);
    }
    if m <= FEW_ENTRIES {
        return match_within::<FEW_ENTRIES>(table, n, keys, levels, items, m);
    }
    match_within::<MOST_ENTRIES>(table, n, keys, levels, items, m)
}
