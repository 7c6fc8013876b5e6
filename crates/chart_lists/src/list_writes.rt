// Packed entries written into the three entry lists of a chart, zeros after them.

ghost use Rattle.std.specs.Prelude.{◌-◌, ◌≤◌, length, take};
ghost use Rattle.spec_charts.specs.Cells.{max_entries};
ghost use Rattle.spec_calls.specs.Buffers.{Roomy};
ghost use Rattle.chart_lists.specs.Columns.{unpacked, zeros, at_entry, at_exit, Stored, Filled};

use base_tables::MOST_ENTRIES;

// The keys, levels and items of the packed entries, from place 0 on.
fn put_entries(entries: &[u64], keys: &mut [u32], levels: &mut [u8], items: &mut [u16])
    requires { Roomy (length entries.now) keys.old levels.old items.old }
    ensures { Stored 0 (unpacked entries.now) (at_entry keys levels items) (at_exit keys levels items) }
{
    for (i, x) in entries.iter().enumerate() {
        keys[i] = base_entries::key_of(*x);
        levels[i] = base_entries::level_of(*x);
        items[i] = base_entries::item_of(*x);
    }
}

// Zeros from place `from` up to the most entries.
fn zero_lists(keys: &mut [u32], levels: &mut [u8], items: &mut [u16], from: usize)
    requires { (from ≤ max_entries) × Roomy max_entries keys.old levels.old items.old }
    ensures { Stored from (zeros (max_entries - from)) (at_entry keys levels items) (at_exit keys levels items) }
{
    keys[from..MOST_ENTRIES].fill(0);
    levels[from..MOST_ENTRIES].fill(0);
    items[from..MOST_ENTRIES].fill(0);
}

// The first n packed entries as three lists, zeros after them up to the most entries.
pub fn put_lists(entries: &[u64], n: usize, keys: &mut [u32], levels: &mut [u8], items: &mut [u16])
    requires n_in_bounds { (n ≤ length entries.now) × (n ≤ max_entries) }
    requires roomy { Roomy max_entries keys.old levels.old items.old }
    ensures { Filled (unpacked (take n entries.now)) (at_entry keys levels items) (at_exit keys levels items) }
{
    put_entries(&entries[..n], keys, levels, items);
    zero_lists(keys, levels, items, n);
}
