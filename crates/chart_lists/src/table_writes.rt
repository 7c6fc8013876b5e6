// A table's numbers written into a chart's table, zeros after them.

ghost use Rattle.std.specs.Prelude.{◌≡◌, ◌≤◌, length, take};
ghost use Rattle.spec_charts.specs.Table.{table_length};
ghost use Rattle.spec_calls.specs.Buffers.{padded};

// The first n numbers given, then zeros up to the numbers of a full table.
pub fn put_table(given: &[u16], n: usize, table: &mut [u16])
    requires { (n ≤ length given.now) × ((n ≤ table_length) × (table_length ≤ length table.old)) }
    ensures { table.new ≡ padded table_length (take n given.now) table.old }
{
    for (i, x) in given[..n].iter().enumerate() {
        table[i] = *x;
    }
    table[n..base_tables::TABLE_NUMBERS].fill(0);
}
