// Building the entries of a table, for any numbers and lists: for the test program `test_quadtree` alone.
// It is no call of document 01, and 16385 and 16386 are none of its numbers.

#![tactic(auto)]

ghost use Rattle.std.specs.Prelude.{◌≡◌, true, false, ◌/◌, length};
ghost use Rattle.spec_charts.specs.Table.{numbers_per_triangle, table_of};
ghost use Rattle.chart_lists.specs.Columns.{at_entry, at_exit};
ghost use Rattle.test_build.specs.Buildable.{lengths_fit, buildable_lent, not_built, BuiltIn};

// The answer where the entries are too many, and where nothing can be built.
// Kept: numbers and no Option, since the test's numbers may not change.
const TOO_MANY: usize = base_tables::MOST_ENTRIES + 1;

const NOT_BUILT: usize = base_tables::MOST_ENTRIES + 2;

// The numbers are whole triangles, at most 512, and the three lists have 16384 places.
fn lengths_fit(table: &[u16], keys: &[u32], levels: &[u8], items: &[u16]) -> bool
    ensures { result ≡ lengths_fit table.now keys.now levels.now items.now }
{
    (table.len() % base_tables::TRIANGLE_NUMBERS == 0)
        & (table.len() <= base_tables::TABLE_NUMBERS)
        & (base_tables::MOST_ENTRIES <= keys.len())
        & (base_tables::MOST_ENTRIES <= levels.len())
        & (base_tables::MOST_ENTRIES <= items.len())
}

// The number of the table's entries, which then stand in the three lists, zeros after them; `TOO_MANY` where they are more
// than 16384, and `NOT_BUILT` for a table or lists of the wrong length or a triangle with D <= 0, and the lists stay as they were.
pub fn build_table(table: &[u16], keys: &mut [u32], levels: &mut [u8], items: &mut [u16]) -> usize
    ensures listed_in { buildable_lent table keys levels items ≡ true → BuiltIn (table_of table.now (length table.now / numbers_per_triangle)) result keys levels items }
    ensures value { buildable_lent table keys levels items ≡ false → (result ≡ not_built) × (at_exit keys levels items ≡ at_entry keys levels items) }
{
    let n = table.len() / base_tables::TRIANGLE_NUMBERS;
    if lengths_fit(table, keys, levels, items) && chart_rule::all_proper(table, n) {
        return chart_index::build_into(table, n, keys, levels, items).unwrap_or(TOO_MANY);
    }
    NOT_BUILT
}
