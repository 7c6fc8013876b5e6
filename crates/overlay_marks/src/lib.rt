// Pairs of items as rows of bits: a row for each item of the first list, and one for the mark.

#![tactic(auto)]

pub mod bitsets;

ghost use Rattle.std.specs.Prelude.{◌≡◌, ◌+◌, ◌≤◌, length};
ghost use Rattle.overlay_marks.specs.PairMarks.{row_words, rows_length, place_of, ItemsInserted, SetJoined, PartsMarked};

// The words of a row, which has a bit for each triangle of the second chart.
pub const ROW_WORDS: usize = base_tables::MOST_TRIANGLES / bitsets::WORD;

// The words of all rows: one row for each triangle of the first chart, and one for the mark.
pub const ROWS_LENGTH: usize = ROW_WORDS * (base_tables::MOST_TRIANGLES + 1);

// The mark's row, and its bit in a row.
const MARK_PLACE: u16 = base_tables::MOST_TRIANGLES as u16;

// An item's row, and its bit in a row: its own number, or the mark's.
pub fn place(item: u16) -> usize
    ensures { result ≡ place_of item }
{
    usize::from(item.min(MARK_PLACE))
}

// Inserts the items into the set.
fn insert_all(set: &mut [u64], items: &[u16])
    requires { row_words + 1 ≤ length set.old }
    ensures { ItemsInserted set.old items.now set.new }
{
    for item in items {
        bitsets::insert(set, place(*item));
    }
}

// Joins the set into the rows of the items.
fn join_all(rows: &mut [u64], items: &[u16], set: &[u64])
    requires { (rows_length ≤ length rows.old) × (row_words ≤ length set.now) }
    ensures { SetJoined rows.old items.now set.now rows.new }
{
    for item in items {
        bitsets::join(rows, ROW_WORDS * place(*item), &set[..ROW_WORDS]);
    }
}

// Marks each of the first items with each of the second.
pub fn mark_parts(first_items: &[u16], second_items: &[u16], rows: &mut [u64])
    requires { rows_length ≤ length rows.old }
    ensures { PartsMarked rows.old first_items.now second_items.now rows.new }
{
    let mut set = [0u64; ROW_WORDS + 1];
    insert_all(&mut set, second_items);
    join_all(rows, first_items, &set);
}
