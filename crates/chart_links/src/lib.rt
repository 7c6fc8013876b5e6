// The chain rule between an entry and the next, without a branch: a `match` between two answers makes none, and answers are joined by `&`.

#![tactic(auto)]

ghost use Rattle.std.specs.Prelude.{◌≡◌, ℕ, ◌+◌, ◌*◌, ◌≤◌, leb, eqb};
ghost use Rattle.theory_orthtree.specs.Entries.{span, entry};
ghost use Rattle.spec_squares.specs.Square.{arity, depth};
ghost use Rattle.chart_links.specs.Links.{item_fits, linked, ends_tree};

use base_entries::MARK;

// The lowest triangle count for which an item fits: one more than it, and 0 for the mark, which is the highest number.
pub fn count_for(item: u16) -> u16
    ensures { (count : ℕ) → leb result count ≡ item_fits count item }
{
    item.checked_add(1).unwrap_or(0)
}

// The keys that a square of this level covers, less one: ones in the bits that its own key does not use, which are none at level 16.
pub fn low_bits(level: u8) -> u32
    requires { level ≤ depth }
    ensures { result + 1 ≡ span arity depth level }
{
    !u32::MAX.checked_shl(32 - 2 * u32::from(level)).unwrap_or(0)
}

// An entry with this key and level is aligned, and its square is the last.
pub fn ends_tree(key: u32, level: u8) -> bool
    requires { level ≤ depth }
    ensures { (item : ℕ) → result ≡ ends_tree (entry key level item) }
{
    let m = low_bits(level);
    (key & m == 0) & (key | m == u32::MAX)
}

// The next key is one more than the last one.
fn is_next(last: u32, next: u32) -> bool
    ensures { result ≡ eqb next (last + 1) }
{
    match next.checked_sub(1) {
        None => false,
        Some(before) => before == last,
    }
}

// The entry is aligned, and the next one is of the same square with a higher item, or starts where its square ends.
pub fn is_linked(
    key: u32,
    level: u8,
    item: u16,
    next_key: u32,
    next_level: u8,
    next_item: u16,
) -> bool
    requires { level ≤ depth }
    ensures { result ≡ linked (entry key level item) (entry next_key next_level next_item) }
{
    let m = low_bits(level);
    let again = (key == next_key)
        & (level == next_level)
        & (item < next_item)
        & (next_item != MARK);
    (key & m == 0) & (again | is_next(key | m, next_key))
}
