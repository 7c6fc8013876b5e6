// The chain rule of the entries in three lists.
// Every call but load judges the chain rule, so it is written for speed: a loop has no branch but its own test and joins what it
// finds by `&` or the larger of two, so that the compiler judges several entries at a time; an `if` between two numbers
// makes no branch. Levels and items, which are narrower than keys, have loops of their own: more of them fit into one step.

ghost use Rattle.std.specs.Prelude.{◌≡◌, true, false, ℕ, ◌+◌, ◌≤◌, leb, length, get_or, take};
ghost use Rattle.theory_lists.specs.Lists.{all, up_to};
ghost use Rattle.theory_orthtree.specs.Entries.{chain, entry};
ghost use Rattle.spec_squares.specs.Square.{arity, depth};
ghost use Rattle.spec_calls.specs.Buffers.{Roomy, zip_entries};
ghost use Rattle.chart_links.specs.Links.{item_fits, linked_at};

// Each of the levels is at most 16.
fn levels_fit(levels: &[u8]) -> bool
    ensures { result ≡ all (λ i. leb (get_or levels.now i 0) depth) (up_to (length levels.now)) }
{
    let mut ok = true;
    for level in levels {
        ok &= *level <= 16;
    }
    ok
}

// The lowest triangle count for which each of the items fits.
fn count_for_all(items: &[u16]) -> u16
    ensures { (count : ℕ) → leb result count ≡ all (λ i. item_fits count (get_or items.now i 0)) (up_to (length items.now)) }
{
    let mut most: u16 = 0;
    for item in items {
        most = most.max(chart_links::count_for(*item));
    }
    most
}

// Each of the first n entries is linked to the one beside it among the next ones.
fn all_linked(
    keys: &[u32],
    levels: &[u8],
    items: &[u16],
    next_keys: &[u32],
    next_levels: &[u8],
    next_items: &[u16],
    n: usize,
) -> bool
    requires roomy { Roomy n keys.now levels.now items.now }
    requires roomy_2 { Roomy n next_keys.now next_levels.now next_items.now }
    requires n_value { all (λ i. leb (get_or levels.now i 0) depth) (up_to n) ≡ true }
    ensures { result ≡ all (λ i. linked_at keys.now levels.now items.now next_keys.now next_levels.now next_items.now i) (up_to n) }
{
    let mut ok = true;
    for i in 0..n {
        ok &= chart_links::is_linked(
            keys[i],
            levels[i],
            items[i],
            next_keys[i],
            next_levels[i],
            next_items[i],
        );
    }
    ok
}

// The first n entries are a chain of squares from key 0 to 2^32, with items that fit the triangle count.
pub fn chain_holds(keys: &[u32], levels: &[u8], items: &[u16], count: usize, n: usize) -> bool
    requires { Roomy n keys.now levels.now items.now }
    ensures { result ≡ chain arity depth count (take n (zip_entries keys.now levels.now items.now)) }
{
    if n == 0 {
        return false;
    }
    if !levels_fit(&levels[..n]) {
        return false;
    }
    let last = n - 1;
    let most = usize::from(count_for_all(&items[..n]));
    let links = all_linked(
        keys,
        levels,
        items,
        &keys[1..n],
        &levels[1..n],
        &items[1..n],
        last,
    );
    (keys[0] == 0) & (most <= count) & links & chart_links::ends_tree(keys[last], levels[last])
}
