// The triangles that are listed in cells which a window touches: a mark for each. Every entry is read once: so many as there are lanes are
// passed over at a time where they all lie beyond the window's sides, and only where one may touch it are they looked at one by one.

#![tactic(auto)]

ghost use Rattle.std.specs.Prelude.{◌≡◌, false, ◌||◌, ℕ, ◌+◌, ◌≤◌, ◌<◌, length, get_or, set};
ghost use Rattle.theory_lists.specs.Lists.{all, up_to};
ghost use Rattle.theory_orthtree.specs.Entries.{entry};
ghost use Rattle.spec_squares.specs.Square.{depth};
ghost use Rattle.spec_window.specs.Window.{cell_touches};
ghost use Rattle.base_geometry.specs.Bounds.{bounds_box};
ghost use Rattle.chart_links.specs.Links.{entry_at};
ghost use Rattle.overlay_marks.specs.PairMarks.{place_of};
ghost use Rattle.window_keys.specs.Sides.{sides_of, beyond};
ghost use Rattle.window_cells.specs.Marks.{lanes, marks_length, Markable, Marked};

use base_geometry::bounds::Bounds;
use window_keys::KeySides;

// How many entries are tested at a time.
const LANES: usize = 16;

// The marks of a window: one for each triangle, and one for the mark of empty cells.
pub const MARKS: usize = base_tables::MOST_TRIANGLES + 1;

// The closed square of an entry with this key and level has a point in common with the window.
fn touches(key: u32, level: u8, w: Bounds) -> bool
    requires { level ≤ depth }
    ensures { (item : ℕ) → result ≡ cell_touches (bounds_box w) (entry key level item) }
{
    let s = base_squares::square_of_key(key, level);
    let side = s.side();
    !((s.x + side < u32::from(w.left))
        | (u32::from(w.right) < s.x)
        | (s.y + side < u32::from(w.top))
        | (u32::from(w.bottom) < s.y))
}

// The entry at place k: its item is marked where its cell touches the window.
fn mark(keys: &[u32], levels: &[u8], items: &[u16], k: usize, w: Bounds, near: &mut [bool])
    requires { Markable keys.now levels.now items.now (k + 1) × (marks_length ≤ length near.old) }
    ensures { near.new ≡ set near.old (place_of (get_or items.now k 0)) (get_or near.old (place_of (get_or items.now k 0)) false || cell_touches (bounds_box w) (entry_at keys.now levels.now items.now k)) }
{
    let p = overlay_marks::place(items[k]);
    near[p] |= touches(keys[k], levels[k], w);
}

// The entries from one place up to another.
fn mark_each(
    keys: &[u32],
    levels: &[u8],
    items: &[u16],
    from: usize,
    to: usize,
    w: Bounds,
    near: &mut [bool],
)
    requires markable { Markable keys.now levels.now items.now to × (from ≤ to) }
    requires marked { Marked (bounds_box w) keys.now levels.now items.now from near.old }
    ensures { Marked (bounds_box w) keys.now levels.now items.now to near.new }
{
    for k in from..to {
        mark(keys, levels, items, k, w, near);
    }
}

// The entries in the lanes all lie beyond a side: no branch, so that they are compared side by side.
fn lanes_beyond(keys: &[u32], levels: &[u8], s: KeySides) -> bool
    requires lanes_in_bounds { (lanes ≤ length keys.now) × (lanes ≤ length levels.now) }
    requires by_index { (k : ℕ) → k < lanes → get_or levels.now k 0 ≤ depth }
    ensures { result ≡ all (λ k. beyond s (get_or keys.now k 0) (get_or levels.now k 0)) (up_to lanes) }
{
    let mut o = true;
    for k in 0..LANES {
        o &= s.is_beyond(keys[k], levels[k]);
    }
    o
}

// The entries in the lanes from place j on.
fn mark_lanes(
    keys: &[u32],
    levels: &[u8],
    items: &[u16],
    j: usize,
    w: Bounds,
    s: KeySides,
    near: &mut [bool],
)
    requires markable { Markable keys.now levels.now items.now (j + lanes) × (s ≡ sides_of (bounds_box w)) }
    requires marked { Marked (bounds_box w) keys.now levels.now items.now j near.old }
    ensures { Marked (bounds_box w) keys.now levels.now items.now (j + lanes) near.new }
{
    let end = j + LANES;
    if !lanes_beyond(&keys[j..end], &levels[j..end], s) {
        mark_each(keys, levels, items, j, end, w, near);
    }
}

// The first n entries: so many as there are lanes at a time, then the few that are left.
pub fn mark_near(keys: &[u32], levels: &[u8], items: &[u16], n: usize, w: Bounds, near: &mut [bool])
    requires markable { Markable keys.now levels.now items.now n }
    requires marked { Marked (bounds_box w) keys.now levels.now items.now 0 near.old }
    ensures { Marked (bounds_box w) keys.now levels.now items.now n near.new }
{
    let s = KeySides::of(w);
    for block in 0..n / LANES {
        mark_lanes(keys, levels, items, LANES * block, w, s, near);
    }
    mark_each(keys, levels, items, n - n % LANES, n, w, near);
}
