// The entries of a cell, packed into numbers.

ghost use Rattle.std.specs.Prelude.{◌≡◌, map, ◌+◌, ◌≤◌, ◌<◌, length};
ghost use Rattle.std.proofs.lemmas.List.Edits.{sets};
ghost use Rattle.spec_charts.specs.Cells.{max_entries, or_mark};
ghost use Rattle.base_entries.specs.Packed.{max_head};
ghost use Rattle.quadtree_cells.specs.Leaf.{EntriesPut};

// One entry for each item.
fn put_candidates(items: &[u16], head: u64, out: &mut [u64], at: usize)
    requires { (at + length items.now ≤ length out.old) × (head ≤ max_head) }
    ensures { out.new ≡ sets out.old at (map (λ i. head + i) items.now) }
{
    for (k, i) in items.iter().enumerate() {
        out[at + k] = head + u64::from(*i);
    }
}

// The entries of a cell: one for each triangle that meets it, or the mark where there is none.
fn put_cell(items: &[u16], head: u64, out: &mut [u64], at: usize) -> usize
    requires { (at + length (or_mark items.now) ≤ length out.old) × (head ≤ max_head) }
    ensures { EntriesPut (or_mark items.now) head at result out.old out.new }
{
    if items.is_empty() {
        out[at] = base_entries::marked(head);
        return at + 1;
    }
    put_candidates(items, head, out, at);
    at + items.len()
}

// The entries of a cell that these triangles meet, from `at` on: the place after them, or none where they do not fit below place `most`.
pub fn put_leaf(items: &[u16], head: u64, out: &mut [u64], at: usize, most: usize) -> Option<usize>
    requires { (most ≤ length out.old) × ((at ≤ most) × ((head ≤ max_head) × (most ≤ max_entries))) }
    ensures entries_put { at + length (or_mark items.now) ≤ most → (result ≡ Some (at + length (or_mark items.now))) × (out.new ≡ sets out.old at (map (λ i. head + i) (or_mark items.now))) }
    ensures value { most < at + length (or_mark items.now) → result ≡ None }
{
    if most - at < items.len().max(1) {
        return None;
    }
    Some(put_cell(items, head, out, at))
}
