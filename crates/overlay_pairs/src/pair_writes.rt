// Pairs of triangles written into a list, while there is room: one pair, and those of a triangle with its candidates.

ghost use Rattle.std.specs.Prelude.{◌≤◌, length};
ghost use Rattle.spec_charts.specs.Overlay.{max_pairs};
ghost use Rattle.spec_calls.specs.Buffers.{pairs_length};
ghost use Rattle.overlay_pairs.specs.Pairs.{pair_if, near_pairs, Wrote, TriangleIn, NearTriangles, PairsRoom};

use base_interiors::differences;

// The most pairs of an overlay.
pub const MOST_PAIRS: usize = 4096;

// Pair (i, j) after those found, if their triangles meet: how many there are then, or none where they are too many.
// Kept: the count beside the list, which has room past the pairs found.
fn put_pair(meet: bool, i: u16, j: u16, pairs: &mut [u16], found: usize) -> Option<usize>
    requires { (found ≤ max_pairs) × (pairs_length ≤ length pairs.old) }
    ensures { Wrote (pair_if meet i j) found result pairs.old pairs.new }
{
    if !meet {
        return Some(found);
    }
    if found >= MOST_PAIRS {
        return None;
    }
    pairs[2 * found] = i;
    pairs[2 * found + 1] = j;
    Some(found + 1)
}

// The pairs of triangle i with the triangles of a list, where they have a common interior point, after those found: none where these
// are too many already.
pub fn put_near(
    first: &[u16],
    i: usize,
    second: &[u16],
    near: &[usize],
    pairs: &mut [u16],
    found: usize,
) -> Option<usize>
    requires triangle_in { TriangleIn first.now i × NearTriangles second.now near.now }
    requires pairs_room { PairsRoom found pairs.old }
    ensures { Wrote (near_pairs first.now second.now i near.now) found result pairs.old pairs.new }
{
    if found > MOST_PAIRS {
        return None;
    }
    let sides = differences::differences_of(base_tables::triangle_at(first, i));
    let mut c = found;
    for j in near {
        let meet = base_interiors::interiors_meet(sides, base_tables::triangle_at(second, *j));
        c = put_pair(meet, i as u16, *j as u16, pairs, c)?;
    }
    Some(c)
}
