// The triangles of a table that are in a window, of those that are marked: each is tested once, and listed.

#![tactic(auto)]

ghost use Rattle.std.specs.Prelude.{◌≡◌, true, not, cond, ◌+◌, ◌≤◌, ◌<◌, length, set};
ghost use Rattle.spec_plane.specs.Triangle.{triangle_of, proper};
ghost use Rattle.spec_plane.specs.Box.{Framed, all_outer, triangle_meets};
ghost use Rattle.spec_charts.specs.Table.{max_triangles};
ghost use Rattle.base_geometry.specs.Bounds.{bounds_box};
ghost use Rattle.window_triangles.specs.Listed.{within, is_in, Listable, Listed};

use base_geometry::bounds::Bounds;
use base_geometry::{bounds, orientation};
use spec_plane::Point;

// All corners of the window lie on the outer side of p to q, since that one does at which D is largest.
fn is_outer(p: Point, q: Point, w: Bounds) -> bool
    requires { Framed (bounds_box w) }
    ensures { result ≡ all_outer p q (bounds_box w) }
{
    let x = if q.y <= p.y { w.right } else { w.left };
    let y = if p.x <= q.x { w.bottom } else { w.top };
    let d = orientation::orientation(p, q, Point { x, y });
    d.high < d.low
}

// A point is in the window, its border included.
fn is_within(p: Point, w: Bounds) -> bool
    ensures { result ≡ within p (bounds_box w) }
{
    (w.left <= p.x) & (p.x <= w.right) & (w.top <= p.y) & (p.y <= w.bottom)
}

// The triangle has a point in common with the window: their boxes do, and no side has all of the window on its outer side.
fn meets_box(t: [Point; 3], w: Bounds) -> bool
    requires { Framed (bounds_box w) }
    ensures { result ≡ triangle_meets (triangle_of t) (bounds_box w) }
{
    let b = bounds::triangle_bounds(t);
    let apart = (b.right < w.left) | (w.right < b.left) | (b.bottom < w.top) | (w.bottom < b.top);
    !(apart | is_outer(t[0], t[1], w) | is_outer(t[1], t[2], w) | is_outer(t[2], t[0], w))
}

// The same, sooner: most triangles that have one have a corner in the window, and need no product.
fn meets(t: [Point; 3], w: Bounds) -> bool
    requires { Framed (bounds_box w) × (proper (triangle_of t) ≡ true) }
    ensures { result ≡ triangle_meets (triangle_of t) (bounds_box w) }
{
    is_within(t[0], w) | is_within(t[1], w) | is_within(t[2], w) || meets_box(t, w)
}

// Triangle i, after the first c of the list, where it is marked and meets the window: it is stored in any case, and the number returned says
// whether it counts.
fn append_if_in(
    table: &[u16],
    i: usize,
    w: Bounds,
    near: &[bool],
    list: &mut [u16],
    c: usize,
) -> usize
    requires { Listable table.now (bounds_box w) near.now (i + 1) × (c < length list.old) }
    ensures list_after { list.new ≡ set list.old c i }
    ensures value { result ≡ cond (not (is_in table.now (bounds_box w) near.now i)) c (c + 1) }
{
    list[c] = i as u16;
    let counts = near[i] && meets(base_tables::triangle_at(table, i), w);
    c + usize::from(counts)
}

// Those of the first n triangles that are marked and meet the window, ascending, at the start of the list; how many they are.
pub fn list_window(table: &[u16], n: usize, w: Bounds, near: &[bool], list: &mut [u16]) -> usize
    requires { Listable table.now (bounds_box w) near.now n × (max_triangles ≤ length list.old) }
    ensures { Listed (is_in table.now (bounds_box w) near.now) list.old list.new n result }
{
    let mut c = 0;
    for i in 0..n {
        c = append_if_in(table, i, w, near, list, c);
    }
    c
}
