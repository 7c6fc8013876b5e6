// Bounding boxes of sides and of triangles, each worked out here and nowhere else.

ghost use Rattle.std.specs.Prelude.{◌≡◌};
ghost use Rattle.spec_plane.specs.Triangle.{triangle_of};
ghost use Rattle.spec_plane.specs.Box.{side_box, triangle_box};
ghost use Rattle.base_geometry.specs.Bounds.{bounds_box};

use spec_plane::Point;

// A bounding box. Its sides are numbers of a table, of 16 bits each: so many boxes as possible are compared side by side. The box of a
// square reaches up to 65536 and does not fit: that is a `Frame` of quadtree_shapes.
#[derive(Clone, Copy)]
pub struct Bounds {
    pub left: u16,
    pub top: u16,
    pub right: u16,
    pub bottom: u16,
}

// The bounding box of the side from p to q.
pub fn side_bounds(p: Point, q: Point) -> Bounds
    ensures { bounds_box result ≡ side_box (record { start = p; end = q }) }
{
    Bounds {
        left: p.x.min(q.x),
        top: p.y.min(q.y),
        right: p.x.max(q.x),
        bottom: p.y.max(q.y),
    }
}

// The bounding box of a triangle.
pub fn triangle_bounds(t: [Point; 3]) -> Bounds
    ensures { bounds_box result ≡ triangle_box (triangle_of t) }
{
    let a = t[0];
    let b = t[1];
    let c = t[2];
    Bounds {
        left: a.x.min(b.x.min(c.x)),
        top: a.y.min(b.y.min(c.y)),
        right: a.x.max(b.x.max(c.x)),
        bottom: a.y.max(b.y.max(c.y)),
    }
}
