// The sides of a window as keys, by which most cells are passed over. The bits of a coordinate stand in a key in their own order, so that
// keys without the bits of the other coordinate are ordered as the coordinate is: nothing is gathered to compare it.

#![tactic(auto)]

ghost use Rattle.std.specs.Prelude.{◌≡◌, ◌≤◌};
ghost use Rattle.spec_squares.specs.Square.{depth};
ghost use Rattle.base_geometry.specs.Bounds.{bounds_box};
ghost use Rattle.window_keys.specs.Sides.{sides_of, beyond};

use base_geometry::bounds::Bounds;
use read_cells::morton;
use spec_plane::Point;

// The places of the bits of x in a key, and of those of y.
const X_PLACES: u32 = 0x5555_5555;

const Y_PLACES: u32 = 0xAAAA_AAAA;

// The sides of a window as keys of one coordinate: right and bottom, and what is one less than left and top.
#[derive(Clone, Copy)]
pub struct KeySides {
    pub left: u32,
    pub top: u32,
    pub right: u32,
    pub bottom: u32,
}

impl KeySides {
    // The sides of a window as keys.
    pub fn of(w: Bounds) -> KeySides
        ensures { result ≡ sides_of (bounds_box w) }
    {
        KeySides {
            left: morton::z_order(Point {
                x: w.left.saturating_sub(1),
                y: 0,
            }),
            top: morton::z_order(Point {
                x: 0,
                y: w.top.saturating_sub(1),
            }),
            right: morton::z_order(Point { x: w.right, y: 0 }),
            bottom: morton::z_order(Point { x: 0, y: w.bottom }),
        }
    }

    // A cell lies beyond a side: its last key is, or its first one.
    pub fn is_beyond(self, key: u32, level: u8) -> bool
        requires { level ≤ depth }
        ensures { result ≡ beyond self key level }
    {
        let last = key | chart_links::low_bits(level);
        ((last & X_PLACES) < self.left)
            | (self.right < (key & X_PLACES))
            | ((last & Y_PLACES) < self.top)
            | (self.bottom < (key & Y_PLACES))
    }
}
