// The square of a cell as a frame, and its quarters in their order, each with its key.

ghost use Rattle.std.specs.Prelude.{◌≡◌, suc, ◌-◌, ◌^◌, ◌≤◌, ◌<◌, get_or};
ghost use Rattle.theory_orthtree.specs.Entries.{span};
ghost use Rattle.spec_squares.specs.Square.{arity, depth, square_key, quarters, Aligned};
ghost use Rattle.quadtree_cells.specs.Quarters.{Keyed, HasQuarter, FrameOf};

use quadtree_shapes::shapes::Frame;
use spec_squares::Square;

// A square with its key.
#[derive(Clone, Copy)]
pub struct KeyedSquare {
    pub square: Square,
    pub key: u64,
}

// The square with its whole border.
pub fn frame_of(s: Square) -> Frame
    requires { Aligned s }
    ensures { FrameOf s result }
{
    let side = s.side();
    let right = s.x + side;
    let bottom = s.y + side;
    Frame {
        left: u64::from(s.x),
        top: u64::from(s.y),
        right: u64::from(right),
        bottom: u64::from(bottom),
    }
}

// How many keys a quarter of a square of this level covers: 4^(15 - level).
fn key_step(level: u32) -> u64
    requires { level < depth }
    ensures { (result ≡ span arity depth (suc level)) × (result ≤ arity ^ (depth - 1)) }
{
    let side = 32768u64 >> level;
    side * side
}

// Quarter k of a square with its key.
pub fn keyed_quarter(s: KeyedSquare, k: u32) -> KeyedSquare
    requires { Keyed s × HasQuarter s.square k }
    ensures { (result.square ≡ get_or (quarters s.square) k s.square) × (result.key ≡ square_key result.square) }
{
    let square = s.square;
    let step = key_step(square.level);
    KeyedSquare {
        square: square.quarter(k),
        key: s.key + u64::from(k) * step,
    }
}
