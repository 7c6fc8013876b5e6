// Squares of the quadtree.

#![tactic(auto)]

ghost use Rattle.std.specs.Prelude.{◌≡◌, suc, ◌%◌, ◌≤◌, ◌<◌, get_or};
ghost use Rattle.spec_squares.specs.Square.{arity, side_at, whole_square, quarters};

// A square by its top left corner and its level, 0 to 16; its side is 2^(16 - level).
#[derive(Clone, Copy)]
pub struct Square {
    pub x: u32,
    pub y: u32,
    pub level: u32,
}

impl Square {
    pub const WHOLE: Square = Square {
        x: 0,
        y: 0,
        level: 0,
    };

    // The square of level 0 at corner (0, 0).
    pub fn whole() -> Square
        ensures { result ≡ whole_square }
    {
        Square::WHOLE
    }

    // 2^(16 - level).
    pub fn side(self) -> u32
        requires { self.level ≤ 16 }
        ensures { (result ≡ side_at self.level) × (result ≤ 65536) }
    {
        65536 >> self.level
    }

    // The side of a quarter.
    fn half(self) -> u32
        requires { self.level < 16 }
        ensures { (result ≡ side_at (suc self.level)) × (result ≤ 32768) }
    {
        32768 >> self.level
    }

    // Quarter k, in their order: 1 and 3 are on the right, 2 and 3 at the bottom.
    pub fn quarter(self, k: u32) -> Square
        requires number { (self.level < 16) × (k < arity) }
        requires room { (k % 2 ≡ 1 → self.x ≤ 65536) × (2 ≤ k → self.y ≤ 65536) }
        ensures { result ≡ get_or (quarters self) k self }
    {
        let half = self.half();
        Square {
            x: self.x + k % 2 * half,
            y: self.y + k / 2 * half,
            level: self.level + 1,
        }
    }
}
