// The square of a key: its corner from the key's bits.

#![tactic(auto)]

ghost use Rattle.std.specs.Prelude.{◌≡◌, ◌<◌};
ghost use Rattle.theory_orthtree.specs.Morton.{key_coordinate};
ghost use Rattle.spec_squares.specs.Square.{depth, square_of_key};

use spec_squares::Square;

// The bits at the even places of a number, gathered: bit 2k becomes bit k. Each step moves every other group of bits beside
// the one below it, so that groups of 1 become groups of 2, then of 4, 8 and 16.
fn gathered(n: u32) -> u32
    ensures { (result ≡ key_coordinate 2 0 depth n) × (result < 65536) }
{
    let ones = n & 1431655765;
    let twos = (ones | ones >> 1) & 858993459;
    let fours = (twos | twos >> 2) & 252645135;
    let eights = (fours | fours >> 4) & 16711935;
    (eights | eights >> 8) & 65535
}

// The square of this level whose key is the given one.
pub fn square_of_key(key: u32, level: u8) -> Square
    ensures { (result ≡ square_of_key key level) × ((result.x < 65536) × (result.y < 65536)) }
{
    Square {
        x: gathered(key),
        y: gathered(key / 2),
        level: u32::from(level),
    }
}
