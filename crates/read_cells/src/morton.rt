// Z of a point, byte by byte.

ghost use Rattle.std.specs.Prelude.{◌≡◌, [], ◌∷◌, ◌≤◌, ◌<◌};
ghost use Rattle.theory_orthtree.specs.Morton.{morton_key};
ghost use Rattle.spec_squares.specs.Square.{z_order};

use spec_plane::Point;

// Bit k of n at place 2k: first the upper four bits of the byte move by 4 places, then of each four the upper two by 2,
// then of each two the upper one by 1.
fn spread(n: u32) -> u32
    requires { n < 256 }
    ensures { (result ≡ morton_key 8 (n ∷ 0 ∷ [])) × (result ≤ 21845) }
{
    let fours = (n | n << 4) & 0x0F0F;
    let twos = (fours | fours << 2) & 0x3333;
    (twos | twos << 1) & 0x5555
}

// The key of two bytes.
fn interleaved(x: u32, y: u32) -> u32
    requires { (x < 256) × (y < 256) }
    ensures { (result ≡ morton_key 8 (x ∷ y ∷ [])) × (result ≤ 65535) }
{
    spread(x) + 2 * spread(y)
}

// Z(x,y): bit k of x at place 2k and bit k of y at place 2k + 1. The low bytes give the low half.
pub fn z_order(p: Point) -> u32
    ensures { result ≡ z_order p }
{
    let x = u32::from(p.x);
    let y = u32::from(p.y);
    interleaved(x % 256, y % 256) + 65536 * interleaved(x / 256, y / 256)
}
