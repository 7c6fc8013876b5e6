// The 16-bit numbers of a command, low byte first.

ghost use Rattle.std.specs.Prelude.{◌≡◌, ◌+◌, ◌≤◌, ◌<◌, length, drop};
ghost use Rattle.spec_log.specs.Log.{words_of};
ghost use Rattle.log_lines.specs.Bytes.{Wrote};
ghost use Rattle.log_bytes.specs.Words.{word_at, edit_numbers};

use base_tables::TRIANGLE_NUMBERS;

// The number whose bytes stand at places k and k + 1.
pub fn word(held: &[u8; 13], k: usize) -> u16
    requires { k < 12 }
    ensures { result ≡ word_at held.now k }
{
    u16::from_le_bytes([held[k], held[k + 1]])
}

// The six numbers of a triangle, stored from a place on.
pub fn put_six(held: &[u8; 13], numbers: &mut [u16], at: usize)
    requires { at + 6 ≤ length numbers.old }
    ensures { Wrote (words_of 6 (drop 1 held.now)) at (at + 6) numbers.old numbers.new }
{
    for k in 0..TRIANGLE_NUMBERS {
        numbers[at + k] = word(held, 1 + 2 * k);
    }
}

// The numbers of an edit's call.
pub fn edit_numbers(held: &[u8; 13]) -> [u16; 3]
    ensures { result ≡ edit_numbers held.now }
{
    [u16::from(held[0]), word(held, 2), word(held, 4)]
}
