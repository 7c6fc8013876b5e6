// Sets of small numbers as bits of words, 64 to a word.

ghost use Rattle.std.specs.Prelude.{◌+◌, ◌/◌, ◌≤◌, ◌<◌, length};
ghost use Rattle.overlay_marks.specs.Bits.{Inserted, Joined};

// Bits of a word.
pub const WORD: usize = 64;

// Sets bit k.
pub fn insert(words: &mut [u64], k: usize)
    requires { k / 64 < length words.old }
    ensures { Inserted words.old k words.new }
{
    words[k / WORD] |= 1u64 << ((k % WORD) as u32);
}

// Joins the words of a set into the words from place `at` on.
pub fn join(words: &mut [u64], at: usize, set: &[u64])
    requires { at + length set.now ≤ length words.old }
    ensures { Joined words.old at set.now (length set.now) words.new }
{
    for (i, bits) in set.iter().enumerate() {
        words[at + i] |= *bits;
    }
}
