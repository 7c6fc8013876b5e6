// An entry packed into one number: key, level and item at places 32, 16 and 0. Nothing else knows the places.

#![tactic(auto)]

ghost use Rattle.std.specs.Prelude.{◌≡◌, ◌+◌, ◌≤◌, ◌<◌};
ghost use Rattle.theory_orthtree.specs.Entries.{entry, empty_mark};
ghost use Rattle.base_entries.specs.Packed.{key_weight, head_of, max_head, packed, key_of, level_of, item_of};

// What a key and a level of 1 count in a packed entry, and how many levels have their place.
const KEY_WEIGHT: u64 = 4294967296;

const LEVEL_WEIGHT: u64 = 65536;

const LEVEL_PLACES: u64 = 256;

// The item of a cell that no triangle meets.
pub const MARK: u16 = 65535;

// Key, level and item as one number.
// Kept: (d) key, level and item stand in three lists at each call, so a struct with `From` would be put together to be taken apart.
pub fn pack(key: u32, level: u8, item: u16) -> u64
    ensures { result ≡ packed (entry key level item) }
{
    u64::from(key) * KEY_WEIGHT + u64::from(level) * LEVEL_WEIGHT + u64::from(item)
}

// Key and level at their places: what the entries of a cell have in common.
pub fn head_of(key: u64, level: u32) -> u64
    requires { (key < key_weight) × (level ≤ 16) }
    ensures { (result ≡ head_of key level) × (result ≤ max_head) }
{
    key * KEY_WEIGHT + u64::from(level) * LEVEL_WEIGHT
}

// The entry of a cell that no triangle meets.
pub fn marked(head: u64) -> u64
    requires { head ≤ max_head }
    ensures { result ≡ head + empty_mark }
{
    head + u64::from(MARK)
}

// The key of a packed entry.
pub fn key_of(x: u64) -> u32
    ensures { result ≡ key_of x }
{
    (x / KEY_WEIGHT) as u32
}

// Its level.
pub fn level_of(x: u64) -> u8
    ensures { result ≡ level_of x }
{
    (x / LEVEL_WEIGHT % LEVEL_PLACES) as u8
}

// Its item.
pub fn item_of(x: u64) -> u16
    ensures { result ≡ item_of x }
{
    (x % LEVEL_WEIGHT) as u16
}
