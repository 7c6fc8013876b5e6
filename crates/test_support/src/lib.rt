// What the test programs need beside the calls: charts in buffers and how much of them is lent, puts, checksums, and what is printed.

#![tactic(auto)]

pub mod charts;
pub mod test_prints;

// The numbers of a list of bytes, low byte first, as far as both lists go.
pub fn decode(bytes: &[u8], given: &mut [u16]) {
    for (x, pair) in given.iter_mut().zip(bytes.as_chunks::<2>().0) {
        *x = u16::from_le_bytes(*pair);
    }
}

// The lower 16 bits of a number.
pub fn low_half(x: u32) -> u16 {
    (x % 65536) as u16
}

// The lowest 8 bits of a number.
pub fn low_byte(x: u32) -> u8 {
    (x % 256) as u8
}

// The first n places of a list, or as many as there are.
pub fn first_places<T>(list: &[T], n: usize) -> &[T] {
    &list[..n.min(list.len())]
}

// The same, to be written.
pub fn first_places_mut<T>(list: &mut [T], n: usize) -> &mut [T] {
    let end = n.min(list.len());
    &mut list[..end]
}

// x at a place of a list, if it has that place.
pub fn put<T: Drop>(list: &mut [T], place: usize, x: T) {
    if let Some(there) = list.get_mut(place) {
        *there = x;
    }
}

// One place more of a checksum.
fn mixed(sum: u32, x: u32) -> u32 {
    ((u64::from(sum) * 31 + u64::from(x) + 1) % 4294967291) as u32
}

// A checksum of what went before, and the places of a list.
pub fn checksum<T: Copy + Into<u32>>(list: &[T], from: u32) -> u32 {
    list.iter().fold(from, |sum, x| mixed(sum, (*x).into()))
}
