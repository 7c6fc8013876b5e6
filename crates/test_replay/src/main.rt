// Runs lists of calls on two charts and the overlay after them, by `replay`, whose contract is demand 3.
//
// Reads cases until the input ends: the length of list 0, list 0, the length of list 1, list 1, all as 16-bit numbers, low byte first;
// crates/replay_calls/specs/Encoding.antt says how calls are written. A list that is cut or has over 4,096 numbers ends the program.
// The buffers of each case are longer than asked and hold something other than 0, and the counts are those of no chart. A case
// prints a line: `replay`, the overlay's number, its pairs and meetings, the triangles and entries of chart 0 and of chart 1, and a
// checksum of all places of chart 0, of chart 1 and of the pairs.

#![tactic(auto)]

use spec_calls::ChartMut;
use std::io::Read;
use test_support::charts::Buffers;

// The most numbers of a list.
const LONGEST: usize = 4096;

// Runs a case on buffers of its own, and prints its line.
fn run_case(rt: &impl Print, calls0: &[u16], calls1: &[u16]) {
    let mut a = Buffers {
        table: [21u16; 3080],
        keys: [22u32; 16390],
        levels: [23u8; 16390],
        items: [24u16; 16390],
    };
    let mut b = Buffers {
        table: [31u16; 3080],
        keys: [32u32; 16390],
        levels: [33u8; 16390],
        items: [34u16; 16390],
    };
    let mut pairs = [41u16; 8200];
    let mut first = ChartMut {
        table: &mut a.table,
        keys: &mut a.keys,
        levels: &mut a.levels,
        items: &mut a.items,
        triangles: 513,
        entries: 70000,
    };
    let mut second = ChartMut {
        table: &mut b.table,
        keys: &mut b.keys,
        levels: &mut b.levels,
        items: &mut b.items,
        triangles: 7,
        entries: 20000,
    };
    let overlaid = replay::replay(calls0, &mut first, calls1, &mut second, &mut pairs);
    let number = base_answers::number(overlaid);
    let counts = base_answers::overlay_counts(overlaid);
    let _ = print!(rt; "replay {number} {} {}", counts.pairs, counts.meetings);
    let _ = print!(rt; " {} {}", first.triangles, first.entries);
    let _ = print!(rt; " {} {}", second.triangles, second.entries);
    let sum = test_support::checksum(&pairs, b.checksum(a.checksum(0)));
    let _ = println!(rt; " {sum}");
}

// Reads a list into numbers of the caller's, if there is one of at most so many.
fn read_list<'a>(source: &mut impl Read, list: &'a mut [u16; LONGEST]) -> Option<&'a [u16]> {
    let mut count = [0u8; 2];
    source.read_exact(&mut count).ok()?;
    let n = usize::from(u16::from_le_bytes(count));
    let mut bytes = [0u8; 2 * LONGEST];
    let bytes = bytes.get_mut(..2 * n)?;
    source.read_exact(bytes).ok()?;
    test_support::decode(bytes, list);
    list.get(..n)
}

// Reads a case and runs it, if there is one.
fn next_case(rt: &impl Print, source: &mut impl Read) -> Option<()> {
    let mut list0 = [0u16; LONGEST];
    let mut list1 = [0u16; LONGEST];
    let calls0 = read_list(source, &mut list0)?;
    let calls1 = read_list(source, &mut list1)?;
    run_case(rt, calls0, calls1);
    Some(())
}

fn main(rt: HostRuntime) {
    let mut source = rt.reader();
    for _ in 0..u64::MAX {
        if next_case(&rt, &mut source).is_none() {
            break;
        }
    }
}
