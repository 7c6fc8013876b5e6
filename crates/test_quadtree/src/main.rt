// A test program: reads tables from standard input, builds the quadtree of each and writes its entries.
//
// A table comes as its number of triangles, then six coordinates for each triangle, all of them 16-bit numbers, low byte first.
// It prints a line with the number of its entries and a line `key level triangle` for each, or `over` above 16,384 entries, or
// `refused` where a triangle has D <= 0. More than 512 triangles print `refused` and end the program; a cut table ends it too.

#![tactic(auto)]

ghost use Rattle.std.specs.Prelude.{◌≤◌};
ghost use Rattle.spec_charts.specs.Cells.{max_entries};

use base_tables::{MOST_ENTRIES, MOST_TRIANGLES, TABLE_NUMBERS, TRIANGLE_NUMBERS};
use std::io::Read;

// Writes the line of an entry, as the log writes its lines. Kept from println!, by which a run of full tables takes three quarters as
// many instructions again (docs/LOOK-BACK.md).
fn print_entry(rt: &impl Print, key: u32, level: u8, item: u16) {
    let mut line = [0u8; 64];
    let parts = [u64::from(level), u64::from(item)];
    let end = log_lines::put_line(u64::from(key), &parts, &mut line, 0);
    let _ = rt.write_all(&line[..end]);
}

// All places of a list hold 0. Kept from `all`, which ends at the first that doesn't, and so looks at one place at a time.
fn is_zero<T: Copy + Into<u32>>(list: &[T]) -> bool {
    list.iter().fold(0u32, |bits, x| bits | (*x).into()) == 0
}

// The lists of the entries.
#[derive(Drop)]
struct Entries {
    keys: [u32; MOST_ENTRIES],
    levels: [u8; MOST_ENTRIES],
    items: [u16; MOST_ENTRIES],
}

impl Entries {
    // Writes the first n entries.
    fn print(&self, rt: &impl Print, n: usize) {
        let lists = self.keys.iter().zip(&self.levels).zip(&self.items);
        for ((key, level), item) in lists.take(n) {
            print_entry(rt, *key, *level, *item);
        }
    }

    // The places from n on hold 0.
    fn is_zero_from(&self, n: usize) -> bool
        requires { n ≤ max_entries }
    {
        is_zero(&self.keys[n..]) & is_zero(&self.levels[n..]) & is_zero(&self.items[n..])
    }

    // Builds the entries of a table and writes them.
    fn build(&mut self, rt: &impl Print, table: &[u16]) {
        let n = test_build::build_table(table, &mut self.keys, &mut self.levels, &mut self.items);
        let _ = match n {
            0..=MOST_ENTRIES => println!(rt; "{n}"),
            16385 => println!(rt; "over"),
            _ => println!(rt; "refused"),
        };
        if n <= MOST_ENTRIES {
            self.print(rt, n);
            if !self.is_zero_from(n) {
                let _ = println!(rt; "the rest is not 0");
            }
        }
    }

    // Reads a table and builds its entries, if there is one.
    fn build_next(&mut self, rt: &impl Print, source: &mut impl Read) -> Option<()> {
        let mut count = [0u8; 2];
        source.read_exact(&mut count).ok()?;
        let n = usize::from(u16::from_le_bytes(count));
        if n > MOST_TRIANGLES {
            let _ = println!(rt; "refused");
            return None;
        }
        let numbers = TRIANGLE_NUMBERS * n;
        let mut bytes = [0u8; 2 * TABLE_NUMBERS];
        let bytes = &mut bytes[..2 * numbers];
        source.read_exact(bytes).ok()?;
        let mut table = [0u16; TABLE_NUMBERS];
        test_support::decode(bytes, &mut table);
        self.build(rt, &table[..numbers]);
        Some(())
    }
}

// The lists go from table to table, so that each build finds the entries of the one before.
fn main(rt: HostRuntime) {
    let mut source = rt.reader();
    let mut entries = Entries {
        keys: [7; MOST_ENTRIES],
        levels: [7; MOST_ENTRIES],
        items: [7; MOST_ENTRIES],
    };
    for _ in 0..u64::MAX {
        if entries.build_next(&rt, &mut source).is_none() {
            break;
        }
    }
}
