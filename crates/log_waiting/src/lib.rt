// Command 1: a triangle more waits, or `1 4` is printed.

#![tactic(auto)]

ghost use Rattle.std.specs.Prelude.{◌+◌, ◌≤◌, length, drop};
ghost use Rattle.spec_log.specs.Log.{words_of};
ghost use Rattle.log_events.specs.Events.{line_room};
ghost use Rattle.log_waiting.specs.Waiting.{Whole, waiting_length, Waited};

use base_tables::{TABLE_NUMBERS, TRIANGLE_NUMBERS};
use log_bytes::words;

// The numbers before those of the waiting table, so that with them it is the call that loads it.
pub const CALL_HEAD: usize = 2;

// How many numbers wait after a command, and the place after what it printed.
// Kept: no heap, so what waits stands in a fixed list with its count beside it.
#[derive(Clone, Copy)]
pub struct Waiting {
    pub waits: usize,
    pub at: usize,
}

// Command 1: a triangle more waits, or `1 4` is printed.
pub fn wait_command(
    held: &[u8; 13],
    waiting: &mut [u16],
    waits: usize,
    out: &mut [u8],
    at: usize,
) -> Waiting
    requires { Whole waits × ((waiting_length ≤ length waiting.old) × (at + line_room ≤ length out.old)) }
    ensures { Waited (words_of 6 (drop 1 held.now)) at result.at out.old out.new waits result.waits waiting.old waiting.new }
{
    if waits < TABLE_NUMBERS {
        words::put_six(held, waiting, CALL_HEAD + waits);
        return Waiting {
            waits: waits + TRIANGLE_NUMBERS,
            at,
        };
    }
    let next = log_lines::put_line(1, &[4], out, at);
    Waiting { waits, at: next }
}
