// A whole command, from its bytes to what it prints.

#![tactic(auto)]

ghost use Rattle.std.specs.Prelude.{◌≡◌, ◌+◌, ◌≤◌, ◌<◌, length};
ghost use Rattle.spec_calls.specs.Buffers.{pairs_length};
ghost use Rattle.log_waiting.specs.Waiting.{Whole, waiting_length};
ghost use Rattle.log_readers.specs.Readers.{overlay_room};
ghost use Rattle.log_events.specs.Both.{both_viewed, SameBoth};
ghost use Rattle.log_commands.specs.Commands.{RanHeld};

use log_bytes::words;
use log_events::BothCharts;
use log_waiting::Waiting;
use spec_plane::Point;

// Runs a whole command of the 13 bytes held; those after its operands play no part.
// Kept: a match on the byte, since the contract holds for every byte: what is no command's runs as the last.
pub fn run_command(
    held: &[u8; 13],
    charts: &mut BothCharts,
    waiting: &mut [u16],
    waits: usize,
    pairs: &mut [u16],
    out: &mut [u8],
    at: usize,
) -> Waiting
    requires { Whole waits × ((waiting_length ≤ length waiting.old) × ((pairs_length ≤ length pairs.old) × (at + overlay_room ≤ length out.old))) }
    ensures ran { RanHeld held.now (both_viewed charts.old) waiting.old waits (both_viewed charts.new) waiting.new result.waits at result.at out.old out.new }
    ensures same_lists { SameBoth charts.old charts.new }
    ensures at_in_bounds { (result.at ≤ length out.new) × Whole result.waits }
{
    let c = held[1];
    match held[0] {
        1 => log_waiting::wait_command(held, waiting, waits, out, at),
        2 => {
            let at = log_edits::load_command(c, charts, waiting, waits, out, at);
            Waiting { waits: 0, at }
        }
        3..=5 => {
            let at = log_edits::edit_command(held, charts, out, at);
            Waiting { waits, at }
        }
        6 => {
            let p = Point {
                x: words::word(held, 2),
                y: words::word(held, 4),
            };
            let at = log_readers::locate_command(c, p, charts, out, at);
            Waiting { waits, at }
        }
        _ => {
            let at = log_readers::overlay_command(charts, pairs, out, at);
            Waiting { waits, at }
        }
    }
}
