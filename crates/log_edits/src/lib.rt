// Commands 2 to 5: what waits is loaded, and a chart is edited.

#![tactic(auto)]

ghost use Rattle.std.specs.Prelude.{◌+◌, ◌≤◌, length, get_or};
ghost use Rattle.log_events.specs.Both.{both_viewed, SameBoth};
ghost use Rattle.log_events.specs.Events.{line_room};
ghost use Rattle.log_waiting.specs.Waiting.{Whole, waiting_length};
ghost use Rattle.log_edits.specs.Edits.{RanLoad, RanEdit};

use log_bytes::words;
use log_events::BothCharts;

// Command 2: what waits is loaded into chart c.
pub fn load_command(
    c: u8,
    charts: &mut BothCharts,
    waiting: &mut [u16],
    waits: usize,
    out: &mut [u8],
    at: usize,
) -> usize
    requires { Whole waits × ((waiting_length ≤ length waiting.old) × (at + line_room ≤ length out.old)) }
    ensures ran_load { RanLoad c (both_viewed charts.old) (both_viewed charts.new) waiting.old waits at result out.old out.new }
    ensures same_lists { SameBoth charts.old charts.new }
    ensures at_in_bounds { result ≤ length out.new }
{
    waiting[0] = replay_calls::LOAD;
    waiting[1] = waits as u16;
    let call = &waiting[..log_waiting::CALL_HEAD + waits];
    log_events::event_command(c, call, charts, out, at)
}

// Commands 3 to 5: an edit of the chart that their second byte names.
pub fn edit_command(held: &[u8; 13], charts: &mut BothCharts, out: &mut [u8], at: usize) -> usize
    requires { ((3 ≤ get_or held.now 0 0) × (get_or held.now 0 0 ≤ 5)) × (at + line_room ≤ length out.old) }
    ensures ran_edit { RanEdit held.now (both_viewed charts.old) (both_viewed charts.new) at result out.old out.new }
    ensures same_lists { SameBoth charts.old charts.new }
    ensures at_in_bounds { result ≤ length out.new }
{
    let numbers = words::edit_numbers(held);
    let c = held[1];
    log_events::event_command(c, &numbers, charts, out, at)
}
