// Commands 2 to 5: a call on one of two charts, and the line that is printed of it.

#![tactic(auto)]

ghost use Rattle.std.specs.Prelude.{◌≡◌, ◌+◌, ◌≤◌, length};
ghost use Rattle.spec_charts.specs.Refusals.{outcome_number, outcome_value};
ghost use Rattle.spec_log.specs.Log.{line};
ghost use Rattle.base_answers.specs.Outcomes.{outcome_of};
ghost use Rattle.replay_calls.specs.Encoding.{IsCall};
ghost use Rattle.log_lines.specs.Bytes.{Wrote};
ghost use Rattle.log_state.specs.State.{told_numbers};
ghost use Rattle.log_events.specs.Both.{both_viewed, SameBoth, entries_in};
ghost use Rattle.log_events.specs.Events.{Called, RanCall, line_room};

use log_lines::put_line;
use replay_lists::call_steps;
use spec_calls::ChartMut;
use spec_charts::Refusal;

// Both charts of the command program.
#[derive(Drop)]
pub struct BothCharts<'a> {
    pub first: ChartMut<'a>,
    pub second: ChartMut<'a>,
}

// Makes a call on chart c.
fn change(c: u8, call: &[u16], charts: &mut BothCharts) -> Result<(), Refusal>
    requires { IsCall call.now }
    ensures called { Called c call.now (both_viewed charts.old) result (both_viewed charts.new) }
    ensures same_lists { SameBoth charts.old charts.new }
{
    if c == 0 {
        call_steps::run_call(call, &mut charts.first)
    } else {
        call_steps::run_call(call, &mut charts.second)
    }
}

// The entry count of chart c.
fn entry_count(c: u8, charts: &BothCharts) -> usize
    ensures { result ≡ entries_in c (both_viewed charts.now) }
{
    if c == 0 {
        charts.first.entries
    } else {
        charts.second.entries
    }
}

// The line of a call: its command, its number, then the entry count or, at refusal 5, the triangle.
fn put_told(
    command: u16,
    answer: Result<(), Refusal>,
    entries: usize,
    out: &mut [u8],
    at: usize,
) -> usize
    requires { at + line_room ≤ length out.old }
    ensures { Wrote (line command (told_numbers (outcome_number (outcome_of answer)) (outcome_value (outcome_of answer)) entries)) at result out.old out.new }
{
    let number = u64::from(base_answers::number(answer));
    let first = u64::from(command);
    match number {
        0 => put_line(first, &[number, entries as u64], out, at),
        5 => {
            let triangle = base_answers::value(answer) as u64;
            put_line(first, &[number, triangle], out, at)
        }
        _ => put_line(first, &[number], out, at),
    }
}

// Commands 2 to 5, as the numbers of a call: makes it on chart c and prints its line; the place after that.
pub fn event_command(
    c: u8,
    call: &[u16],
    charts: &mut BothCharts,
    out: &mut [u8],
    at: usize,
) -> usize
    requires { IsCall call.now × (at + line_room ≤ length out.old) }
    ensures ran_call { RanCall c call.now (both_viewed charts.old) (both_viewed charts.new) at result out.old out.new }
    ensures same_lists { SameBoth charts.old charts.new }
    ensures at_in_bounds { result ≤ length out.new }
{
    let command = call[0];
    let answer = change(c, call, charts);
    let entries = entry_count(c, charts);
    put_told(command, answer, entries, out, at)
}
