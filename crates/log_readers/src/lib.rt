// Commands 6 and 7: the triangle under a point of one of two charts, and the overlay of both.

#![tactic(auto)]

ghost use Rattle.std.specs.Prelude.{◌≡◌, ◌+◌, ◌≤◌, length};
ghost use Rattle.spec_charts.specs.Overlay.{max_pairs};
ghost use Rattle.spec_calls.specs.Buffers.{pairs_length};
ghost use Rattle.spec_calls.specs.Calls.{locate_call};
ghost use Rattle.spec_calls.specs.Lent.{viewed_mut};
ghost use Rattle.spec_log.specs.Log.{locate_step, overlay_step};
ghost use Rattle.base_answers.specs.Outcomes.{located_of, overlaid_of, overlay_counts};
ghost use Rattle.log_events.specs.Both.{both_viewed};
ghost use Rattle.log_events.specs.Events.{line_room};
ghost use Rattle.log_lines.specs.Bytes.{Wrote};
ghost use Rattle.log_state.specs.State.{chart_in, located_line, overlaid_lines};
ghost use Rattle.log_readers.specs.Readers.{overlay_room, Prints};

use base_answers::{Found, Overlaid};
use log_events::BothCharts;
use log_lines::put_line;
use spec_charts::Refusal;
use spec_plane::Point;

// Locates p in chart c.
fn locate_in(c: u8, p: Point, charts: &BothCharts) -> Result<Option<Found>, Refusal>
    ensures { located_of result ≡ locate_call (chart_in c (viewed_mut charts.now.first) (viewed_mut charts.now.second)) p }
{
    if c == 0 {
        call_locate::locate(charts.first.view(), p)
    } else {
        call_locate::locate(charts.second.view(), p)
    }
}

// The line of a locate's answer: the position after the triangle, and 65535 alone when nowhere.
fn put_located(located: Result<Option<Found>, Refusal>, out: &mut [u8], at: usize) -> usize
    requires { at + line_room ≤ length out.old }
    ensures { Wrote (located_line (located_of located)) at result out.old out.new }
{
    let number = u64::from(base_answers::number(located));
    let triangle = u64::from(base_answers::located_triangle(located));
    if base_answers::is_found(located) {
        let q = base_answers::located_position(located);
        let position = u64::from(base_positions::position_number(q));
        return put_line(6, &[number, triangle, position], out, at);
    }
    put_line(6, &[number, triangle], out, at)
}

// Command 6: locates p in chart c and prints its line.
pub fn locate_command(c: u8, p: Point, charts: &BothCharts, out: &mut [u8], at: usize) -> usize
    requires { at + line_room ≤ length out.old }
    ensures prints { Prints (λ s. locate_step c p s) (both_viewed charts.now) at result out.old out.new }
    ensures upper_bound { result ≤ length out.new }
{
    let located = locate_in(c, p, charts);
    put_located(located, out, at)
}

// The lines of an overlay's answer.
fn put_overlaid(
    overlaid: Result<Overlaid, Refusal>,
    pairs: &[u16],
    out: &mut [u8],
    at: usize,
) -> usize
    requires { ((overlay_counts overlaid).pairs ≤ max_pairs) × ((pairs_length ≤ length pairs.now) × (at + overlay_room ≤ length out.old)) }
    ensures { Wrote (overlaid_lines (overlaid_of overlaid pairs.now)) at result out.old out.new }
{
    let number = u64::from(base_answers::number(overlaid));
    match overlaid {
        Ok(counts) => {
            let others = [number, counts.pairs as u64, counts.meetings as u64];
            let next = put_line(7, &others, out, at);
            log_lines::put_pairs(pairs, counts.pairs, out, next)
        }
        Err(_) => put_line(7, &[number], out, at),
    }
}

// Command 7: lays chart 1 over chart 0 and prints the lines of the answer.
pub fn overlay_command(charts: &BothCharts, pairs: &mut [u16], out: &mut [u8], at: usize) -> usize
    requires { (pairs_length ≤ length pairs.old) × (at + overlay_room ≤ length out.old) }
    ensures prints { Prints (λ s. overlay_step s) (both_viewed charts.now) at result out.old out.new }
    ensures upper_bound { result ≤ length out.new }
{
    let overlaid = call_overlay::overlay(charts.first.view(), charts.second.view(), pairs);
    put_overlaid(overlaid, pairs, out, at)
}
