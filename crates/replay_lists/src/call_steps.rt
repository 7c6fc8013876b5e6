// One call of a list, run on a chart.

ghost use Rattle.std.specs.Prelude.{◌≡◌};
ghost use Rattle.spec_calls.specs.History.{event_call};
ghost use Rattle.spec_calls.specs.Lent.{viewed_mut, SameLists};
ghost use Rattle.base_answers.specs.Outcomes.{answered};
ghost use Rattle.replay_calls.specs.Encoding.{IsCall, call_event};

use base_tables::point_at;
use replay_calls::{INSERT, LOAD, TAKE_OUT};
use spec_calls::ChartMut;
use spec_charts::Refusal;

// Makes a call on a chart. The numbers are those of one whole call.
pub fn run_call(call: &[u16], chart: &mut ChartMut) -> Result<(), Refusal>
    requires { IsCall call.now }
    ensures called { answered result (viewed_mut chart.new) ≡ event_call (call_event call.now) (viewed_mut chart.old) }
    ensures same_lists { SameLists chart.old chart.new }
{
    match call[0] {
        LOAD => call_load::load(&call[2..], chart),
        INSERT => {
            let p = point_at(call, 1);
            call_edits::insert(chart, p)
        }
        TAKE_OUT => {
            let p = point_at(call, 1);
            call_edits::take_out(chart, p)
        }
        _ => {
            let i = usize::from(call[1]);
            let j = usize::from(call[2]);
            call_edits::flip(chart, i, j)
        }
    }
}
