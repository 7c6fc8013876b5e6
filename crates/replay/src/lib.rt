// Two lists of calls, one for each chart, and the overlay of the two charts after them: demand 3 as running code.

#![tactic(auto)]

ghost use Rattle.spec_calls.specs.Lent.{viewed_mut, SameLists};
ghost use Rattle.base_answers.specs.Outcomes.{left_pairs};
ghost use Rattle.replay.specs.Replay.{Replayed};

use base_answers::Overlaid;
use replay_lists::run_history;
use spec_calls::ChartMut;
use spec_charts::Refusal;

// Begins both charts with a load of the empty table, makes the calls of the two lists on them, and lays the one over the other.
pub fn replay(
    calls0: &[u16],
    first: &mut ChartMut,
    calls1: &[u16],
    second: &mut ChartMut,
    pairs: &mut [u16],
) -> Result<Overlaid, Refusal>
    ensures replayed { Replayed (viewed_mut first.old) (viewed_mut second.old) pairs.old calls0.now calls1.now (viewed_mut first.new) (viewed_mut second.new) (left_pairs pairs result) }
    ensures same_lists { SameLists first.old first.new × SameLists second.old second.new }
{
    run_history(calls0, first);
    run_history(calls1, second);
    call_overlay::overlay(first.view(), second.view(), pairs)
}
