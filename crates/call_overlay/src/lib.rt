// Overlay: the pairs of triangles that have a common interior point and are listed in overlapping cells, and the meetings.

#![tactic(auto)]

mod overlay_answers;

ghost use Rattle.std.specs.Prelude.{◌≡◌};
ghost use Rattle.spec_calls.specs.Calls.{overlay_call};
ghost use Rattle.spec_calls.specs.Lent.{viewed};
ghost use Rattle.base_answers.specs.Outcomes.{left_pairs};

use base_answers::Overlaid;
use overlay_merge::ChartEntries;
use spec_calls::ChartView;
use spec_charts::Refusal;

// The end of the keys of the tree of squares.
const TREE_END: u64 = 4294967296;

// Overlay: the pairs ascending by the first number, then the second, and how many cells of the one overlap cells of the other.
pub fn overlay(first: ChartView, second: ChartView, pairs: &mut [u16]) -> Result<Overlaid, Refusal>
    ensures { left_pairs pairs result ≡ overlay_call (viewed first.entry) (viewed second.entry) pairs.old }
{
    if chart_rule::too_short(first)
        | chart_rule::too_short(second)
        | (pairs.len() < overlay_answers::PAIR_NUMBERS)
    {
        return Err(Refusal::ShortBuffer);
    }
    let first_fine = chart_rule::chain_rule(first);
    let second_fine = chart_rule::chain_rule(second);
    if !(first_fine & second_fine) {
        return Err(Refusal::BrokenChain);
    }
    let first_entries = ChartEntries {
        keys: &first.keys[..first.entries],
        items: &first.items[..first.entries],
    };
    let second_entries = ChartEntries {
        keys: &second.keys[..second.entries],
        items: &second.items[..second.entries],
    };
    let mut rows = [0u64; overlay_marks::ROWS_LENGTH];
    let meetings = overlay_merge::mark_pairs(first_entries, second_entries, &mut rows, TREE_END);
    let found = overlay_pairs::put_pairs(
        first.table,
        first.triangles,
        second.table,
        second.triangles,
        &rows,
        pairs,
    );
    overlay_answers::finish(found, meetings, pairs)
}
