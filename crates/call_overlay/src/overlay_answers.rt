// The answer of an overlay: refusal 12, or the pairs with zeros after them and the counts.

ghost use Rattle.std.specs.Prelude.{◌≡◌, List, ℕ, ◌≤◌, IfSome, length};
ghost use Rattle.spec_charts.specs.Overlay.{Pair, max_pairs, within_pairs};
ghost use Rattle.spec_calls.specs.Buffers.{pairs_length};
ghost use Rattle.spec_calls.specs.Calls.{overlaid_by};
ghost use Rattle.base_answers.specs.Outcomes.{left_pairs};
ghost use Rattle.overlay_pairs.specs.Pairs.{Wrote};

use base_answers::Overlaid;
use overlay_pairs::pair_writes;
use spec_charts::Refusal;

// The numbers of a full list of pairs.
pub const PAIR_NUMBERS: usize = 2 * pair_writes::MOST_PAIRS;

// The answer, where so many pairs are written, or none where they are too many: zeros after the pairs, or in all places.
pub fn finish(found: Option<usize>, meetings: usize, pairs: &mut [u16]) -> Result<Overlaid, Refusal>
    requires { IfSome found (λ n. n ≤ max_pairs) × (pairs_length ≤ length pairs.old) }
    ensures { (ps : List Pair) (before : List ℕ) → Wrote ps 0 found before pairs.old → left_pairs pairs result ≡ overlaid_by before (within_pairs ps meetings) }
{
    let Some(count) = found else {
        pairs[..PAIR_NUMBERS].fill(0);
        return Err(Refusal::TooManyPairs);
    };
    pairs[2 * count..PAIR_NUMBERS].fill(0);
    Ok(Overlaid {
        pairs: count,
        meetings,
    })
}
