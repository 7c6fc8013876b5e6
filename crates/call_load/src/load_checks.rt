// Refusals 1, 4 and 5 of a load.

ghost use Rattle.std.specs.Prelude.{◌≡◌, ◌*◌, ◌≤◌, length};
ghost use Rattle.spec_charts.specs.Table.{numbers_per_triangle, table_of};
ghost use Rattle.spec_charts.specs.Refusals.{done, and_then};
ghost use Rattle.spec_charts.specs.Edits.{load_table};
ghost use Rattle.spec_calls.specs.Calls.{if_long};
ghost use Rattle.spec_calls.specs.Lent.{viewed};
ghost use Rattle.base_answers.specs.Outcomes.{outcome_of};
ghost use Rattle.call_load.specs.Faulty.{FaultyFound};

use base_geometry::geometry;
use spec_calls::ChartView;
use spec_charts::Refusal;

// The lowest of the first n triangles that has D <= 0.
fn first_faulty(table: &[u16], n: usize) -> Option<usize>
    requires { numbers_per_triangle * n ≤ length table.now }
    ensures { FaultyFound (table_of table.now n) n result }
{
    for i in 0..n {
        if !geometry::is_proper(base_tables::triangle_at(table, i)) {
            return Some(i);
        }
    }
    None
}

// Refusals 4 and 5 of the numbers given to a load, in their order.
fn judge_given(numbers: &[u16]) -> Result<(), Refusal>
    ensures { outcome_of result ≡ and_then (load_table numbers.now) (λ t. done tt) }
{
    if (numbers.len() % base_tables::TRIANGLE_NUMBERS != 0)
        | (numbers.len() > base_tables::TABLE_NUMBERS)
    {
        return Err(Refusal::BadLength);
    }
    let n = numbers.len() / base_tables::TRIANGLE_NUMBERS;
    match first_faulty(numbers, n) {
        Some(faulty) => Err(Refusal::FaultyTriangle(faulty)),
        None => Ok(()),
    }
}

// Refusals 1, 4 and 5 of a load, in their order.
pub fn judge_load(numbers: &[u16], chart: ChartView) -> Result<(), Refusal>
    ensures { outcome_of result ≡ if_long (viewed chart.entry) (and_then (load_table numbers.now) (λ t. done tt)) }
{
    if chart_rule::too_short(chart) {
        return Err(Refusal::ShortBuffer);
    }
    judge_given(numbers)
}
