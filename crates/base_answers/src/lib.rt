// What the public calls answer. Document 01's number and value for each case are definitions in specs/, and functions here.

#![tactic(auto)]

ghost use Rattle.std.specs.Prelude.{◌≡◌};
ghost use Rattle.std.proofs.Math.Option.{none};
ghost use Rattle.spec_charts.specs.Refusals.{outcome_number, outcome_value, done_or};
ghost use Rattle.base_answers.specs.Outcomes.{outcome_of, located_outcome, located_position, found_number, is_found, overlay_counts};

use spec_charts::Refusal;
use spec_plane::Position;

// The triangle under a point, and where the point lies by it.
#[derive(Clone, Copy)]
pub struct Found {
    pub triangle: u16,
    pub position: Position,
}

// An overlay: the pairs listed and the meetings.
#[derive(Clone, Copy)]
pub struct Overlaid {
    pub pairs: usize,
    pub meetings: usize,
}

// The number of an answer: 0, or that of its refusal.
pub fn number<A: Copy>(answer: Result<A, Refusal>) -> u32
    ensures { result ≡ outcome_number (outcome_of answer) }
{
    match answer {
        Ok(_) => 0,
        Err(refusal) => u32::from(refusal),
    }
}

// Its value: the triangle of refusal 5, else 0.
pub fn value<A: Copy>(answer: Result<A, Refusal>) -> usize
    ensures { result ≡ outcome_value (outcome_of answer) }
{
    match answer {
        Ok(_) => 0,
        Err(refusal) => refusal.value(),
    }
}

// What stands for nowhere.
pub const NOWHERE: u16 = 65535;

// The triangle that a locate found, or 65535; "locate's answer is nowhere" at a refusal.
pub fn located_triangle(located: Result<Option<Found>, Refusal>) -> u16
    ensures { result ≡ found_number (done_or none (located_outcome located)) }
{
    match located {
        Ok(Some(found)) => found.triangle,
        Ok(None) => NOWHERE,
        Err(_) => NOWHERE,
    }
}

// Whether it found a triangle.
pub fn is_found(located: Result<Option<Found>, Refusal>) -> bool
    ensures { result ≡ is_found (done_or none (located_outcome located)) }
{
    matches!(located, Ok(Some(_)))
}

// Its position; outside when nowhere and at a refusal.
pub fn located_position(located: Result<Option<Found>, Refusal>) -> Position
    ensures { result ≡ located_position located }
{
    match located {
        Ok(Some(found)) => found.position,
        Ok(None) => Position::Outside,
        Err(_) => Position::Outside,
    }
}

// What an answer is done with, or what stands for it at a refusal: "soundness is no", "Other numbers returned are 0".
pub fn done_or<A: Copy>(answer: Result<A, Refusal>, otherwise: A) -> A
    ensures { result ≡ done_or otherwise (outcome_of answer) }
{
    answer.unwrap_or(otherwise)
}

// The counts of an overlay's answer; 0 at a refusal.
pub fn overlay_counts(overlaid: Result<Overlaid, Refusal>) -> Overlaid
    ensures { result ≡ overlay_counts overlaid }
{
    overlaid.unwrap_or(Overlaid {
        pairs: 0,
        meetings: 0,
    })
}
