// Lists of calls written as numbers: whether a whole call stands at the start, and how many numbers it takes.

#![tactic(auto)]

ghost use Rattle.std.specs.Prelude.{◌≡◌, ◌<◌, MatchOption};
ghost use Rattle.replay_calls.specs.Encoding.{call_length, whole_call};

// The commands.
// Kept: they are numbers of the list itself, read and written (log_edits), and matched where a call is made: an enum would add two conversions.
pub const LOAD: u16 = 2;

pub const INSERT: u16 = 3;

pub const TAKE_OUT: u16 = 4;

pub const FLIP: u16 = 5;

// How many numbers a call takes with its command, by the command and the number after it.
#[tactic(auto, using(std::proofs::lemmas::Bool::Decides::nat_tests), unfolding(crate::specs::Encoding::call_length))]
fn call_length(command: u16, n: u16) -> Option<usize>
    ensures { MatchOption result (call_length command n ≡ 0) (λ size. (0 < size) × (size ≡ call_length command n)) }
{
    match command {
        LOAD => Some(usize::from(n) + 2),
        INSERT | TAKE_OUT | FLIP => Some(3),
        _ => None,
    }
}

// How many numbers the call at the start of a list takes, where a whole call stands there.
pub fn whole_call(calls: &[u16]) -> Option<usize>
    ensures { MatchOption result (whole_call calls.now ≡ 0) (λ size. (0 < size) × (size ≡ whole_call calls.now)) }
{
    let [command, n, ..] = calls else {
        return None;
    };
    let size = call_length(*command, *n)?;
    if size <= calls.len() {
        Some(size)
    } else {
        None
    }
}
