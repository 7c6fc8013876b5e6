// What the bytes of a command tell.

ghost use Rattle.std.specs.Prelude.{◌≡◌, not, ◌≤◌, get_or, take, drop};
ghost use Rattle.spec_log.specs.Log.{takes_chart, operand_bytes};
ghost use Rattle.spec_log.specs.Log.{known as Log·known};
ghost use Rattle.log_portions.specs.Portions.{fine_so_far};

// The byte is a command's.
#[tactic(auto, using(std::proofs::lemmas::Bool::Decides::nat_tests), unfolding(spec_log::specs::Log::known))]
fn known(b: u8) -> bool
    ensures { result ≡ Log·known b }
{
    matches!(b, 1..=7)
}

// The command's second byte names a chart.
#[tactic(auto, using(std::proofs::lemmas::Bool::Decides::nat_tests), unfolding(spec_log::specs::Log::takes_chart))]
fn takes_chart(b: u8) -> bool
    ensures { result ≡ takes_chart b }
{
    matches!(b, 2..=6)
}

// How many bytes follow the command byte.
// Kept: a match on the byte, as the definitions in spec_log take a number, any byte included; an enum would need a case for none.
#[tactic(auto, using(std::proofs::lemmas::Bool::Decides::nat_tests), unfolding(spec_log::specs::Log::operand_bytes, spec_log::specs::Log::chart_bytes, spec_log::specs::Log::takes_chart, spec_log::specs::Log::word_count))]
pub fn operand_bytes(b: u8) -> usize
    ensures { (result ≡ operand_bytes b) × (result ≤ 12) }
{
    match b {
        1 => 12,
        2 => 1,
        3..=6 => 5,
        _ => 0,
    }
}

// No command begins with the bytes held, the first and `count` more.
// Kept: no heap, so the bytes stand in a fixed array with their count beside it.
pub fn is_bad(held: &[u8; 13], count: usize) -> bool
    requires { count ≤ 12 }
    ensures { result ≡ not (fine_so_far (get_or held.now 0 0) (take count (drop 1 held.now))) }
{
    let b = held[0];
    !known(b) | (takes_chart(b) & (0 < count) & (1 < held[1]))
}
