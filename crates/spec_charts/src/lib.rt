// Document 01 on plain tables as definitions. No code but the type of a refusal, which code and definitions share, and its row.

#![tactic(auto)]

ghost use Rattle.std.specs.Prelude.{◌≡◌};
ghost use Rattle.spec_charts.specs.Refusals.{row_of};

// Document 01's table of numbers with document 02's, row by row: why a call or an event is refused. `row_of` in specs/ has the numbers.
#[derive(Clone, Copy, PartialEq, Eq)]
pub enum Refusal {
    // "a lent buffer is shorter than above"
    ShortBuffer,
    // "the chain rule fails"
    BrokenChain,
    // "the entries are not those of the table"
    StaleEntries,
    // "length no multiple of 6, or above 3,072"
    BadLength,
    // "its D ≤ 0", with the "lowest such triangle"
    FaultyTriangle(usize),
    // "a triangle number ≥ n"
    NoSuchTriangle,
    // "no triangle of the table holds p" (document 02, wish 4)
    NoHolder,
    // "the three triangles are not so"
    NotThreeAround,
    // "no such shared side, or a new D ≤ 0"
    NoFlip,
    // "Table full counts the triangles really added" (document 02, wish 2)
    TableFull,
    // "the new table has over 16,384 entries"
    TooManyEntries,
    // "over 4,096 pairs"
    TooManyPairs,
    // "p is a corner of the triangle taken" (document 02, wish 4)
    AtCorner,
    // "right is less than left or bottom less than top" (document 02, wish 5)
    EmptyWindow,
}

impl From<Refusal> for u32 {
    // The number of a refusal in document 01's table, or document 02's.
    fn from(refusal: Refusal) -> u32
        ensures { result ≡ (row_of refusal).number }
    {
        match refusal {
            Refusal::ShortBuffer => 1,
            Refusal::BrokenChain => 2,
            Refusal::StaleEntries => 3,
            Refusal::BadLength => 4,
            Refusal::FaultyTriangle(_) => 5,
            Refusal::NoSuchTriangle => 6,
            Refusal::NoHolder => 7,
            Refusal::NotThreeAround => 8,
            Refusal::NoFlip => 9,
            Refusal::TableFull => 10,
            Refusal::TooManyEntries => 11,
            Refusal::TooManyPairs => 12,
            Refusal::AtCorner => 14,
            Refusal::EmptyWindow => 15,
        }
    }
}

impl Refusal {
    // The number beside it: the triangle of refusal 5, else 0.
    pub fn value(self) -> usize
        ensures { result ≡ (row_of self).value }
    {
        match self {
            Refusal::FaultyTriangle(i) => i,
            _ => 0,
        }
    }
}
