// The steps of the input, as bytes and as what they ask for.

use spec_plane::Point;
use std::io::Read;
use test_changes::Edit;
use test_readers::Reading;
use test_support::charts::{Buffer, Which};

// What a step goes by: a buffer of a chart, or the pairs.
#[derive(Clone, Copy)]
pub enum Place {
    Chart(Which, Buffer),
    Pairs,
}

impl From<u8> for Place {
    // Four buffers of chart 0, four of chart 1, and then the pairs.
    fn from(byte: u8) -> Place {
        let buffer = match byte % 4 {
            0 => Buffer::Table,
            1 => Buffer::Keys,
            2 => Buffer::Levels,
            _ => Buffer::Items,
        };
        match byte / 4 {
            0 => Place::Chart(Which::First, buffer),
            1 => Place::Chart(Which::Second, buffer),
            _ => Place::Pairs,
        }
    }
}

// What a step does.
#[derive(Clone, Copy)]
pub enum Action {
    Load(usize),
    Read(Reading),
    Put(usize, u32),
    Lend(usize),
    Count(usize, usize),
    Fill(u32),
    Edit(Edit),
    Overlay(Which),
    Window(u32, u32),
}

impl Action {
    // What its first byte and its numbers a, b and c say; a byte with no meaning is a doubled area or a flip.
    fn of(what: u8, a: u16, b: u32, c: u32) -> Action {
        let n = usize::from(a);
        let p = Point {
            x: test_support::low_half(b),
            y: test_support::low_half(c),
        };
        let other = if a % 2 == 0 {
            Which::First
        } else {
            Which::Second
        };
        match what {
            0 | 5 => Action::Read(Reading::Area),
            1 => Action::Load(n),
            2 => Action::Read(Reading::Locate(p)),
            3 => Action::Read(Reading::Listing(p)),
            4 => Action::Read(Reading::Soundness),
            6 => Action::Put(n, b),
            7 => Action::Lend(n),
            8 => Action::Count(b as usize, c as usize),
            9 => Action::Fill(b),
            10 => Action::Edit(Edit::Insert(p)),
            11 => Action::Edit(Edit::TakeOut(p)),
            13 => Action::Overlay(other),
            14 => Action::Window(b, c),
            _ => Action::Edit(Edit::Flip(b as usize, c as usize)),
        }
    }
}

// A step of the input.
#[derive(Clone, Copy)]
pub struct Step {
    pub place: Place,
    pub action: Action,
}

impl Step {
    // The step of twelve bytes.
    fn of(bytes: [u8; 12]) -> Step {
        let [what, place, a0, a1, b0, b1, b2, b3, c0, c1, c2, c3] = bytes;
        let a = u16::from_le_bytes([a0, a1]);
        let b = u32::from_le_bytes([b0, b1, b2, b3]);
        let c = u32::from_le_bytes([c0, c1, c2, c3]);
        Step {
            place: Place::from(place),
            action: Action::of(what, a, b, c),
        }
    }

    // The next step of the input, if there is one.
    pub fn read(source: &mut impl Read) -> Option<Step> {
        let mut bytes = [0u8; 12];
        source.read_exact(&mut bytes).ok()?;
        Some(Step::of(bytes))
    }
}
