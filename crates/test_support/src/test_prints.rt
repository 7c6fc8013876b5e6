// What the test programs print of each answer of a call. Where nobody takes it, it is lost.

use base_answers::{Found, Overlaid};
use spec_charts::Refusal;

// The answer of a load or an edit, and the counts of its chart.
pub fn print_changed(
    rt: &impl Print,
    name: &str,
    answer: Result<(), Refusal>,
    triangles: usize,
    entries: usize,
) {
    let number = base_answers::number(answer);
    let value = base_answers::value(answer);
    let _ = print!(rt; "{name} {number} {value} {triangles} {entries}");
}

// The answer of a locate.
pub fn print_located(rt: &impl Print, located: Result<Option<Found>, Refusal>) {
    let number = base_answers::number(located);
    let position = base_positions::position_number(base_answers::located_position(located));
    let _ = match located {
        Ok(Some(found)) => print!(rt; "locate {number} {} {position}", found.triangle),
        _ => print!(rt; "locate {number} nowhere {position}"),
    };
}

// The answer of a soundness.
pub fn print_soundness(rt: &impl Print, sound: Result<bool, Refusal>) {
    let number = base_answers::number(sound);
    let word = if base_answers::done_or(sound, false) {
        "yes"
    } else {
        "no"
    };
    let _ = print!(rt; "sound {number} {word}");
}

// The answer of a doubled area.
pub fn print_area(rt: &impl Print, area: Result<u64, Refusal>) {
    let number = base_answers::number(area);
    let _ = print!(rt; "area {number} {}", base_answers::done_or(area, 0));
}

// The answer of an overlay.
pub fn print_overlaid(rt: &impl Print, overlaid: Result<Overlaid, Refusal>) {
    let number = base_answers::number(overlaid);
    let counts = base_answers::overlay_counts(overlaid);
    let _ = print!(rt; "overlay {number} {} {}", counts.pairs, counts.meetings);
}

// The answer of a window.
pub fn print_windowed(rt: &impl Print, listed: Result<usize, Refusal>) {
    let number = base_answers::number(listed);
    let _ = print!(rt; "window {number} {}", base_answers::done_or(listed, 0));
}

// A cell listing.
pub fn print_listing(rt: &impl Print, list: &[u16]) {
    let _ = print!(rt; "listing {}", list.len());
    for x in list {
        let _ = print!(rt; " {x}");
    }
}
