// The other calls for C, on numbers and slices: load, the edits, soundness, doubled area, and where the part that cell listing gives lies.

#![tactic(auto)]

ghost use Rattle.std.specs.Prelude.{◌≡◌, ◌+◌, take, drop};
ghost use Rattle.spec_calls.specs.Calls.{load_call, insert_call, take_out_call, flip_call, sound_call, area_call, listing_call};
ghost use Rattle.spec_calls.specs.Lent.{given, shown};
ghost use Rattle.call_locate.specs.Places.{places_call, PartAt};
ghost use Rattle.export_charts.specs.Answers.{changed_numbers, changed_left, sound_numbers, area_numbers};

use spec_calls::{ChartMut, ChartView};
use spec_charts::Refusal;
use spec_plane::Point;

// What a load or an edit answers: document 01's number, the triangle of refusal 5 or else 0, and the chart's counts.
#[repr(C)]
#[derive(Clone, Copy)]
pub struct JirdChanged {
    pub number: u32,
    pub value: usize,
    pub triangles: usize,
    pub entries: usize,
}

// What soundness answers: document 01's number, and 1 for yes or 0 for no.
#[repr(C)]
#[derive(Clone, Copy)]
pub struct JirdSounded {
    pub number: u32,
    pub sound: u32,
}

// What doubled area answers: document 01's number, and the sum.
#[repr(C)]
#[derive(Clone, Copy)]
pub struct JirdMeasured {
    pub number: u32,
    pub area: u64,
}

// A part of the items: its first place, and how many.
#[repr(C)]
#[derive(Clone, Copy)]
pub struct JirdPart {
    pub start: usize,
    pub length: usize,
}

// The numbers of a load's or an edit's answer, with the counts that its chart has then.
fn changed_numbers(answer: Result<(), Refusal>, chart: &ChartMut) -> JirdChanged
    ensures { result ≡ changed_numbers answer chart.now.triangles chart.now.entries }
{
    JirdChanged {
        number: base_answers::number(answer),
        value: base_answers::value(answer),
        triangles: chart.triangles,
        entries: chart.entries,
    }
}

// Load.
#[unsafe(no_mangle)]
pub extern "C" fn jird_load(
    numbers: &[u16],
    table: &mut [u16],
    keys: &mut [u32],
    levels: &mut [u8],
    items: &mut [u16],
    triangles: usize,
    entries: usize,
) -> JirdChanged
    ensures { changed_left table keys levels items result ≡ load_call numbers.now (given table keys levels items triangles entries) }
{
    let mut chart = ChartMut {
        table,
        keys,
        levels,
        items,
        triangles,
        entries,
    };
    let loaded = call_load::load(numbers, &mut chart);
    changed_numbers(loaded, &chart)
}

// Insert: of the point (x,y).
#[unsafe(no_mangle)]
pub extern "C" fn jird_insert(
    table: &mut [u16],
    keys: &mut [u32],
    levels: &mut [u8],
    items: &mut [u16],
    triangles: usize,
    entries: usize,
    x: u16,
    y: u16,
) -> JirdChanged
    ensures { changed_left table keys levels items result ≡ insert_call (record { x = x; y = y }) (given table keys levels items triangles entries) }
{
    let mut chart = ChartMut {
        table,
        keys,
        levels,
        items,
        triangles,
        entries,
    };
    let inserted = call_edits::insert(&mut chart, Point { x, y });
    changed_numbers(inserted, &chart)
}

// Take-out: of the point (x,y).
#[unsafe(no_mangle)]
pub extern "C" fn jird_take_out(
    table: &mut [u16],
    keys: &mut [u32],
    levels: &mut [u8],
    items: &mut [u16],
    triangles: usize,
    entries: usize,
    x: u16,
    y: u16,
) -> JirdChanged
    ensures { changed_left table keys levels items result ≡ take_out_call (record { x = x; y = y }) (given table keys levels items triangles entries) }
{
    let mut chart = ChartMut {
        table,
        keys,
        levels,
        items,
        triangles,
        entries,
    };
    let taken_out = call_edits::take_out(&mut chart, Point { x, y });
    changed_numbers(taken_out, &chart)
}

// Flip: triangles i and j.
#[unsafe(no_mangle)]
pub extern "C" fn jird_flip(
    table: &mut [u16],
    keys: &mut [u32],
    levels: &mut [u8],
    items: &mut [u16],
    triangles: usize,
    entries: usize,
    i: usize,
    j: usize,
) -> JirdChanged
    ensures { changed_left table keys levels items result ≡ flip_call i j (given table keys levels items triangles entries) }
{
    let mut chart = ChartMut {
        table,
        keys,
        levels,
        items,
        triangles,
        entries,
    };
    let flipped = call_edits::flip(&mut chart, i, j);
    changed_numbers(flipped, &chart)
}

// Soundness.
#[unsafe(no_mangle)]
pub extern "C" fn jird_soundness(
    table: &[u16],
    keys: &[u32],
    levels: &[u8],
    items: &[u16],
    triangles: usize,
    entries: usize,
) -> JirdSounded
    ensures { result ≡ sound_numbers (sound_call (shown table keys levels items triangles entries)) }
{
    let chart = ChartView {
        table,
        keys,
        levels,
        items,
        triangles,
        entries,
    };
    let sound = call_soundness::soundness(chart);
    JirdSounded {
        number: base_answers::number(sound),
        sound: base_answers::done_or(sound, false) as u32,
    }
}

// Doubled area.
#[unsafe(no_mangle)]
pub extern "C" fn jird_doubled_area(
    table: &[u16],
    keys: &[u32],
    levels: &[u8],
    items: &[u16],
    triangles: usize,
    entries: usize,
) -> JirdMeasured
    ensures { result ≡ area_numbers (area_call (shown table keys levels items triangles entries)) }
{
    let chart = ChartView {
        table,
        keys,
        levels,
        items,
        triangles,
        entries,
    };
    let area = call_area::doubled_area(chart);
    JirdMeasured {
        number: base_answers::number(area),
        area: base_answers::done_or(area, 0),
    }
}

// Where the part that cell listing of (x,y) gives lies in the items; 0 and 0 where it is empty.
#[unsafe(no_mangle)]
pub extern "C" fn jird_cell(
    table: &[u16],
    keys: &[u32],
    levels: &[u8],
    items: &[u16],
    triangles: usize,
    entries: usize,
    x: u16,
    y: u16,
) -> JirdPart
    ensures value { take result.length (drop result.start items.now) ≡ listing_call (shown table keys levels items triangles entries) (record { x = x; y = y }) }
    ensures part_at { PartAt items.now (places_call (shown table keys levels items triangles entries) (record { x = x; y = y })) result.start (result.start + result.length) }
{
    let chart = ChartView {
        table,
        keys,
        levels,
        items,
        triangles,
        entries,
    };
    let part = call_locate::places::cell_part(chart, Point { x, y });
    let start = part.from;
    let length = part.to - start;
    JirdPart { start, length }
}
