// Locate, overlay and window for C, on numbers and slices: the calls that the helm display asks while it draws, and no other export.

#![tactic(auto)]

ghost use Rattle.std.specs.Prelude.{◌≡◌};
ghost use Rattle.spec_calls.specs.Calls.{locate_call, window_call, overlay_call};
ghost use Rattle.spec_calls.specs.Lent.{shown};
ghost use Rattle.export_helm.specs.Helm.{located_numbers, overlaid_left, windowed_left};

use base_geometry::bounds::Bounds;
use spec_calls::ChartView;
use spec_plane::Point;

// What locate answers: document 01's number, the triangle or 65535, and the number of the position, 7 for outside.
#[repr(C)]
#[derive(Clone, Copy)]
pub struct JirdLocated {
    pub number: u32,
    pub triangle: u32,
    pub position: u32,
}

// What overlay answers: document 01's number, the pair count and the meetings.
#[repr(C)]
#[derive(Clone, Copy)]
pub struct JirdOverlaid {
    pub number: u32,
    pub pairs: usize,
    pub meetings: usize,
}

// What window answers: document 02's number, and how many triangles are listed.
#[repr(C)]
#[derive(Clone, Copy)]
pub struct JirdWindowed {
    pub number: u32,
    pub listed: usize,
}

// Locate (x,y).
#[unsafe(no_mangle)]
pub extern "C" fn jird_locate(
    table: &[u16],
    keys: &[u32],
    levels: &[u8],
    items: &[u16],
    triangles: usize,
    entries: usize,
    x: u16,
    y: u16,
) -> JirdLocated
    ensures { result ≡ located_numbers (locate_call (shown table keys levels items triangles entries) (record { x = x; y = y })) }
{
    let chart = ChartView {
        table,
        keys,
        levels,
        items,
        triangles,
        entries,
    };
    let located = call_locate::locate(chart, Point { x, y });
    let number = base_answers::number(located);
    let triangle = u32::from(base_answers::located_triangle(located));
    let position = base_positions::position_number(base_answers::located_position(located)) as u32;
    JirdLocated {
        number,
        triangle,
        position,
    }
}

// Overlay of the first chart and the second.
#[unsafe(no_mangle)]
pub extern "C" fn jird_overlay(
    table0: &[u16],
    keys0: &[u32],
    levels0: &[u8],
    items0: &[u16],
    triangles0: usize,
    entries0: usize,
    table1: &[u16],
    keys1: &[u32],
    levels1: &[u8],
    items1: &[u16],
    triangles1: usize,
    entries1: usize,
    pairs: &mut [u16],
) -> JirdOverlaid
    ensures { overlaid_left pairs result ≡ overlay_call (shown table0 keys0 levels0 items0 triangles0 entries0) (shown table1 keys1 levels1 items1 triangles1 entries1) pairs.old }
{
    let first = ChartView {
        table: table0,
        keys: keys0,
        levels: levels0,
        items: items0,
        triangles: triangles0,
        entries: entries0,
    };
    let second = ChartView {
        table: table1,
        keys: keys1,
        levels: levels1,
        items: items1,
        triangles: triangles1,
        entries: entries1,
    };
    let overlaid = call_overlay::overlay(first, second, pairs);
    let counts = base_answers::overlay_counts(overlaid);
    JirdOverlaid {
        number: base_answers::number(overlaid),
        pairs: counts.pairs,
        meetings: counts.meetings,
    }
}

// Window: what lies in the closed rectangle from (left,top) to (right,bottom).
#[unsafe(no_mangle)]
pub extern "C" fn jird_window(
    table: &[u16],
    keys: &[u32],
    levels: &[u8],
    items: &[u16],
    triangles: usize,
    entries: usize,
    left: u16,
    top: u16,
    right: u16,
    bottom: u16,
    list: &mut [u16],
) -> JirdWindowed
    ensures { windowed_left list result ≡ window_call (shown table keys levels items triangles entries) (record { left = left; top = top; right = right; bottom = bottom }) list.old }
{
    let chart = ChartView {
        table,
        keys,
        levels,
        items,
        triangles,
        entries,
    };
    let w = Bounds {
        left,
        top,
        right,
        bottom,
    };
    let windowed = call_window::window(chart, w, list);
    JirdWindowed {
        number: base_answers::number(windowed),
        listed: base_answers::done_or(windowed, 0),
    }
}
