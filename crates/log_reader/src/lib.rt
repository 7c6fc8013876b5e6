// The command program on slices: its input byte by byte, in portions of any length, and what it prints.

#![tactic(auto)]

ghost use Rattle.std.specs.Prelude.{◌≡◌, false, ◌+◌, ◌^◌, ◌≤◌, ◌<◌, length, take};
ghost use Rattle.spec_calls.specs.Buffers.{pairs_length};
ghost use Rattle.log_portions.specs.Portions.{Reading, feed_byte, feed, finish as Portions·finish};
ghost use Rattle.log_lines.specs.Bytes.{Wrote};
ghost use Rattle.log_events.specs.Both.{both_viewed, SameBoth};
ghost use Rattle.log_events.specs.Events.{line_room};
ghost use Rattle.log_readers.specs.Readers.{overlay_room};
ghost use Rattle.log_waiting.specs.Waiting.{waiting_length};
ghost use Rattle.log_reader.specs.Reader.{Ready, FedFrom, Begun, ReadOn};

use log_bytes::command_bytes;
use log_events::BothCharts;

// What is kept between two bytes: the bytes of a command that is not whole and how many they are, the offset of the next command
// byte, whether `bad` was printed, and how many numbers wait.
// Kept: no heap, so the bytes held stand in a fixed array with their count beside it (`Ready`, `Keeps`).
#[derive(Clone, Copy)]
pub struct Reader {
    pub held: [u8; 13],
    pub count: usize,
    pub offset: u64,
    pub ended: bool,
    pub waits: usize,
}

// The reader after a byte, and the place after what it printed.
#[derive(Clone, Copy)]
struct Fed {
    reader: Reader,
    at: usize,
}

// Before the first byte: both charts hold the empty table, in buffers that are long enough, and nothing waits.
pub fn begin(charts: &mut BothCharts) -> Reader
    ensures begun { Begun (both_viewed charts.old) result (both_viewed charts.new) }
    ensures same_lists { SameBoth charts.old charts.new }
    ensures ready { Ready result × ((result.offset + result.count ≡ 0) × (result.ended ≡ false)) }
{
    let _first = call_load::load(&[], &mut charts.first);
    let _second = call_load::load(&[], &mut charts.second);
    Reader {
        held: [0; 13],
        count: 0,
        offset: 0,
        ended: false,
        waits: 0,
    }
}

// One byte of the input.
fn feed_byte(
    x: u8,
    reader: Reader,
    charts: &mut BothCharts,
    waiting: &mut [u16],
    pairs: &mut [u16],
    out: &mut [u8],
    at: usize,
) -> Fed
    requires ready { Ready reader × ((reader.ended ≡ false) × (reader.offset + 13 < 2 ^ 64)) }
    requires waiting_length_in_bounds { (waiting_length ≤ length waiting.old) × ((pairs_length ≤ length pairs.old) × (at + overlay_room ≤ length out.old)) }
    ensures fed { FedFrom (λ q. feed_byte x q) reader (both_viewed charts.old) waiting.old result.reader (both_viewed charts.new) waiting.new at result.at out.old out.new }
    ensures same_lists { SameBoth charts.old charts.new }
    ensures ready_2 { Ready result.reader × ((result.at ≤ length out.new) × (result.reader.offset + result.reader.count ≤ reader.offset + reader.count + 1)) }
{
    let mut next = reader;
    next.held[reader.count] = x;
    next.count = 0;
    if command_bytes::is_bad(&next.held, reader.count) {
        next.ended = true;
        let at = log_lines::put_bad(reader.offset, out, at);
        return Fed { reader: next, at };
    }
    let size = command_bytes::operand_bytes(next.held[0]);
    if reader.count < size {
        next.count = reader.count + 1;
        return Fed { reader: next, at };
    }
    let done = log_commands::run_command(&next.held, charts, waiting, reader.waits, pairs, out, at);
    next.offset = reader.offset + 1 + size as u64;
    next.waits = done.waits;
    Fed {
        reader: next,
        at: done.at,
    }
}

// What a portion came to: the reader after it, how many of its bytes were read, and the place after what they printed.
#[derive(Clone, Copy)]
pub struct Portion {
    pub reader: Reader,
    pub used: usize,
    pub at: usize,
}

// The most bytes that a command prints.
const MOST: usize = 49236;

// A portion of the input, as far as there is room for what a command may print, or up to a bad command.
pub fn read_portion(
    input: &[u8],
    reader: Reader,
    charts: &mut BothCharts,
    waiting: &mut [u16],
    pairs: &mut [u16],
    out: &mut [u8],
) -> Portion
    requires ready { Ready reader × (reader.offset + reader.count + length input.now + 13 < 2 ^ 64) }
    requires waiting_length_in_bounds { (waiting_length ≤ length waiting.old) × (pairs_length ≤ length pairs.old) }
    ensures fed { FedFrom (λ q. feed (take result.used input.now) q) reader (both_viewed charts.old) waiting.old result.reader (both_viewed charts.new) waiting.new 0 result.at out.old out.new }
    ensures same_lists { SameBoth charts.old charts.new }
    ensures read_on { ReadOn reader (length input.now) (length out.new) result.reader result.used result.at }
{
    let mut kept = reader;
    let mut at = 0;
    for (used, x) in input.iter().enumerate() {
        if kept.ended || out.len() - at < MOST {
            return Portion {
                reader: kept,
                used,
                at,
            };
        }
        let fed = feed_byte(*x, kept, charts, waiting, pairs, out, at);
        kept = fed.reader;
        at = fed.at;
    }
    Portion {
        reader: kept,
        used: input.len(),
        at,
    }
}

// The end of the input: a cut command is bad.
pub fn finish(reader: Reader, out: &mut [u8]) -> usize
    requires { Ready reader × (line_room ≤ length out.old) }
    ensures wrote { (q : Reading) → q.held ≡ take reader.count reader.held → q.offset ≡ reader.offset → Wrote (Portions·finish q) 0 result out.old out.new }
    ensures upper_bound { result ≤ length out.new }
{
    if reader.count == 0 {
        return 0;
    }
    log_lines::put_bad(reader.offset, out, 0)
}
