// The command program: commands from standard input, their log to standard output. It only reads and writes: what is printed is
// worked out by log_reader, which is proved to print document 01's log however the input is cut into portions.
//
// What a portion prints is written before more input is asked for. The program ends at a bad command, where the input ends or a read
// fails, and, without a message, where nobody takes its output.

#![tactic(auto)]

ghost use Rattle.std.specs.Prelude.{◌+◌, ◌^◌, ◌≤◌, ◌<◌, length, IfSome};
ghost use Rattle.spec_calls.specs.Buffers.{pairs_length};
ghost use Rattle.log_readers.specs.Readers.{overlay_room};
ghost use Rattle.log_waiting.specs.Waiting.{waiting_length};
ghost use Rattle.log_reader.specs.Reader.{Ready};

use base_tables::{MOST_ENTRIES, TABLE_NUMBERS};
use log_events::BothCharts;
use log_reader::Reader;
use log_waiting::CALL_HEAD;
use spec_calls::ChartMut;
use std::io::Read;

// Reads a portion to its end, and writes what it prints; the reader after it, where `bad` was not printed and the output is taken.
fn serve_portion(
    rt: &impl Print,
    input: &[u8],
    reader: Reader,
    charts: &mut BothCharts,
    waiting: &mut [u16],
    pairs: &mut [u16],
    out: &mut [u8],
) -> Option<Reader>
    requires ready { Ready reader × (reader.offset + reader.count + length input.now + 13 < 2 ^ 64) }
    requires waiting_length_in_bounds { (waiting_length ≤ length waiting.old) × ((pairs_length ≤ length pairs.old) × (overlay_room ≤ length out.old)) }
    ensures { IfSome result (λ r. Ready r × (r.offset + r.count ≤ reader.offset + reader.count + length input.now)) }
{
    let mut kept = reader;
    let mut left = input;
    while !left.is_empty() && !kept.ended {
        let portion = log_reader::read_portion(left, kept, charts, waiting, pairs, out);
        kept = portion.reader;
        left = &left[portion.used..];
        rt.write_all(&out[..portion.at]).ok()?;
    }
    if kept.ended { None } else { Some(kept) }
}

// Reads what is there, at most the buffer; answers how many bytes, where the input does not end and the read does not fail.
fn read_some(source: &mut impl Read, input: &mut [u8]) -> Option<usize>
    ensures { IfSome result (λ n. (0 < n) × (n ≤ length input.new)) }
{
    source.read(input).ok().filter(|n| *n > 0)
}

// Reads portion after portion. No input has the 2^63 bytes after which it would end.
fn serve(
    rt: &impl Print,
    source: &mut impl Read,
    charts: &mut BothCharts,
    waiting: &mut [u16],
    pairs: &mut [u16],
    out: &mut [u8],
    input: &mut [u8],
)
    requires { (waiting_length ≤ length waiting.old) × ((pairs_length ≤ length pairs.old) × (overlay_room ≤ length out.old)) }
{
    let mut kept = log_reader::begin(charts);
    let mut left = 1u64 << 63;
    while let Some(n) = read_some(source, input) {
        let Some(rest) = left.checked_sub(n as u64) else {
            break;
        };
        left = rest;
        let Some(served) = serve_portion(rt, &input[..n], kept, charts, waiting, pairs, out) else {
            return;
        };
        kept = served;
    }
    let at = log_reader::finish(kept, out);
    let _ = rt.write_all(&out[..at]);
}

fn main(rt: HostRuntime) {
    let mut table0 = [0u16; TABLE_NUMBERS];
    let mut keys0 = [0u32; MOST_ENTRIES];
    let mut levels0 = [0u8; MOST_ENTRIES];
    let mut items0 = [0u16; MOST_ENTRIES];
    let mut table1 = [0u16; TABLE_NUMBERS];
    let mut keys1 = [0u32; MOST_ENTRIES];
    let mut levels1 = [0u8; MOST_ENTRIES];
    let mut items1 = [0u16; MOST_ENTRIES];
    let mut waiting = [0u16; CALL_HEAD + TABLE_NUMBERS];
    let mut pairs = [0u16; 8192];
    let mut out = [0u8; 65536];
    let mut input = [0u8; 65536];
    let mut source = rt.reader();
    let at = log_lines::put_heading(&mut out, 0);
    if rt.write_all(&out[..at]).is_err() {
        return;
    }
    let mut charts = BothCharts {
        first: ChartMut {
            table: &mut table0,
            keys: &mut keys0,
            levels: &mut levels0,
            items: &mut items0,
            triangles: 0,
            entries: 0,
        },
        second: ChartMut {
            table: &mut table1,
            keys: &mut keys1,
            levels: &mut levels1,
            items: &mut items1,
            triangles: 0,
            entries: 0,
        },
    };
    serve(
        &rt,
        &mut source,
        &mut charts,
        &mut waiting,
        &mut pairs,
        &mut out,
        &mut input,
    );
}
