// Lines of the log, written into a list of bytes from a place on. Each function gives back the place after what it wrote.

#![tactic(auto)]

ghost use Rattle.std.specs.Prelude.{◌≡◌, [], ◌∷◌, ◌+◌, ◌*◌, ◌≤◌, ◌<◌, length};
ghost use Rattle.spec_log.specs.Log.{decimal, spaced, line, heading, bad_line};
ghost use Rattle.log_lines.specs.Bytes.{Wrote, pair_lines, pair_bytes};

use itoa::Buffer;

// One byte.
fn put_byte(b: u8, out: &mut [u8], at: usize) -> usize
    requires { at < length out.old }
    ensures { Wrote (b ∷ []) at result out.old out.new }
{
    out[at] = b;
    at + 1
}

// Given bytes.
fn put_bytes(bytes: &[u8], out: &mut [u8], at: usize) -> usize
    requires { at + length bytes.now ≤ length out.old }
    ensures { Wrote bytes.now at result out.old out.new }
{
    let next = at + bytes.len();
    out[at..next].copy_from_slice(bytes);
    next
}

// A number in decimal.
fn put_decimal(n: u64, out: &mut [u8], at: usize) -> usize
    requires { at + length (decimal n) ≤ length out.old }
    ensures { Wrote (decimal n) at result out.old out.new }
{
    let mut digits = Buffer::new();
    put_bytes(digits.format(n).as_bytes(), out, at)
}

// Numbers in decimal, each after a space.
fn put_spaced(numbers: &[u64], out: &mut [u8], at: usize) -> usize
    requires { at + length (spaced numbers.now) ≤ length out.old }
    ensures { Wrote (spaced numbers.now) at result out.old out.new }
{
    let mut next = at;
    for n in numbers {
        let space = put_byte(32, out, next);
        next = put_decimal(*n, out, space);
    }
    next
}

// A line of a first number and others.
pub fn put_line(first: u64, others: &[u64], out: &mut [u8], at: usize) -> usize
    requires { at + length (line first others.now) ≤ length out.old }
    ensures { Wrote (line first others.now) at result out.old out.new }
{
    let number = put_decimal(first, out, at);
    let last = put_spaced(others, out, number);
    put_byte(10, out, last)
}

// The lines of the first n pairs of a list of numbers.
// Kept: the list is the caller's, longer than what is listed, and n the count beside it; put_pairs' contract names both.
pub fn put_pairs(pairs: &[u16], n: usize, out: &mut [u8], at: usize) -> usize
    requires { (2 * n ≤ length pairs.now) × (at + pair_bytes * n ≤ length out.old) }
    ensures { Wrote (pair_lines pairs.now n) at result out.old out.new }
{
    let mut next = at;
    for k in 0..n {
        let other = [u64::from(pairs[2 * k + 1])];
        next = put_line(u64::from(pairs[2 * k]), &other, out, next);
    }
    next
}

// The heading, a fixed byte string.
pub fn put_heading(out: &mut [u8], at: usize) -> usize
    requires { at + length heading ≤ length out.old }
    ensures { Wrote heading at result out.old out.new }
{
    put_bytes(b"overlay log\n", out, at)
}

// The line of a bad command byte: `bad` from another, a space and the offset.
pub fn put_bad(offset: u64, out: &mut [u8], at: usize) -> usize
    requires { at + length (bad_line offset) ≤ length out.old }
    ensures { Wrote (bad_line offset) at result out.old out.new }
{
    let word = put_bytes(b"bad ", out, at);
    let number = put_decimal(offset, out, word);
    put_byte(10, out, number)
}
