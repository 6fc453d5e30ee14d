// The ledger of a table whose lines stand in memory in written order: its length, summed over the lines, and its bytes, written line after
// line. No link is followed, and no number looked up.
#![tactic(auto)]

ghost use Rattle.std.specs.Prelude.{◌≡◌, ◌+◌, ◌<◌, ◌≤◌, length};
ghost use Rattle.rules.specs.Written.{width as width_of, over};
ghost use Rattle.rules.specs.Ledger.{entry_line, ledger};
ghost use Rattle.facts.specs.Memory.{ROOM, origin_of};
ghost use Rattle.facts.specs.Table.{facts_in};
ghost use Rattle.bytes_out.specs.Put.{Put};
ghost use Rattle.ledger.specs.Entries.{entry_of, entries_to, line_end, total_of, LedgerReady, Told};
ghost use Rattle.ledger.specs.Sums.{total_length, sums_of};

use bytes_out::{copy, width, write_digits, write_field};
use facts::{Facts, SPAN, TEXTS, Table};
use text::LF;

// How long the written table and its ledger are, and how many bytes the contents have.
#[derive(Clone, Copy)]
pub struct Sums {
    pub table: usize,
    pub ledger: usize,
    pub bytes: usize,
}

// What the lines of `count` records tell.
#[tactic(auto, using(crate::proofs::Lines::told))]
fn lines_to(table: &Table, count: usize) -> &[Facts]
    requires { count < ROOM }
    ensures { Told (facts_in table.now) count result.now }
{
    &table.facts[1..=count]
}

// The origin of the content, as its place tells it.
fn origin(f: &Facts) -> u32
    ensures { result ≡ origin_of f.now.place }
{
    f.place / SPAN / TEXTS
}

// ---- lengths

// How many digits a number has. `width` answers the same by branches, which writing wants: there the place of the next byte waits for the
// answer. Here nothing waits for it, and without branches none is mispredicted in a sum over all lines.
fn digit_count(n: u32) -> usize
    ensures value { result ≡ width_of n }
    ensures upper_bound { result ≤ 6 }
{
    1 + usize::from(9 < n)
        + usize::from(99 < n)
        + usize::from(999 < n)
        + usize::from(9999 < n)
        + usize::from(99999 < n)
}

// what the line takes in the written table beside its content
fn frame_line(f: &Facts) -> usize
    ensures value { result ≡ 3 + width_of f.now.number.number + width_of f.now.parent.number }
    ensures upper_bound { result ≤ 15 }
{
    3 + digit_count(f.number.number) + digit_count(f.parent.number)
}

// what it takes in the ledger
fn ledger_line(f: &Facts) -> usize
    ensures value { result ≡ 3 + width_of f.now.number.number + width_of (origin_of f.now.place) + width_of f.now.length }
    ensures upper_bound { result ≤ 21 }
{
    3 + digit_count(f.number.number) + digit_count(origin(f)) + digit_count(f.length)
}

// How many digits a sum has; no sum that is written has more than six.
fn sum_width(n: usize) -> usize
    ensures value { result ≡ width_of n }
    ensures upper_bound { result ≤ 6 }
{
    if n < 100000 {
        return width(n as u32);
    }
    6
}

// the length of the total line
fn total_length(records: usize, bytes: usize) -> usize
    ensures value { result ≡ total_length records bytes }
    ensures upper_bound { result ≤ 20 }
{
    8 + sum_width(records) + sum_width(bytes)
}

// The sums over the lines of `count` records. Each line is gone to once, and no link is followed.
pub fn sum_lines(table: &Table, count: usize) -> Sums
    requires { count < ROOM }
    ensures { result ≡ sums_of (facts_in table.now) count }
{
    let mut frames: usize = 0;
    let mut entries: usize = 0;
    let mut bytes: usize = 0;
    for f in lines_to(table, count) {
        frames += frame_line(f);
        entries += ledger_line(f);
        bytes += f.length as usize;
    }
    Sums {
        table: bytes + frames,
        ledger: entries + total_length(count, bytes),
        bytes,
    }
}

// ---- bytes

// The two numbers that a line ends with, and its LF.
pub fn write_end(a: u32, b: u32, out: &mut [u8], at: usize) -> usize
    requires { at + (2 + width_of a + width_of b) ≤ length out.old }
    ensures { Put out.old out.new at result (line_end a b) }
{
    let p = write_field(a, out, at);
    let q = write_digits(b, out, p);
    out[q] = LF;
    q + 1
}

// The line of the record on a line of memory. What it tells is read before the first byte is written, and need not wait for the bytes.
#[tactic(auto, using(crate::proofs::Lines::entry_long))]
fn write_entry(f: &Facts, out: &mut [u8], at: usize) -> usize
    requires { at + length (entry_line (entry_of f.now)) ≤ length out.old }
    ensures { Put out.old out.new at result (entry_line (entry_of f.now)) }
{
    let origin = origin(f);
    let bytes = f.length;
    let p = write_field(f.number.number, out, at);
    write_end(origin, bytes, out, p)
}

// The last line.
fn write_total(records: u32, bytes: u32, out: &mut [u8], at: usize) -> usize
    requires { at + total_length records bytes ≤ length out.old }
    ensures { Put out.old out.new at result (total_of records bytes) }
{
    let p = copy(b"total\t", out, at);
    write_end(records, bytes, out, p)
}

// The ledger of the lines of `count` records that have `bytes` of content, from byte 0 on.
pub fn write_ledger(table: &Table, out: &mut [u8], count: usize, bytes: usize)
    requires { LedgerReady (facts_in table.now) count bytes (length out.old) }
    ensures { out.new ≡ over (ledger (entries_to (facts_in table.now) count)) out.old }
{
    let mut at: usize = 0;
    for f in lines_to(table, count) {
        at = write_entry(f, out, at);
    }
    write_total(count as u32, bytes as u32, out, at);
}
