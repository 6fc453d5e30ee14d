// Bytes into a lent buffer: decimals, a content, the line of a row. Each call says exactly which bytes lie where afterwards; all others
// stay as they were. `at` is the place of the first byte; each call answers the place after the last.
// Buffer and place in one struct made writing a table's lines 5 to 28 in 100 slower.
#![tactic(auto)]

ghost use Rattle.std.specs.Prelude.{◌≡◌, ◌+◌, ◌≤◌, length, take, drop};
ghost use Rattle.std.proofs.lemmas.List.Edits.{sets};
ghost use Rattle.rules.specs.Written.{width as width_of, digits, line};
ghost use Rattle.bytes_out.specs.Put.{Put, number_field};

use rules::record::Record;
use text::{LF, TAB};

// How many digits a number has.
pub fn width(n: u32) -> usize
    ensures value { result ≡ width_of n }
    ensures upper_bound { result ≤ 6 }
{
    match n {
        0..=9 => 1,
        10..=99 => 2,
        100..=999 => 3,
        1000..=9999 => 4,
        10000..=99999 => 5,
        _ => 6,
    }
}

// The digits of a number, the last one first.
#[tactic(auto, using(crate::proofs::Digits::digits_on), unfolding(rules::specs::Written::digits))]
pub fn write_digits(n: u32, out: &mut [u8], at: usize) -> usize
    requires { at + width_of n ≤ length out.old }
    ensures put { Put out.old out.new at result (digits n) }
    ensures value { result ≡ at + width_of n }
{
    let end = at + width(n);
    let mut rest = n;
    for to in (at..end).rev() {
        out[to] = b'0' + (rest % 10) as u8;
        rest /= 10;
    }
    end
}

// A number and the tab after it.
pub fn write_field(n: u32, out: &mut [u8], at: usize) -> usize
    requires { at + (width_of n + 1) ≤ length out.old }
    ensures put { Put out.old out.new at result (number_field n) }
    ensures value { result ≡ at + (width_of n + 1) }
{
    let end = write_digits(n, out, at);
    out[end] = TAB;
    end + 1
}

// Eight bytes of a part. Their number is a constant, so that the compiler moves them together and calls nothing of C's.
#[tactic(auto, using(crate::proofs::Copies::eight_set))]
fn copy_eight(part: &[u8], i: usize, out: &mut [u8], to: usize)
    requires { (i + 8 ≤ length part.now) × (to + 8 ≤ length out.old) }
    ensures { out.new ≡ sets out.old to (take 8 (drop i part.now)) }
{
    out[to..to + 8].copy_from_slice(&part[i..i + 8]);
}

// All bytes of a part that has eight or more: eight at a time, and the last eight, some of them once more.
#[tactic(auto, using(crate::proofs::Copies::longs))]
fn copy_long(part: &[u8], out: &mut [u8], at: usize) -> usize
    requires { (8 ≤ length part.now) × (at + length part.now ≤ length out.old) }
    ensures { Put out.old out.new at result part.now }
{
    let last = part.len() - 8;
    let mut i = 0;
    while i < last {
        copy_eight(part, i, out, at + i);
        i += 8;
    }
    copy_eight(part, last, out, at + last);
    at + part.len()
}

// All bytes of a part, one at a time.
#[tactic(auto, using(crate::proofs::Copies::shorts))]
fn copy_short(part: &[u8], out: &mut [u8], at: usize) -> usize
    requires { at + length part.now ≤ length out.old }
    ensures { Put out.old out.new at result part.now }
{
    let mut left = part.len();
    let mut i = 0;
    while 0 < left {
        let to = at + i;
        out[to] = part[i];
        i += 1;
        left -= 1;
    }
    at + i
}

// All bytes of a part. One `copy_from_slice` of all would be a call of C's memmove, which no caller in C had to bring.
pub fn copy(part: &[u8], out: &mut [u8], at: usize) -> usize
    requires { at + length part.now ≤ length out.old }
    ensures { Put out.old out.new at result part.now }
{
    if part.len() < 8 {
        return copy_short(part, out, at);
    }
    copy_long(part, out, at)
}

// The line of record `n` under `r`: number, tab, parent, tab, content, LF.
pub fn write_line(n: Record, r: Record, content: &[u8], out: &mut [u8], at: usize) -> usize
    requires { at + (length content.now + (3 + width_of n.number + width_of r.number)) ≤ length out.old }
    ensures { Put out.old out.new at result
        (line (record { number = n.number; parent = r.number; content = content.now })) }
{
    let a = write_field(n.number, out, at);
    let b = write_field(r.number, out, a);
    let c = copy(content, out, b);
    let next = c + 1;
    out[c] = LF;
    next
}
