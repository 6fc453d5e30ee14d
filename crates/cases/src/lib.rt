// What the programs share that run document 01's cases: standard input has the parts of the cases one after another, each ended by byte
// 255; a lent buffer is held to the bytes that it should have, and what was written to it is shown.
#![tactic(auto)]

ghost use Rattle.std.specs.Prelude.{◌≡◌, ◌==◌, not, position, count_by, zip};
ghost use Rattle.std.specs.Iterator.{YieldsFirstRef, item_count};
ghost use Rattle.cases.specs.Parts.{end_of_part, parts_of};

use std::io;

const END_OF_PART: u8 = 255;

// A buffer is longer than any table, by more than is shown past it.
pub const ROOM: usize = 32776;

// Each byte of a buffer before it is lent.
pub const FILLER: u8 = b'.';

// So many bytes past the length are shown.
const SHOWN_PAST: usize = 2;

// Where the first part ends, if it has an end.
fn part_end(cases: &[u8]) -> Option<usize>
    ensures { result ≡ position (λ x. x == end_of_part) cases.now }
{
    cases.iter().position(|byte| *byte == END_OF_PART)
}

// The parts of what is still to be read, in their order. The last may lack its end.
#[derive(Drop)]
pub struct Parts<'a>(pub &'a [u8]);

impl<'a> Iterator for Parts<'a> {
    type Item = &'a [u8];

    ghost next_gives = { YieldsFirstRef (λ s. parts_of s.0.now) };

    ghost remaining = { item_count (λ s. parts_of s.0.now) };

    #[tactic(auto, using(crate::proofs::FirstPart::first_parts))]
    fn next(&mut self) -> Option<&'a [u8]> {
        let rest = self.0;
        if rest.is_empty() {
            return None;
        }
        let Some(end) = part_end(rest) else {
            self.0 = &[];
            return Some(rest);
        };
        self.0 = &rest[end + 1..];
        Some(&rest[..end])
    }
}

pub fn print_line<R: Print>(rt: &R, bytes: &[u8]) -> io::Result<()> {
    rt.write_all(bytes)?;
    rt.write_all(b"\n")
}

// The bytes that were written to a buffer, and two more: no length that is told is trusted.
pub fn print_written<R: Print>(rt: &R, buffer: &[u8], length: usize) -> io::Result<()> {
    let shown = length.saturating_add(SHOWN_PAST).min(buffer.len());
    print_line(rt, &buffer[..shown])
}

// How many bytes of a buffer are not as expected.
pub fn differing(buffer: &[u8; ROOM], expected: &[u8; ROOM]) -> usize
    ensures { result ≡ count_by (λ pair. not (pair.0 == pair.1)) (zip buffer.now expected.now) }
{
    let mut count = 0;
    for (byte, other) in buffer.iter().zip(expected) {
        if byte != other {
            count += 1;
        }
    }
    count
}
