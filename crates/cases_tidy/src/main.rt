// Document 01's cases of tidy, run: tables whose lines stand in another order than the written form, its limits, codes 0 to 10 and 31.
// Standard input has the cases one after another, each ended by byte 255. Each is tidied three times: with a buffer longer than any table,
// with one exactly as long as was told, and, unless that is 0, with one a byte shorter. Each time one line has the three numbers of tidy,
// and how many bytes of the buffer are not as expected: as they were before the call the first and the third time, as the first call left
// them the second time. Below the line of the first call stand the bytes that it wrote, and two more.
#![tactic(auto)]

use brooksaddle::tidy;
use bytes_in::read_full;
use cases::{FILLER, Parts, ROOM, differing, print_written};
use rules::answers::Tidied;
use std::io;

// Holds all cases.
const CASES: usize = 262144;

fn print_answer<R: Print>(
    rt: &R,
    answer: Tidied,
    buffer: &[u8; ROOM],
    expected: &[u8; ROOM],
) -> io::Result<()> {
    let Tidied { code, line, length } = answer;
    let off = differing(buffer, expected);
    println!(rt; "{code}\t{line}\t{length}\t{off}")
}

// A call that is lent so many bytes of a buffer, or all.
fn tell_in<R: Print>(rt: &R, text: &[u8], room: usize, expected: &[u8; ROOM]) -> io::Result<()> {
    let mut buffer = [FILLER; ROOM];
    let answer = tidy(text, &mut buffer[..room.min(ROOM)]);
    print_answer(rt, answer, &buffer, expected)
}

fn tell<R: Print>(rt: &R, text: &[u8]) -> io::Result<()> {
    let filled = [FILLER; ROOM];
    let mut buffer = [FILLER; ROOM];
    let answer = tidy(text, &mut buffer);
    print_answer(rt, answer, &buffer, &filled)?;
    print_written(rt, &buffer, answer.length)?;
    tell_in(rt, text, answer.length, &buffer)?;
    if let Some(short) = answer.length.checked_sub(1) {
        tell_in(rt, text, short, &filled)?;
    }
    Ok(())
}

fn main(rt: HostRuntime) -> io::Result<()> {
    let mut cases = [0u8; CASES];
    let n = read_full(&mut rt.reader(), &mut cases)?;
    for text in Parts(&cases[..n]) {
        tell(&rt, text)?;
    }
    Ok(())
}
