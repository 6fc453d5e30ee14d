// Document 01's cases of check and content, run: its limits, and each code from 0 to 10. Standard input has the cases one after
// another, each ended by byte 255. For each case one line has the four numbers of check, and three lines the contents of records 1, 65,535
// and 65,536, which no table has.
#![tactic(auto)]

use brooksaddle::{check, content};
use bytes_in::read_full;
use cases::{Parts, print_line};
use rules::answers::Checked;
use std::io;

const ROOM: usize = 131072;

fn tell<R: Print>(rt: &R, text: &[u8]) -> io::Result<()> {
    let Checked {
        code,
        line,
        count,
        depth,
    } = check(text);
    println!(rt; "{code}\t{line}\t{count}\t{depth}")?;
    for number in [1, 65535, 65536] {
        print_line(rt, content(text, number))?;
    }
    Ok(())
}

fn main(rt: HostRuntime) -> io::Result<()> {
    let mut cases = [0u8; ROOM];
    let n = read_full(&mut rt.reader(), &mut cases)?;
    for text in Parts(&cases[..n]) {
        tell(&rt, text)?;
    }
    Ok(())
}
