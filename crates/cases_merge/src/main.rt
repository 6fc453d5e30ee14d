// Document 01's cases of merge, run: its demonstration, trees A to M, refused tables in each place, each of its codes, the limits.
// A case is four parts, each ended by byte 255: a line that says what it is, and the tables old, first and second. The line is printed,
// then the tables are merged with two buffers that are longer than any table or ledger, and with two exactly as long as was told; if they
// are accepted, also with the table's buffer a byte shorter, with both, and with the ledger's. Each time one line has the five numbers of
// merge, and for each buffer how many of its bytes are not as expected: as the first call left them the second time, otherwise as they were
// before the call. Below the line of the first call, if it is accepted, stand the bytes that it wrote to each buffer, and two more of each.
#![tactic(auto)]

ghost use Rattle.std.specs.Prelude.{length};
ghost use Rattle.std.specs.Iterator.{at_most};
ghost use Rattle.cases.specs.Parts.{parts_of};

use brooksaddle::merge;
use bytes_in::read_full;
use cases::{FILLER, Parts, ROOM, differing, print_written};
use rules::answers::Merged;
use rules::codes::ACCEPTED;
use std::io;

// Holds all cases.
const CASES: usize = 393216;

#[derive(Clone, Copy)]
struct Case<'a> {
    line: &'a [u8],
    old: &'a [u8],
    first: &'a [u8],
    second: &'a [u8],
}

// The cases of what is still to be read. Where it ends within a case, the tables that it lacks are empty.
#[derive(Drop)]
struct Cases<'a>(Parts<'a>);

impl<'a> Iterator for Cases<'a> {
    type Item = Case<'a>;

    ghost remaining = { λ s. at_most (length (parts_of s.0.0.now)) };

    fn next(&mut self) -> Option<Case<'a>> {
        let line = self.0.next()?;
        let old = self.0.next().unwrap_or(b"");
        let first = self.0.next().unwrap_or(b"");
        let second = self.0.next().unwrap_or(b"");
        Some(Case {
            line,
            old,
            first,
            second,
        })
    }
}

// Two buffers, each longer than any table or ledger.
#[derive(Drop)]
struct Buffers {
    table: [u8; ROOM],
    ledger: [u8; ROOM],
}

impl Buffers {
    fn filled() -> Buffers {
        Buffers {
            table: [FILLER; ROOM],
            ledger: [FILLER; ROOM],
        }
    }
}

// What each of two buffers should have. One array stands for both where they are to be as they were.
#[derive(Clone, Copy)]
struct Expected<'a> {
    table: &'a [u8; ROOM],
    ledger: &'a [u8; ROOM],
}

// A call that is lent these two buffers.
fn merged(case: Case<'_>, table: &mut [u8], ledger: &mut [u8]) -> Merged {
    merge(case.old, case.first, case.second, table, ledger)
}

// The line of a call: its five numbers, and for each buffer how many of its bytes are not as expected.
fn print_answer<R: Print>(
    rt: &R,
    answer: Merged,
    buffers: &Buffers,
    expected: Expected<'_>,
) -> io::Result<()> {
    let Merged {
        code,
        table,
        place,
        table_length,
        ledger_length,
    } = answer;
    let off_table = differing(&buffers.table, expected.table);
    let off_ledger = differing(&buffers.ledger, expected.ledger);
    println!(rt;
        "{code}\t{table}\t{place}\t{table_length}\t{ledger_length}\t{off_table}\t{off_ledger}"
    )
}

// A call that is lent so many bytes of each of two new buffers, or all.
fn tell_in<R: Print>(
    rt: &R,
    case: Case<'_>,
    table_room: usize,
    ledger_room: usize,
    expected: Expected<'_>,
) -> io::Result<()> {
    let mut buffers = Buffers::filled();
    let answer = merged(
        case,
        &mut buffers.table[..table_room.min(ROOM)],
        &mut buffers.ledger[..ledger_room.min(ROOM)],
    );
    print_answer(rt, answer, &buffers, expected)
}

// The calls that lack a byte, and are to leave both buffers as they were: none for a refused merge, whose lengths are 0, and none for an
// empty table. A ledger is never empty.
fn tell_short<R: Print>(
    rt: &R,
    case: Case<'_>,
    table: usize,
    ledger: usize,
    untouched: Expected<'_>,
) -> io::Result<()> {
    let Some(ledger_short) = ledger.checked_sub(1) else {
        return Ok(());
    };
    if let Some(table_short) = table.checked_sub(1) {
        tell_in(rt, case, table_short, ledger, untouched)?;
        tell_in(rt, case, table_short, ledger_short, untouched)?;
    }
    tell_in(rt, case, table, ledger_short, untouched)
}

fn tell<R: Print>(rt: &R, case: Case<'_>) -> io::Result<()> {
    rt.write_all(case.line)?;
    let filled = [FILLER; ROOM];
    let untouched = Expected {
        table: &filled,
        ledger: &filled,
    };
    let mut written = Buffers::filled();
    let answer = merged(case, &mut written.table, &mut written.ledger);
    print_answer(rt, answer, &written, untouched)?;
    let table = answer.table_length;
    let ledger = answer.ledger_length;
    if answer.code == ACCEPTED {
        print_written(rt, &written.table, table)?;
        print_written(rt, &written.ledger, ledger)?;
    }
    let as_written = Expected {
        table: &written.table,
        ledger: &written.ledger,
    };
    tell_in(rt, case, table, ledger, as_written)?;
    tell_short(rt, case, table, ledger, untouched)
}

fn main(rt: HostRuntime) -> io::Result<()> {
    let mut cases = [0u8; CASES];
    let n = read_full(&mut rt.reader(), &mut cases)?;
    for case in Cases(Parts(&cases[..n])) {
        tell(&rt, case)?;
    }
    Ok(())
}
