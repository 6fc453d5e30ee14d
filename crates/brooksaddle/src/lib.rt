// The public calls; `brooksaddle_c` exports them to C. Each takes any bytes; none asks anything of its caller.
#![tactic(auto)]

ghost use Rattle.std.specs.Prelude.{◌≡◌};
ghost use Rattle.rules.specs.Calls.{content_answer};
ghost use Rattle.rules.specs.Promises.{Checks, Tidies, HandsBack, Merges};

use depth::deepest;
use facts::Table;
use facts::inputs::{Input, Inputs};
use merge::{merge_tables, refused};
use rules::answers::{Checked, Merged, Part, Tidied};
use rules::codes::{ACCEPTED, TABLE_TOO_SHORT};
use rules::record::Record;
use table::{read_all, read_table};
use write::write_table;

// ---- check

// One table: code, line, count of records, greatest depth.
#[tactic(auto, using(crate::proofs::Told::tellings))]
pub fn check(text: &[u8]) -> Checked
    ensures { Checks text.now result }
{
    let mut table = Table::blank();
    match read_table(text, &mut table) {
        Ok(count) => Checked {
            code: ACCEPTED,
            line: 0,
            count,
            depth: deepest(&table, count),
        },
        Err(why) => Checked {
            code: u32::from(why.fault),
            line: why.line,
            count: 0,
            depth: 0,
        },
    }
}

// ---- tidy

// One table in written form, in the lent buffer: code, line, length. The same lines in another order are as long as the text, so the
// length is known before a byte is written.
#[tactic(auto, using(crate::proofs::Told::tellings))]
pub fn tidy(text: &[u8], buffer: &mut [u8]) -> Tidied
    ensures { Tidies text.now buffer.old result buffer.new }
{
    let mut table = Table::blank();
    let count = match read_table(text, &mut table) {
        Ok(count) => count,
        Err(why) => {
            return Tidied {
                code: u32::from(why.fault),
                line: why.line,
                length: 0,
            };
        }
    };
    let length = text.len();
    if buffer.len() < length {
        return Tidied {
            code: TABLE_TOO_SHORT,
            line: 0,
            length,
        };
    }
    let texts = [text];
    write_table(&texts[..], &table, buffer, count);
    Tidied {
        code: ACCEPTED,
        line: 0,
        length,
    }
}

// ---- merge

// Old, first and second, merged into the two lent buffers: code, table, place, table length, ledger length.
pub fn merge<'a>(
    old: &'a [u8],
    first: &'a [u8],
    second: &'a [u8],
    table: &mut [u8],
    ledger: &mut [u8],
) -> Merged
    ensures { Merges old.now first.now second.now table.old ledger.old
        result table.new ledger.new }
{
    let tables = [
        Input::unread(old),
        Input::unread(first),
        Input::unread(second),
    ];
    let mut inputs = Inputs { tables };
    match read_all(&mut inputs) {
        Ok(()) => merge_tables(&inputs, table, ledger),
        Err(z) => refused(u32::from(z.why.fault), z.table, z.why.line),
    }
}

// ---- content

const NOWHERE: Part = Part {
    start: 0,
    length: 0,
};

// Where the content of a number lies in the text: the empty part at its start for a refused table or an absent number.
#[tactic(auto, using(crate::proofs::Told::tellings))]
pub fn content_part(text: &[u8], number: u32) -> Part
    ensures { result ≡ content_answer text.now number }
{
    let mut table = Table::blank();
    if read_table(text, &mut table).is_err() {
        return NOWHERE;
    }
    let n = Record::from(number);
    if !table.has(n) {
        return NOWHERE;
    }
    let facts = table.facts_of(n);
    Part {
        start: facts.place as usize,
        length: facts.length as usize,
    }
}

// The very part of the text that holds the content of a number.
pub fn content(text: &[u8], number: u32) -> &[u8]
    ensures { HandsBack text.entry number result }
{
    let part = content_part(text, number);
    let start = part.start;
    let end = start + part.length;
    &text[start..end]
}
