// A table's written form, from memory into a lent buffer: a record first, then its list; a list is its records. r is a parent, n a record
// or END. The links are asked of memory, so any table that lies there can be written.
#![tactic(auto)]

ghost use Rattle.std.specs.Prelude.{◌≡◌, map, length};
ghost use Rattle.facts.specs.Table.{lines_in, facts_in};
ghost use Rattle.write.specs.Stored.{part_in, Lies};
ghost use Rattle.write.specs.Writing.{ListReady, RecordReady, ListWritten, RecordWritten, TableReady, TableWritten};

use bytes_out::write_line;
use facts::{Facts, SPAN, TEXTS, Table};
use rules::record::Record;
use text::text_of;

// Where the next byte goes, and how many records are still unwritten.
#[derive(Clone, Copy)]
pub struct Progress {
    pub at: usize,
    pub left: usize,
}

// The content that a line tells.
fn content<'a>(texts: &[&'a [u8]], f: &Facts) -> &'a [u8]
    requires { Lies (map (λ x. x.now) texts.now) f.now.place f.now.length }
    ensures { result.now ≡ part_in (map (λ x. x.now) texts.now) f.now.place f.now.length }
{
    let text = text_of(texts, (f.place / SPAN % TEXTS) as usize);
    let start = (f.place % SPAN) as usize;
    let end = start + f.length as usize;
    &text[start..end]
}

// A record, then its list. Most records have no child, and are spared the call. Where its list begins is asked for before its line is
// written, so that the answer need not wait for the bytes. Texts and table in one struct made writing deep tables 3 in 100 slower,
// and took more stack than c/brooksaddle.h tells.
#[cycle(write_list_write_record)]
fn write_record(
    texts: &[&[u8]],
    table: &Table,
    out: &mut [u8],
    p: Progress,
    r: Record,
    n: Record,
) -> Progress
    requires { RecordReady (map (λ x. x.now) texts.now) (lines_in table.now) (facts_in table.now)
        r.number n.number p.at p.left (length out.old) }
    ensures { RecordWritten (map (λ x. x.now) texts.now) (lines_in table.now) (facts_in table.now)
        r.number n.number out.old out.new p.at p.left result.at result.left }
{
    let f = table.facts_of(n);
    let first = f.first;
    let at = write_line(n, r, content(texts, f), out, p.at);
    let q = Progress {
        at,
        left: p.left - 1,
    };
    if first.is_end() {
        return q;
    }
    write_list(texts, table, out, q, n, first)
}

// The records of a list from `n` on, each with all below it. The next is asked for before one is written, for the same reason.
#[cycle(write_list_write_record)]
fn write_list(
    texts: &[&[u8]],
    table: &Table,
    out: &mut [u8],
    p: Progress,
    r: Record,
    n: Record,
) -> Progress
    requires { ListReady (map (λ x. x.now) texts.now) (lines_in table.now) (facts_in table.now)
        r.number n.number p.at p.left (length out.old) }
    ensures { ListWritten (map (λ x. x.now) texts.now) (lines_in table.now) (facts_in table.now)
        r.number n.number out.old out.new p.at p.left result.at result.left }
{
    let mut q = p;
    let mut next = n;
    // No `for`: the links say who is next.
    while !next.is_end() {
        let after = table.facts_of(next).follower;
        q = write_record(texts, table, out, q, r, next);
        next = after;
    }
    q
}

// A table of `count` records, from byte 0 on.
pub fn write_table(texts: &[&[u8]], table: &Table, out: &mut [u8], count: usize)
    requires { TableReady (map (λ x. x.now) texts.now) (lines_in table.now) (facts_in table.now) count (length out.old) }
    ensures { TableWritten (map (λ x. x.now) texts.now) (lines_in table.now) (facts_in table.now) out.old out.new }
{
    let first = table.facts_of(Record::TOP).first;
    write_list(
        texts,
        table,
        out,
        Progress { at: 0, left: count },
        Record::TOP,
        first,
    );
}
