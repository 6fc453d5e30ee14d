// The merged tree, laid down as one more table in memory, along the followers by the kept facts, in written order: a record first, then
// its list; where a list ends, the one that its parent stands in goes on behind the parent. No stack is needed, for the parent stands in
// the table already. `inputs` has the tables that are merged, `marks` what is new on their lines. r is a parent, p the one before, s the
// one after, l a line.
#![tactic(auto)]

ghost use Rattle.std.specs.Prelude.{◌≡◌, ◌&&◌, ◌<◌, ◌-◌, ltb};
ghost use Rattle.rules.specs.Marks.{is_record};
ghost use Rattle.facts.specs.Memory.{NUMBERS as numbers_of_memory, ROOM as room_of_memory};
ghost use Rattle.facts.specs.Table.{lines_in, facts_in};
ghost use Rattle.facts.specs.Inputs.{texts_of, lines_of, facts_of};
ghost use Rattle.contents.specs.Marks.{Noted, marks_of};
ghost use Rattle.edits.specs.Least.{numbered};
ghost use Rattle.merged.specs.Laying.{RecordLaid, LaidDown};
ghost use Rattle.merged.specs.Memory.{kept_next, kept_part};

use contents::kept_content;
use contents::marks::{Mark, News};
use edits::{kept_after, lesser, place};
use facts::inputs::Inputs;
use facts::{ROOM, TABLES, Table};
use rules::record::Record;

// How many records are laid down, and the least parent whose list is broken.
#[derive(Clone, Copy)]
pub struct LaidOut {
    pub count: usize,
    pub broken: Option<Record>,
}

// Whether a record follows, and there is a line for it behind the first `count`.
fn follows(s: Record, count: usize) -> bool
    ensures { result ≡ (is_record s.number && ltb count (room_of_memory - 1)) }
{
    s.is_record() && count < ROOM - 1
}

// Record `s` on line `l`, the last child of `r`, with its kept content.
fn lay_record(news: News, merged: &mut Table, l: usize, s: Record, r: Record)
    requires { (l < room_of_memory) × (s.number < numbers_of_memory) }
    ensures { RecordLaid
        (kept_part (texts_of news.entry.inputs.now) (lines_of news.entry.inputs.now) (facts_of news.entry.inputs.now))
        (lines_in merged.old) (facts_in merged.old) (lines_in merged.new) (facts_in merged.new) l s.number r.number }
{
    let kept = kept_content(news, s);
    merged.add_line(l, s, r, kept.place, kept.length);
}

// The whole tree, into a table that holds no record yet. `lists` are begun and not at their end; the innermost is that of `r`, behind `p`.
pub fn lay_down<'a>(
    inputs: &'a Inputs,
    marks: &'a [[Mark; ROOM]; TABLES],
    merged: &mut Table,
) -> LaidOut
    requires { Noted (texts_of inputs.now) (lines_of inputs.now) (facts_of inputs.now) (marks_of marks.now) }
    ensures laid_down { LaidDown (kept_next (lines_of inputs.now) (facts_of inputs.now))
        (kept_part (texts_of inputs.now) (lines_of inputs.now) (facts_of inputs.now))
        (lines_in merged.old) (facts_in merged.old) (lines_in merged.new) (facts_in merged.new)
        result.count (numbered result.broken) }
    ensures count_bound { result.count < room_of_memory }
{
    let news = News { inputs, marks };
    let mut count = 0;
    let mut broken = None;
    let mut lists: usize = 1;
    let mut r = Record::TOP;
    let mut p = Record::START;
    // No `for`: how many lists there are shows on the way; no stack, since memory is fixed.
    while lists > 0 {
        let s = kept_after(inputs, r, p);
        if follows(s, count) {
            count += 1;
            lists += 1;
            lay_record(news, merged, count, s, r);
            r = s;
            p = Record::START;
        } else {
            broken = lesser(broken, place(!s.is_end(), r));
            lists -= 1;
            p = r;
            r = merged.parent(r);
        }
    }
    LaidOut { count, broken }
}
