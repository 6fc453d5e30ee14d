// 25: edits that the merged table lacks, and the least record or parent of one, by a fixed number of questions on each line of each branch
// that is marked as new. n is a record, r a parent, p the one before, t a table, l a line.
#![tactic(auto)]

ghost use Rattle.std.specs.Prelude.{◌≡◌, ◌<◌, ◌≤◌, get_or};
ghost use Rattle.facts.specs.Table.{lines_in, facts_in};
ghost use Rattle.facts.specs.Inputs.{texts_of, lines_of, facts_of, counts_of};
ghost use Rattle.facts.specs.Asked.{has_in, asked};
ghost use Rattle.edits.specs.Least.{numbered};
ghost use Rattle.edits.specs.Memory.{ask};
ghost use Rattle.contents.specs.Memory.{tell};
ghost use Rattle.lost.specs.Lost.{lost_after, lost_position, lost_content, lost_on, all_lost};

use contents::marks::{Marked, News};
use edits::{follower_in, fresh, lesser, number_in, parent_in, place};
use facts::Table;
use facts::inputs::{Inputs, Side};
use rules::record::Record;

// The edit of who follows `p` under `r` is lost.
fn lost_after(inputs: &Inputs, merged: &Table, t: Side, r: Record, p: Record) -> bool
    ensures { result ≡ lost_after (ask (lines_of inputs.now) (facts_of inputs.now)) (asked (lines_in merged.now) (facts_in merged.now))
        t.index r.number p.number }
{
    let s = follower_in(inputs, t, r, p);
    if s == merged.follower(r, p) {
        return false;
    }
    let o = follower_in(inputs, Side::OLD, r, p);
    fresh(o, s)
}

// The lesser parent of a lost edit behind the record, or at the start of its own list.
fn lost_position(inputs: &Inputs, merged: &Table, t: Side, n: Record) -> Option<Record>
    ensures { numbered result ≡ lost_position (ask (lines_of inputs.now) (facts_of inputs.now))
        (asked (lines_in merged.now) (facts_in merged.now)) t.index n.number }
{
    let r = parent_in(inputs, t, n);
    let behind = lost_after(inputs, merged, t, r, n);
    let first = lost_after(inputs, merged, t, n, Record::START);
    lesser(place(behind, r), place(first, n))
}

// The record, if its new content is lost with it. A record that is there has it, for no two contents clash.
fn lost_content(news: News, merged: &Table, t: Side, n: Record) -> Option<Record>
    requires { 0 < t.index }
    ensures { let inputs = news.entry.inputs.now in
        numbered result ≡ lost_content (tell (texts_of inputs) (lines_of inputs) (facts_of inputs)) (has_in (lines_in merged.now))
        t.index n.number }
{
    place(!merged.has(n) && news.edited(t, n), n)
}

// What shows at the record on a line; where it stands as in old, no edit of its position is lost.
fn lost_on(marked: Marked, merged: &Table, t: Side, l: usize) -> Option<Record>
    requires { (0 < t.index) × (l ≤ get_or (counts_of marked.news.inputs.now) t.index 0) }
    ensures { let inputs = marked.entry.news.inputs.now in
        numbered result ≡ lost_on (texts_of inputs) (lines_of inputs) (facts_of inputs) (lines_in merged.now) (facts_in merged.now)
        t.index l }
{
    let news = marked.news;
    let n = number_in(news.inputs, t, l);
    let content = lost_content(news, merged, t, n);
    if !news.mark(t, l).position {
        return content;
    }
    lesser(lost_position(news.inputs, merged, t, n), content)
}

// On all lines of all branches; where nothing is marked, nothing is lost.
pub fn least_lost(marked: Marked, merged: &Table) -> Option<Record>
    ensures { let inputs = marked.entry.news.inputs.now in
        numbered result ≡ all_lost (texts_of inputs) (lines_of inputs) (facts_of inputs) (lines_in merged.now) (facts_in merged.now)
        (counts_of inputs) }
{
    marked.fold(None, |least, t, l| {
        lesser(least, lost_on(marked, merged, t, l))
    })
}
