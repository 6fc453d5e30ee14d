// Contents of the tables side by side: which are edits, where two edits clash, and where the kept content of a record lies. Old is the
// first of the tables, the others are the branches; `news` has what is new on each line. n is a record, t and k are tables, l is a line.
#![tactic(auto)]

pub mod marks;

ghost use Rattle.std.specs.Prelude.{◌≡◌, ◌<◌, ◌≤◌};
ghost use Rattle.rules.specs.Facts.{same_content};
ghost use Rattle.facts.specs.Memory.{ROOM as room_of_memory};
ghost use Rattle.facts.specs.Inputs.{texts_of, lines_of, facts_of};
ghost use Rattle.edits.specs.Branches.{first_branch, sum_branches};
ghost use Rattle.edits.specs.Least.{numbered};
ghost use Rattle.contents.specs.Contents.{two_contents, content_place};
ghost use Rattle.contents.specs.Memory.{cut, content_on, tell, kept_place, kept_length};
ghost use Rattle.contents.specs.Marks.{marks_of, edited_in};

use crate::marks::News;
use edits::{first_branch, place};
use facts::inputs::{Inputs, Side};
use facts::{SPAN, TEXTS};
use rules::record::Record;

// ---- one content

// "Contents are equal when their bytes are."
fn same(a: &[u8], b: &[u8]) -> bool
    ensures { result ≡ same_content a.now b.now }
{
    a == b
}

// So many bytes of a text; none, if they do not all lie there.
fn cut<'a>(text: &'a [u8], start: u32, long: u32) -> &'a [u8]
    ensures { result.now ≡ cut text.now start long }
{
    let from = start as usize;
    let end = from + long as usize;
    text.get(from..end).unwrap_or_default()
}

// ---- the tables

// What the record on a line of a table holds.
fn content_on<'a>(inputs: &Inputs<'a>, t: Side, l: usize) -> &'a [u8]
    requires { l < room_of_memory }
    ensures { result.now ≡ content_on (texts_of inputs.now) (facts_of inputs.now) t.index l }
{
    let facts = inputs.table(t).facts_on(l);
    cut(inputs.text(t), facts.place, facts.length)
}

// What a record holds in a table.
fn content<'a>(inputs: &Inputs<'a>, t: Side, n: Record) -> &'a [u8]
    ensures { result.now ≡ (tell (texts_of inputs.now) (lines_of inputs.now) (facts_of inputs.now) t.index).content n.number }
{
    content_on(inputs, t, inputs.table(t).line_of(n))
}

// Whether a record holds the same in two tables.
fn same_in(inputs: &Inputs, t: Side, k: Side, n: Record) -> bool
    ensures { result ≡ same_content ((tell (texts_of inputs.now) (lines_of inputs.now) (facts_of inputs.now) t.index).content n.number)
        ((tell (texts_of inputs.now) (lines_of inputs.now) (facts_of inputs.now) k.index).content n.number) }
{
    same(content(inputs, t, n), content(inputs, k, n))
}

// ---- edits

// The first branch with an edit there, or old, whose content then stands.
fn content_source(news: News, n: Record) -> Side
    ensures { result.index ≡ first_branch (λ k. edited_in (lines_of news.entry.inputs.now) (marks_of news.entry.marks.now) k n.number) }
{
    first_branch(|k| news.edited(k, n))
}

// The sum of the branches with an edit there.
fn content_origin(news: News, n: Record) -> usize
    ensures value { result ≡ sum_branches (λ k. edited_in (lines_of news.entry.inputs.now) (marks_of news.entry.marks.now) k n.number) }
    ensures upper_bound { result ≤ 3 }
{
    let mut origin = 0;
    for t in Side::BRANCHES {
        if news.edited(t, n) {
            origin += t.index;
        }
    }
    origin
}

// ---- clashes

// An edit of branch `t` that is not the first branch's.
fn two_contents(news: News, t: Side, n: Record) -> bool
    requires { 0 < t.index }
    ensures { let inputs = news.entry.inputs.now in
        result ≡ two_contents (tell (texts_of inputs) (lines_of inputs) (facts_of inputs)) t.index n.number }
{
    if !news.edited(t, n) {
        return false;
    }
    let first = content_source(news, n);
    first != t && !same_in(news.inputs, t, first, n)
}

// The record, if two edits give it different contents.
pub fn content_place(news: News, t: Side, n: Record) -> Option<Record>
    requires { 0 < t.index }
    ensures { let inputs = news.entry.inputs.now in
        numbered result ≡ content_place (tell (texts_of inputs) (lines_of inputs) (facts_of inputs)) t.index n.number }
{
    place(two_contents(news, t, n), n)
}

// ---- the kept content

// Where the kept content of a record lies, and how long it is.
#[derive(Clone, Copy)]
pub struct Kept {
    pub place: u32,
    pub length: u32,
}

// Most records are no edit of any branch, and are not asked for the sum.
pub fn kept_content(news: News, n: Record) -> Kept
    ensures place_value { result.place ≡ kept_place (texts_of news.entry.inputs.now) (lines_of news.entry.inputs.now)
        (facts_of news.entry.inputs.now) n.number }
    ensures length_value { result.length ≡ kept_length (texts_of news.entry.inputs.now) (lines_of news.entry.inputs.now)
        (facts_of news.entry.inputs.now) n.number }
{
    let source = content_source(news, n);
    let origin = if source == Side::OLD {
        0
    } else {
        content_origin(news, n)
    };
    let facts = news.inputs.table(source).facts_of(n);
    let text = origin as u32 * TEXTS + source.index as u32;
    Kept {
        place: text * SPAN + facts.place % SPAN,
        length: facts.length,
    }
}
