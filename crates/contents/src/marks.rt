// What is new on each line of each branch, noted once: contents are compared with old's here and nowhere else, and whoever seeks clashes or
// lost edits looks only at marked lines. n is a record, l a line, o the line of its number in old, t a table.
ghost use Rattle.std.specs.Prelude.{◌≡◌, [], ℕ, ◌<◌, ◌≤◌, length, get_or, Option, None};
ghost use Rattle.rules.specs.Facts.{same_content};
ghost use Rattle.facts.specs.Memory.{ROOM as room_of_memory, TABLES as tables_of_memory, line_at};
ghost use Rattle.facts.specs.Inputs.{texts_of, lines_of, facts_of, counts_of};
ghost use Rattle.edits.specs.Least.{lesser, best_of};
ghost use Rattle.edits.specs.Memory.{number_on};
ghost use Rattle.contents.specs.Memory.{content_on};
ghost use Rattle.contents.specs.Marks.{LinedTable, Lined, MarkedTable, Marked as AreMarked, Noted};
ghost use Rattle.contents.specs.Marks.{mark_number, row_of_marks, marks_of, mark_on, edited_in, NoneUnmarked};

use crate::{content_on, same};
use edits::{alike_lines, number_in};
use facts::inputs::{Inputs, Side};
use facts::{ROOM, TABLES};
use rules::record::Record;

// What is new on a line: a content that old does not have, a position that is not old's.
#[derive(Clone, Copy, PartialEq, Eq)]
pub struct Mark {
    pub content: bool,
    pub position: bool,
}

impl Mark {
    pub const NOTHING: Mark = Mark {
        content: false,
        position: false,
    };
}

// ---- one line

// Whether the contents on a line of table `t` and on a line of old are equal.
fn same_as_old(inputs: &Inputs, t: Side, l: usize, o: usize) -> bool
    requires { (l < room_of_memory) × (o < room_of_memory) }
    ensures { result ≡ same_content (content_on (texts_of inputs.now) (facts_of inputs.now) t.index l)
        (content_on (texts_of inputs.now) (facts_of inputs.now) 0 o) }
{
    let content = content_on(inputs, t, l);
    let old = content_on(inputs, Side::OLD, o);
    same(content, old)
}

fn mark_line(inputs: &Inputs, t: Side, l: usize) -> Mark
    requires l_bound { l < room_of_memory }
    requires own { line_at (get_or (lines_of inputs.now) t.index []) (number_on (facts_of inputs.now) t.index l) ≡ l }
    ensures { mark_number result ≡ mark_on (texts_of inputs.now) (lines_of inputs.now) (facts_of inputs.now) t.index l }
{
    let o = inputs.table(Side::OLD).line_of(number_in(inputs, t, l));
    let alike = alike_lines(inputs.table(t), inputs.table(Side::OLD), l, o);
    if l == 0 {
        return Mark {
            content: false,
            position: !alike,
        };
    }
    if o == 0 {
        return Mark {
            content: true,
            position: true,
        };
    }
    Mark {
        content: !same_as_old(inputs, t, l, o),
        position: !alike,
    }
}

// ---- all lines of a branch

// The lines of branch `t`, which has so many records.
fn mark_lines(inputs: &Inputs, t: Side, count: usize, row: &mut [Mark; ROOM])
    requires count_bound { count < room_of_memory }
    requires lined { LinedTable (get_or (lines_of inputs.now) t.index []) (get_or (facts_of inputs.now) t.index []) count }
    ensures { MarkedTable (texts_of inputs.now) (lines_of inputs.now) (facts_of inputs.now) t.index count (row_of_marks row.new) }
{
    for (l, mark) in row[..=count].iter_mut().enumerate() {
        *mark = mark_line(inputs, t, l);
    }
}

// ---- all branches

// Notes what is new on each line of each branch.
pub fn mark_branches(inputs: &Inputs, marks: &mut [[Mark; ROOM]; TABLES])
    requires few { (k : ℕ) → k < tables_of_memory → get_or (counts_of inputs.now) k 0 < room_of_memory }
    requires lined { Lined (lines_of inputs.now) (facts_of inputs.now) (counts_of inputs.now) }
    ensures marked { AreMarked (texts_of inputs.now) (lines_of inputs.now) (facts_of inputs.now) (counts_of inputs.now)
        (marks_of marks.new) }
    ensures noted { Noted (texts_of inputs.now) (lines_of inputs.now) (facts_of inputs.now) (marks_of marks.new) }
{
    for t in Side::BRANCHES {
        mark_lines(inputs, t, inputs.count(t), &mut marks[t.index]);
    }
}

// ---- what is noted

// The tables that are merged, and what is new on their lines: edits of contents are read off that.
#[derive(Clone, Copy)]
pub struct News<'a> {
    pub inputs: &'a Inputs<'a>,
    // Not in the inputs: they are noted while those are read.
    pub marks: &'a [[Mark; ROOM]; TABLES],
    ghost noted: { Noted (texts_of inputs.now) (lines_of inputs.now) (facts_of inputs.now) (marks_of marks.now) },
}

impl<'a> News<'a> {
    // What is new on a line of table `t`.
    pub fn mark(self, t: Side, l: usize) -> Mark
        requires { l < room_of_memory }
        ensures { mark_number result ≡ get_or (get_or (marks_of self.entry.marks.now) t.index []) l 0 }
    {
        self.marks[t.index][l]
    }

    // The content of the record in table `t` is marked as an edit.
    pub fn edited(self, t: Side, n: Record) -> bool
        ensures { result ≡ edited_in (lines_of self.entry.inputs.now) (marks_of self.entry.marks.now) t.index n.number }
    {
        let l = self.inputs.table(t).line_of(n);
        self.mark(t, l).content
    }
}

// The same where all lines are marked, of tables whose lines and numbers fit together.
#[derive(Clone, Copy)]
pub struct Marked<'a> {
    pub news: News<'a>,
    ghost many: { length news.inputs.now.tables ≡ tables_of_memory },
    ghost few: { (k : ℕ) → k < tables_of_memory → get_or (counts_of news.inputs.now) k 0 < room_of_memory },
    ghost lined: { Lined (lines_of news.inputs.now) (facts_of news.inputs.now) (counts_of news.inputs.now) },
    ghost marked: { AreMarked (texts_of news.inputs.now) (lines_of news.inputs.now) (facts_of news.inputs.now)
        (counts_of news.inputs.now) (marks_of news.marks.now) },
}

impl<'a> Marked<'a> {
    // Goes over the marked lines of all branches: `step` is given what it made so far, the branch and the line. Let `place` be a place seen
    // in that, none at first. If a step leaves the lesser of it and of the line's, which `at` has, and lines with no mark have none, then
    // the result shows the least on all lines.
    pub fn fold<A: Copy, F: Fn(A, Side, usize) -> A>(self, first: A, step: F) -> A
        requires { (a : A) (t : _) (l : ℕ) → 0 < t.index → l ≤ get_or (counts_of self.news.inputs.now) t.index 0
            → F.pre step a t l }
        ensures { let counts = counts_of self.entry.news.inputs.now in (place : A → Option ℕ) (at : ℕ → ℕ → Option ℕ)
            → place first ≡ None
            → ((a : A) (t : _) (l : ℕ) (b : A) → F.post step a t l b → place b ≡ lesser (place a) (at t.index l))
            → NoneUnmarked at (marks_of self.entry.news.marks.now) counts
            → place result ≡ best_of at (λ k. get_or counts k 0) }
    {
        let mut all = first;
        for t in Side::BRANCHES {
            for l in 0..=self.news.inputs.count(t) {
                if self.news.mark(t, l) != Mark::NOTHING {
                    all = step(all, t, l);
                }
            }
        }
        all
    }
}
