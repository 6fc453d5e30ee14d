// Positions of the tables side by side: which facts are edits, where two edits clash, and who follows by the kept facts. Old is the first
// of the tables, the others are the branches. All of it is asked of one table at a time. n is a record, r a parent, p the one before, s the
// one after, o what old answers, or a line of old; t is a table, l a line.
#![tactic(auto)]

pub mod clash;

ghost use Rattle.std.specs.Prelude.{◌≡◌, [], ℕ, Bool, ◌&&◌, ◌||◌, ◌<◌, eqb, get_or};
ghost use Rattle.facts.specs.Memory.{ROOM};
ghost use Rattle.facts.specs.Table.{lines_in, facts_in};
ghost use Rattle.facts.specs.Inputs.{lines_of, facts_of};
ghost use Rattle.facts.specs.Asked.{has_in};
ghost use Rattle.edits.specs.Branches.{first_branch};
ghost use Rattle.edits.specs.Least.{numbered, lesser, place};
ghost use Rattle.edits.specs.Memory.{ask, number_on, alike_on};
ghost use Rattle.edits.specs.Positions.{fresh, fresh_after, fresh_before, fresh_beside, claims};
ghost use Rattle.edits.specs.Positions.{knows, unknown, kept_after};

use facts::Table;
use facts::inputs::{Inputs, Side};
use rules::record::Record;

// ---- places

// `n`, if the test says that it is a place.
pub fn place(test: bool, n: Record) -> Option<Record>
    ensures { numbered result ≡ place test n.number }
{
    test.then_some(n)
}

// The lesser of two places.
pub fn lesser(a: Option<Record>, b: Option<Record>) -> Option<Record>
    ensures { numbered result ≡ lesser (numbered a) (numbered b) }
{
    match (a, b) {
        (Some(x), Some(y)) => Some(x.min(y)),
        (None, _) => b,
        (_, None) => a,
    }
}

// ---- the tables

pub fn parent_in(inputs: &Inputs, t: Side, n: Record) -> Record
    ensures { result.number ≡ (ask (lines_of inputs.now) (facts_of inputs.now) t.index).up n.number }
{
    inputs.table(t).parent(n)
}

pub fn follower_in(inputs: &Inputs, t: Side, r: Record, p: Record) -> Record
    ensures { result.number ≡ (ask (lines_of inputs.now) (facts_of inputs.now) t.index).after r.number p.number }
{
    inputs.table(t).follower(r, p)
}

fn forerunner_in(inputs: &Inputs, t: Side, r: Record, s: Record) -> Record
    ensures { result.number ≡ (ask (lines_of inputs.now) (facts_of inputs.now) t.index).before r.number s.number }
{
    inputs.table(t).forerunner(r, s)
}

// The number on a line of a table.
pub fn number_in(inputs: &Inputs, t: Side, l: usize) -> Record
    requires { l < ROOM }
    ensures { result.number ≡ number_on (facts_of inputs.now) t.index l }
{
    inputs.table(t).facts_on(l).number
}

// ---- the branches

// The first branch that passes; old, if there is none.
pub fn first_branch<F: Fn(Side) -> bool>(test: F) -> Side
    requires { F.IsAlwaysCallable test }
    ensures { (passes : ℕ → Bool) → ((t : _) (y : _) → F.post test t y → y ≡ passes t.index)
        → result.index ≡ first_branch passes }
{
    for t in Side::BRANCHES {
        if test(t) {
            return t;
        }
    }
    Side::OLD
}

// ---- a position that is old's

// The position on a line is that on a line of old. All five facts are looked at, so that the compiler takes them together.
pub fn alike_lines(table: &Table, old: &Table, l: usize, o: usize) -> bool
    requires { (l < ROOM) × (o < ROOM) }
    ensures { result ≡ alike_on (facts_in table.now) (facts_in old.now) l o }
{
    let a = table.facts_on(l);
    let b = old.facts_on(o);
    (a.parent == b.parent)
        & ((a.forerunner == b.forerunner)
            & ((a.follower == b.follower) & ((a.first == b.first) & (a.last == b.last))))
}

// ---- edits

// Somebody stands there, and it is not whom old has there.
pub fn fresh(o: Record, s: Record) -> bool
    ensures { result ≡ fresh o.number s.number }
{
    !s.is_nobody() && s != o
}

// These two differ in whom they ask for; one function with that as a parameter would be no shorter than either.
fn fresh_after(inputs: &Inputs, t: Side, r: Record, p: Record) -> bool
    ensures { result ≡ fresh_after (ask (lines_of inputs.now) (facts_of inputs.now)) t.index r.number p.number }
{
    fresh(
        follower_in(inputs, Side::OLD, r, p),
        follower_in(inputs, t, r, p),
    )
}

fn fresh_before(inputs: &Inputs, t: Side, r: Record, s: Record) -> bool
    ensures { result ≡ fresh_before (ask (lines_of inputs.now) (facts_of inputs.now)) t.index r.number s.number }
{
    fresh(
        forerunner_in(inputs, Side::OLD, r, s),
        forerunner_in(inputs, t, r, s),
    )
}

// An edit stands at either side of `n` under `r`.
fn fresh_beside(inputs: &Inputs, t: Side, r: Record, n: Record) -> bool
    ensures { result ≡ fresh_beside (ask (lines_of inputs.now) (facts_of inputs.now)) t.index r.number n.number }
{
    fresh_after(inputs, t, r, n) || fresh_before(inputs, t, r, n)
}

// An edit gives the record its parent.
fn claims(inputs: &Inputs, t: Side, n: Record) -> bool
    ensures { result ≡ claims (ask (lines_of inputs.now) (facts_of inputs.now)) t.index n.number }
{
    inputs.table(t).has(n) && fresh_beside(inputs, t, parent_in(inputs, t, n), n)
}

// ---- kept facts

// A record is known where it is; START and END are where the list is.
fn knows(table: &Table, r: Record, n: Record) -> bool
    ensures { result ≡ knows (has_in (lines_in table.now)) r.number n.number }
{
    if n.is_record() {
        table.has(n)
    } else {
        table.list(r)
    }
}

// The table knows neither `p` nor `s` under `r`.
fn unknown(table: &Table, r: Record, p: Record, s: Record) -> bool
    ensures { result ≡ unknown (has_in (lines_in table.now)) r.number p.number s.number }
{
    !knows(table, r, p) && !knows(table, r, s)
}

// A table where `s` follows keeps an old fact from `p` to `o`.
fn still_kept(table: &Table, r: Record, p: Record, o: Record, s: Record) -> bool
    ensures { result ≡ (eqb s.number o.number || unknown (has_in (lines_in table.now)) r.number p.number o.number) }
{
    s == o || unknown(table, r, p, o)
}

// Who follows `p` under `r` by the kept facts; nobody, if no kept fact goes on. The first branch's edit, or else old's fact, if each branch
// has it or knows neither of its ends.
pub fn kept_after(inputs: &Inputs, r: Record, p: Record) -> Record
    ensures { result.number ≡ kept_after (ask (lines_of inputs.now) (facts_of inputs.now)) r.number p.number }
{
    let o = follower_in(inputs, Side::OLD, r, p);
    let mut kept = true;
    for t in Side::BRANCHES {
        let s = follower_in(inputs, t, r, p);
        if fresh(o, s) {
            return s;
        }
        kept = kept && still_kept(inputs.table(t), r, p, o, s);
    }
    if kept { o } else { Record::NOBODY }
}
