// Where two edits of positions clash: 22 and 23, as they show at one record of one branch. r is a parent, p the one before, s the one
// after, n a record, t a table.
ghost use Rattle.std.specs.Prelude.{◌≡◌, ◌&&◌, ℕ, Bool, not, eqb};
ghost use Rattle.facts.specs.Inputs.{lines_of, facts_of};
ghost use Rattle.edits.specs.Branches.{first_branch};
ghost use Rattle.edits.specs.Least.{numbered};
ghost use Rattle.edits.specs.Memory.{ask};
ghost use Rattle.edits.specs.Positions.{fresh, parent_source};
ghost use Rattle.edits.specs.Positions.{two_followers, two_forerunners, two_parents, torn, parent_place, neighbour_place};

use crate::{claims, first_branch, follower_in, forerunner_in, fresh, lesser, parent_in, place};
use facts::inputs::{Inputs, Side};
use rules::record::Record;

// Branch `t` has an edit of a neighbour, and it is not the first branch's.
fn two_neighbours<F: Fn(Side) -> Record>(neighbour: F, t: Side) -> bool
    requires { F.IsAlwaysCallable neighbour }
    ensures { (v : ℕ → ℕ) → ((k : _) (y : _) → F.post neighbour k y → y.number ≡ v k.index)
        → result ≡ (fresh (v 0) (v t.index) && not (eqb (v t.index) (v (first_branch (λ k. fresh (v 0) (v k)))))) }
{
    let o = neighbour(Side::OLD);
    let s = neighbour(t);
    if !fresh(o, s) {
        return false;
    }
    let first = first_branch(|k| fresh(o, neighbour(k)));
    s != neighbour(first)
}

// ---- clashes: an edit of table `t` that is not the first branch's

fn two_followers(inputs: &Inputs, t: Side, r: Record, p: Record) -> bool
    ensures { result ≡ two_followers (ask (lines_of inputs.now) (facts_of inputs.now)) t.index r.number p.number }
{
    two_neighbours(|k| follower_in(inputs, k, r, p), t)
}

fn two_forerunners(inputs: &Inputs, t: Side, r: Record, s: Record) -> bool
    ensures { result ≡ two_forerunners (ask (lines_of inputs.now) (facts_of inputs.now)) t.index r.number s.number }
{
    two_neighbours(|k| forerunner_in(inputs, k, r, s), t)
}

fn two_parents(inputs: &Inputs, t: Side, n: Record) -> bool
    ensures { result ≡ two_parents (ask (lines_of inputs.now) (facts_of inputs.now)) t.index n.number }
{
    if !claims(inputs, t, n) {
        return false;
    }
    let first = first_branch(|k| claims(inputs, k, n));
    parent_in(inputs, t, n) != parent_in(inputs, first, n)
}

// The list of `r` is torn behind `p` or before `s`.
fn torn(inputs: &Inputs, t: Side, r: Record, p: Record, s: Record) -> bool
    ensures { result ≡ torn (ask (lines_of inputs.now) (facts_of inputs.now)) t.index r.number p.number s.number }
{
    two_followers(inputs, t, r, p) || two_forerunners(inputs, t, r, s)
}

// The record, if two edits give it different parents.
pub fn parent_place(inputs: &Inputs, t: Side, n: Record) -> Option<Record>
    ensures { numbered result ≡ parent_place (ask (lines_of inputs.now) (facts_of inputs.now)) t.index n.number }
{
    place(two_parents(inputs, t, n), n)
}

// The least parent whose list is torn beside the record, or, of the record's own list, at its ends.
pub fn neighbour_place(inputs: &Inputs, t: Side, n: Record) -> Option<Record>
    ensures { numbered result ≡ neighbour_place (ask (lines_of inputs.now) (facts_of inputs.now)) t.index n.number }
{
    let r = parent_in(inputs, t, n);
    let beside = torn(inputs, t, r, n, n);
    let within = torn(inputs, t, n, Record::START, Record::END);
    lesser(place(beside, r), place(within, n))
}
