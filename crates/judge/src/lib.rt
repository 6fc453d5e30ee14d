// 21 to 25, in this order: the clashes of edits; then, only if there is none, the walk, which lays the merged tree down; then broken lists
// and lost edits.
#![tactic(auto)]

ghost use Rattle.std.specs.Prelude.{◌≡◌, ℕ, ◌<◌, get_or, IfOk};
ghost use Rattle.facts.specs.Memory.{ROOM as room_of_memory, TABLES as tables_of_memory, no_lines, no_facts};
ghost use Rattle.facts.specs.Table.{lines_in, facts_in};
ghost use Rattle.facts.specs.Inputs.{texts_of, lines_of, facts_of, counts_of};
ghost use Rattle.contents.specs.Marks.{Lined, Marked as AreMarked, Noted, marks_of};
ghost use Rattle.judge.specs.Judged.{clash_at, Judges};

use clashes::least_clashes;
use contents::marks::{Mark, Marked, News};
use facts::inputs::Inputs;
use facts::{ROOM, TABLES, Table};
use lost::least_lost;
use merged::lay_down;
use rules::kinds::Clash;
use rules::record::Record;

// Why the tables can't be merged, and where that shows.
#[derive(Clone, Copy)]
pub struct Refusal {
    pub clash: Clash,
    pub place: Record,
}

// A clash of this kind, if there is a place for it.
fn none_at(clash: Clash, place: Option<Record>) -> Result<(), Refusal>
    ensures { result ≡ clash_at clash place }
{
    match place {
        Some(place) => Err(Refusal { clash, place }),
        None => Ok(()),
    }
}

// Judges the tables, whose lines are marked, and lays the merged one down in a blank one; how many records that has is answered.
pub fn judge<'a>(
    inputs: &'a Inputs,
    marks: &'a [[Mark; ROOM]; TABLES],
    merged: &mut Table,
) -> Result<usize, Refusal>
    requires few { (k : ℕ) → k < tables_of_memory → get_or (counts_of inputs.now) k 0 < room_of_memory }
    requires blank { (lines_in merged.old ≡ no_lines) × (facts_in merged.old ≡ no_facts) }
    requires lined { Lined (lines_of inputs.now) (facts_of inputs.now) (counts_of inputs.now) }
    requires marked { AreMarked (texts_of inputs.now) (lines_of inputs.now) (facts_of inputs.now) (counts_of inputs.now)
        (marks_of marks.now) }
    requires noted { Noted (texts_of inputs.now) (lines_of inputs.now) (facts_of inputs.now) (marks_of marks.now) }
    ensures judges { Judges (texts_of inputs.now) (lines_of inputs.now) (facts_of inputs.now) (counts_of inputs.now)
        (lines_in merged.new) (facts_in merged.new) result }
    ensures count_bound { IfOk result (λ count. count < room_of_memory) }
{
    // Nothing is done here: a slice tells the proof how many tables there are, which is in the type only.
    let _ = &inputs.tables[..];
    let marked = Marked {
        news: News { inputs, marks },
    };
    let least = least_clashes(marked);
    none_at(Clash::Content, least.content)?;
    none_at(Clash::Parent, least.parent)?;
    none_at(Clash::Neighbour, least.neighbour)?;
    merged.open();
    let laid = lay_down(inputs, marks, merged);
    none_at(Clash::BrokenList, laid.broken)?;
    none_at(Clash::LostEdit, least_lost(marked, merged))?;
    Ok(laid.count)
}
