// The merge of tables that were read: what is new on their lines is noted, they are judged, and the merged one, if there is one, is packed
// into the two lent buffers.
#![tactic(auto)]

ghost use Rattle.std.specs.Prelude.{◌≡◌};
ghost use Rattle.rules.specs.Calls.{told};
ghost use Rattle.facts.specs.Inputs.{texts_of, lines_of, facts_of, counts_of};
ghost use Rattle.merge.specs.Merging.{Ready, MergesTables};

use contents::marks::{Mark, mark_branches};
use facts::inputs::Inputs;
use facts::{ROOM, TABLES, Table};
use judge::judge;
use pack::pack;
use rules::answers::Merged;

// A refusal without lengths.
pub fn refused(code: u32, table: u32, place: u32) -> Merged
    ensures { result ≡ told code table place 0 0 }
{
    Merged {
        code,
        table,
        place,
        table_length: 0,
        ledger_length: 0,
    }
}

pub fn merge_tables(inputs: &Inputs, table: &mut [u8], ledger: &mut [u8]) -> Merged
    requires { Ready (texts_of inputs.now) (lines_of inputs.now) (facts_of inputs.now) (counts_of inputs.now) }
    ensures { MergesTables (texts_of inputs.now) (lines_of inputs.now) (facts_of inputs.now) (counts_of inputs.now)
        table.old ledger.old result table.new ledger.new }
{
    let texts = inputs.texts();
    let mut marks = [[Mark::NOTHING; ROOM]; TABLES];
    mark_branches(inputs, &mut marks);
    let mut merged = Table::blank();
    match judge(inputs, &marks, &mut merged) {
        Ok(count) => pack(&texts[..], &merged, count, table, ledger),
        Err(why) => refused(u32::from(why.clash), 0, why.place.number),
    }
}
