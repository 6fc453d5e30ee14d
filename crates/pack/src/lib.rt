// What a merge does once the merged table lies in memory: whether it is too large, whether there is room for it and its ledger, and then
// the writing of both. No byte is written before all three are known.
#![tactic(auto)]

ghost use Rattle.std.specs.Prelude.{◌≡◌, map};
ghost use Rattle.rules.specs.Calls.{told};
ghost use Rattle.facts.specs.Table.{lines_in, facts_in};
ghost use Rattle.ledger.specs.Sums.{sums_of};
ghost use Rattle.pack.specs.Packed.{room_code, room_told, end_code, PackReady, Packs};

use facts::Table;
use ledger::{Sums, sum_lines, write_ledger};
use rules::answers::Merged;
use rules::codes::{ACCEPTED, MERGED_TOO_LARGE};
use rules::kinds::Shortage;
use rules::limits::{BYTES, LINES};
use write::write_table;

// Whether so many records and their sums are within the limits and the room of the two buffers.
fn room(count: usize, s: Sums, table_room: usize, ledger_room: usize) -> Result<(), Shortage>
    ensures { end_code result ≡ room_code count s.table s.ledger table_room ledger_room }
{
    if LINES < count || BYTES < s.table {
        return Err(Shortage::Limits);
    }
    if table_room < s.table {
        return Err(Shortage::Table);
    }
    if ledger_room < s.ledger {
        return Err(Shortage::Ledger);
    }
    Ok(())
}

// Writes the table and its ledger, if there is room for both.
#[tactic(auto, using(crate::proofs::Packing::fills))]
fn fill(
    texts: &[&[u8]],
    table: &Table,
    count: usize,
    s: Sums,
    out_table: &mut [u8],
    ledger: &mut [u8],
) -> Result<(), Shortage>
    requires { PackReady (map (λ x. x.now) texts.now) (lines_in table.now) (facts_in table.now) count
        × (s ≡ sums_of (facts_in table.now) count) }
    ensures { Packs (map (λ x. x.now) texts.now) (lines_in table.now) (facts_in table.now) count
        out_table.old ledger.old (room_told (end_code result) s.table s.ledger) out_table.new ledger.new }
{
    room(count, s, out_table.len(), ledger.len())?;
    write_table(texts, table, out_table, count);
    write_ledger(table, ledger, count, s.bytes);
    Ok(())
}

// The answer of a merge that names no table and no place.
fn told(code: u32, table_length: usize, ledger_length: usize) -> Merged
    ensures { result ≡ told code 0 0 table_length ledger_length }
{
    Merged {
        code,
        table: 0,
        place: 0,
        table_length,
        ledger_length,
    }
}

// The answer with this end: the two lengths stand in it, but not on 26.
fn answer(end: Result<(), Shortage>, s: Sums) -> Merged
    ensures { result ≡ room_told (end_code end) s.table s.ledger }
{
    match end {
        Ok(()) => told(ACCEPTED, s.table, s.ledger),
        Err(Shortage::Limits) => told(MERGED_TOO_LARGE, 0, 0),
        Err(shortage) => told(u32::from(shortage), s.table, s.ledger),
    }
}

// The end of a merge whose table of `count` records lies in memory, its lines in written order.
pub fn pack(
    texts: &[&[u8]],
    table: &Table,
    count: usize,
    out_table: &mut [u8],
    ledger: &mut [u8],
) -> Merged
    requires { PackReady (map (λ x. x.now) texts.now) (lines_in table.now) (facts_in table.now) count }
    ensures { Packs (map (λ x. x.now) texts.now) (lines_in table.now) (facts_in table.now) count
        out_table.old ledger.old result out_table.new ledger.new }
{
    let s = sum_lines(table, count);
    let end = fill(texts, table, count, s, out_table, ledger);
    answer(end, s)
}
