// A whole table, read into memory: line after line, each split off and judged by what memory knows of the lines before it. And tables side
// by side, read in order.
#![tactic(auto)]

ghost use Rattle.std.specs.Prelude.{◌≡◌, ℕ, ◌<◌, MatchResult};
ghost use Rattle.rules.specs.Codes.{accepted};
ghost use Rattle.rules.specs.Kinds.{fault_code};
ghost use Rattle.facts.specs.Memory.{TABLES as tables_of_memory, no_lines, no_facts};
ghost use Rattle.facts.specs.Table.{lines_in, facts_in};
ghost use Rattle.facts.specs.Inputs.{texts_of, lines_of, facts_of, counts_of};
ghost use Rattle.table.specs.Read.{told_by, counted, fault_in, Begins, Reads, Unread};
ghost use Rattle.table.specs.All.{refused_by, ReadsAll};

use facts::Table;
use facts::inputs::{Input, Inputs};
use line::{Reached, line_at};
use rules::kinds::Fault;
use rules::limits::{BYTES, LINES};
use text::{ended, ends};

// Why a text is no table, and on which line; 0 stands for the whole text, as in the answer that C reads.
#[derive(Clone, Copy)]
pub struct Unreadable {
    pub fault: Fault,
    pub line: u32,
}

// The first of some texts that is no table, by its number from 1 on, and why.
#[derive(Clone, Copy)]
pub struct Refusal {
    pub table: u32,
    pub why: Unreadable,
}

// The line that was found behind the first `count` lines, or the lowest of the faults 3 to 10 that it has.
fn judged(table: &Table, count: usize, found: Result<Reached, Fault>) -> Result<Reached, Fault>
    ensures { MatchResult result
        (λ reached. (found ≡ Ok reached) × (fault_in (lines_in table.now) count found ≡ accepted))
        (λ fault. fault_code fault ≡ fault_in (lines_in table.now) count found) }
{
    if LINES <= count {
        return Err(Fault::TooManyLines);
    }
    let reached = found?;
    if table.has(reached.line.number) {
        return Err(Fault::NumberTwice);
    }
    if !table.list(reached.line.parent) {
        return Err(Fault::ParentMissing);
    }
    Ok(reached)
}

// Reads the lines of an ended text into memory that knows none yet, and answers how many there are.
#[tactic(auto, using(crate::proofs::Steps::steps))]
fn read_lines(text: &[u8], table: &mut Table) -> Result<usize, Unreadable>
    requires { Begins text.now (lines_in table.old) (facts_in table.old) }
    ensures { Reads text.now (lines_in table.new) (facts_in table.new) (told_by result) }
{
    let mut at: usize = 0;
    let mut count: usize = 0;
    // No `for`: each line says where the next one starts.
    while at < text.len() {
        let reached = match judged(table, count, line_at(text, at)) {
            Ok(reached) => reached,
            Err(fault) => {
                let line = (count + 1) as u32;
                return Err(Unreadable { fault, line });
            }
        };
        let line = reached.line;
        let start = (at + line.start) as u32;
        count += 1;
        table.add_line(count, line.number, line.parent, start, line.length as u32);
        at = reached.at;
    }
    Ok(count)
}

// Reads a table into memory that is all zeros, and answers how many records it has.
#[tactic(auto, using(crate::proofs::Steps::steps))]
pub fn read_table(text: &[u8], table: &mut Table) -> Result<usize, Unreadable>
    requires { (lines_in table.old ≡ no_lines) × (facts_in table.old ≡ no_facts) }
    ensures { Reads text.now (lines_in table.new) (facts_in table.new) (told_by result) }
{
    if BYTES < text.len() {
        return Err(Unreadable {
            fault: Fault::TextTooLong,
            line: 0,
        });
    }
    if !ended(text) {
        return Err(Unreadable {
            fault: Fault::Unended,
            line: (ends(text) + 1) as u32,
        });
    }
    table.open();
    read_lines(text, table)
}

// Reads the text of a table into its place.
pub fn read_input(input: &mut Input) -> Result<(), Unreadable>
    requires { (lines_in input.old.table ≡ no_lines) × (facts_in input.old.table ≡ no_facts) }
    ensures text { input.new.text ≡ input.old.text }
    ensures read { Reads input.old.text.now (lines_in input.new.table) (facts_in input.new.table) (counted result input.new.count) }
{
    input.count = read_table(input.text, &mut input.table)?;
    Ok(())
}

// Reads the texts in order, each into its place, and stops at the first refused one.
pub fn read_all(inputs: &mut Inputs) -> Result<(), Refusal>
    requires { (t : ℕ) → t < tables_of_memory → Unread (lines_of inputs.old) (facts_of inputs.old) t }
    ensures texts { texts_of inputs.new ≡ texts_of inputs.old }
    ensures read { ReadsAll (texts_of inputs.old) (lines_of inputs.new) (facts_of inputs.new) (counts_of inputs.new) (refused_by result) }
{
    for (t, input) in inputs.tables[..].iter_mut().enumerate() {
        if let Err(why) = read_input(input) {
            return Err(Refusal {
                table: (t + 1) as u32,
                why,
            });
        }
    }
    Ok(())
}
