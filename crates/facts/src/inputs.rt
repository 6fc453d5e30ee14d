// The tables of a merge side by side: old, first and second.
ghost use Rattle.std.specs.Prelude.{◌≡◌, [], ◌<◌, map, length, get_or};
ghost use Rattle.facts.specs.Memory.{TABLES as tables_of_memory, no_lines, no_facts};
ghost use Rattle.facts.specs.Table.{lines_in, facts_in};
ghost use Rattle.facts.specs.Inputs.{texts_of, lines_of, facts_of, counts_of};

use crate::{TABLES, Table};

// One of them: 0 is old, the others are the branches.
#[derive(Clone, Copy, PartialEq, Eq)]
pub struct Side {
    pub index: usize,
    ghost within: { index < tables_of_memory },
}

impl Side {
    pub const OLD: Side = Side { index: 0 };

    pub const BRANCHES: [Side; TABLES - 1] = [Side { index: 1 }, Side { index: 2 }];
}

// A table that is merged: its text, how it lies in memory, and how many records it has.
#[derive(Drop)]
pub struct Input<'a> {
    pub text: &'a [u8],
    pub table: Table,
    pub count: usize,
}

impl<'a> Input<'a> {
    // Not read yet.
    pub fn unread(text: &'a [u8]) -> Input<'a>
        ensures text { result.text ≡ text.entry }
        ensures lines { lines_in result.table ≡ no_lines }
        ensures facts { facts_in result.table ≡ no_facts }
        ensures count { result.count ≡ 0 }
    {
        Input {
            text,
            table: Table::blank(),
            count: 0,
        }
    }
}

#[derive(Drop)]
pub struct Inputs<'a> {
    pub tables: [Input<'a>; TABLES],
}

impl<'a> Inputs<'a> {
    pub fn table(&self, t: Side) -> &Table
        ensures lines { lines_in result.now ≡ get_or (lines_of self.now) t.index [] }
        ensures facts { facts_in result.now ≡ get_or (facts_of self.now) t.index [] }
    {
        &self.tables[t.index].table
    }

    pub fn text(&self, t: Side) -> &'a [u8]
        ensures { result.now ≡ get_or (texts_of self.now) t.index [] }
    {
        self.tables[t.index].text
    }

    pub fn texts(&self) -> [&'a [u8]; TABLES]
        ensures value { map (λ x. x.now) result ≡ texts_of self.now }
        ensures many { length self.now.tables ≡ tables_of_memory }
    {
        let tables = &self.tables[..];
        [tables[0].text, tables[1].text, tables[2].text]
    }

    pub fn count(&self, t: Side) -> usize
        ensures { result ≡ get_or (counts_of self.now) t.index 0 }
    {
        self.tables[t.index].count
    }
}
