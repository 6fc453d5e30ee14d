// The depth of records, by climbing: a record's depth is one more than its parent's, and its parent stands on an earlier line.
#![tactic(auto)]

ghost use Rattle.std.specs.Prelude.{◌≡◌, ◌≤◌};
ghost use Rattle.facts.specs.Table.{lines_in, facts_in};
ghost use Rattle.depth.specs.Climbing.{up_line, depth_on, greatest_on, Climbs, Noted};

use facts::{ROOM, Table};

fn up_line(table: &Table, l: usize) -> usize
    requires { Climbs (lines_in table.now) (facts_in table.now) l }
    ensures { result ≡ up_line (lines_in table.now) (facts_in table.now) l }
{
    table.line_of(table.facts_on(l).parent)
}

// The depth of the record on a line. Depths are noted on the way, so that no line is climbed twice. 0 is none: notes that are options take
// twice the stack, and a chain takes 8 percent longer.
#[tactic(auto, using(crate::proofs::Climbs::climbing))]
fn depth(table: &Table, noted: &mut [u16; ROOM], l: usize) -> usize
    requires { Climbs (lines_in table.now) (facts_in table.now) l × Noted (lines_in table.now) (facts_in table.now) noted.old }
    ensures value { result ≡ depth_on (lines_in table.now) (facts_in table.now) l }
    ensures upper_bound { result ≤ l }
    ensures noted { Noted (lines_in table.now) (facts_in table.now) noted.new }
{
    if l == 0 {
        return 0;
    }
    let known = usize::from(noted[l]);
    if 0 < known {
        return known;
    }
    let d = depth(table, noted, up_line(table, l)) + 1;
    noted[l] = d as u16;
    d
}

// The greatest depth of the first lines.
pub fn deepest(table: &Table, count: usize) -> usize
    requires { Climbs (lines_in table.now) (facts_in table.now) count }
    ensures { result ≡ greatest_on (lines_in table.now) (facts_in table.now) count }
{
    let mut noted = [0; ROOM];
    let mut best: usize = 0;
    for l in 1..=count {
        let d = depth(table, &mut noted, l);
        best = best.max(d);
    }
    best
}
