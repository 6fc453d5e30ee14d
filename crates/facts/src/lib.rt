// One table in memory: `lines` gives a number its line, and a line has eight facts. Line 0 is the top's, so the top is read like a record.
// Each question takes a fixed number of loads, and one line more a fixed number of loads and stores. n is a record, r a parent, p the one
// before, s the one after, l a line.
#![tactic(auto)]

pub mod inputs;

ghost use Rattle.std.specs.Prelude.{◌≡◌, [], ◌∷◌, ◌+◌, ◌*◌, ◌<◌, length};
ghost use Rattle.facts.specs.Memory.{NUMBERS as numbers_of_memory, ROOM as room_of_memory, WIDTH};
ghost use Rattle.facts.specs.Memory.{TABLES as tables_of_memory, SPAN as span_of_memory, TEXTS as texts_of_memory};
ghost use Rattle.facts.specs.Memory.{LAST, line_at, field, who, way, laid, put_field, add_line, add_facts, opened, no_lines, no_facts};
ghost use Rattle.facts.specs.Asked.{has_in, list_in, child_in, asked};
ghost use Rattle.facts.specs.Table.{lines_in, facts_in, FactsAt};

use rules::record::Record;

// ---- the shape

// a line is kept for each of so many numbers
pub const NUMBERS: usize = 65536;

// there is room for so many lines
pub const ROOM: usize = 1025;

// so many tables lie side by side: old, first and second
pub const TABLES: usize = 3;

// so many places of a text are told apart, and so many texts
pub const SPAN: u32 = 65536;

pub const TEXTS: u32 = 16;

// These two tie the constants to the definitions of the same names.
pub fn shape() -> [usize; 3]
    ensures { result ≡ numbers_of_memory ∷ room_of_memory ∷ tables_of_memory ∷ [] }
{
    [NUMBERS, ROOM, TABLES]
}

pub fn spans() -> [u32; 2]
    ensures { result ≡ span_of_memory ∷ texts_of_memory ∷ [] }
{
    [SPAN, TEXTS]
}

// What a line tells of its record: where it stands, where its list begins and ends, and where its content lies and how long it is. A place
// is one number, in which the definitions put origin, text and start together (origin_of, text_of, start_of).
#[derive(Clone, Copy)]
pub struct Facts {
    pub number: Record,
    pub parent: Record,
    pub forerunner: Record,
    pub follower: Record,
    pub first: Record,
    pub last: Record,
    pub place: u32,
    pub length: u32,
}

impl Facts {
    const ZEROS: Facts = Facts {
        number: Record::TOP,
        parent: Record::TOP,
        forerunner: Record::NOBODY,
        follower: Record::NOBODY,
        first: Record::NOBODY,
        last: Record::NOBODY,
        place: 0,
        length: 0,
    };
}

#[derive(Drop)]
pub struct Table {
    // No map and no tree of boxes: memory is fixed.
    pub lines: [u16; NUMBERS],
    pub facts: [Facts; ROOM],
}

// ---- what is read

impl Table {
    // All zeros: no record, and not open yet.
    pub fn blank() -> Table
        ensures lines { lines_in result ≡ no_lines }
        ensures facts { facts_in result ≡ no_facts }
    {
        Table {
            lines: [0; NUMBERS],
            facts: [Facts::ZEROS; ROOM],
        }
    }

    // The line of a number; 0 for the top, and for a number that is absent. No Option: what is asked of an absent number is asked of the
    // top (line_at).
    pub fn line_of(&self, n: Record) -> usize
        ensures value { result ≡ line_at (lines_in self.now) n.number }
        ensures upper_bound { result < room_of_memory }
    {
        let i = n.number as usize;
        if i < NUMBERS {
            let l = self.lines[i] as usize;
            if l < ROOM {
                return l;
            }
        }
        0
    }

    // the facts of a line
    pub fn facts_on(&self, l: usize) -> &Facts
        requires { l < room_of_memory }
        ensures { FactsAt (facts_in self.now) l result.now }
    {
        &self.facts[l]
    }

    // the facts of a record's line
    pub fn facts_of(&self, n: Record) -> &Facts
        ensures { FactsAt (facts_in self.now) (line_at (lines_in self.now) n.number) result.now }
    {
        self.facts_on(self.line_of(n))
    }

    // ---- the questions

    // whether the record is there
    pub fn has(&self, n: Record) -> bool
        ensures { result ≡ has_in (lines_in self.now) n.number }
    {
        0 < self.line_of(n)
    }

    // a record has a list, and so has the top
    pub fn list(&self, r: Record) -> bool
        ensures { result ≡ list_in (lines_in self.now) r.number }
    {
        r.is_top() || self.has(r)
    }

    // whether `n` is a child of `r`
    pub fn child(&self, r: Record, n: Record) -> bool
        ensures { result ≡ child_in (lines_in self.now) (facts_in self.now) r.number n.number }
    {
        self.has(n) && self.parent(n) == r
    }

    pub fn parent(&self, n: Record) -> Record
        ensures { result.number ≡ (asked (lines_in self.now) (facts_in self.now)).up n.number }
    {
        self.facts_of(n).parent
    }

    // Who follows `p` under `r`; nobody, if none does. The next question is its mirror: it differs in each mark and fact that it names, so
    // one function for both would be given all of them.
    pub fn follower(&self, r: Record, p: Record) -> Record
        ensures { result.number ≡ (asked (lines_in self.now) (facts_in self.now)).after r.number p.number }
    {
        if p.is_start() {
            if self.list(r) {
                return self.facts_of(r).first;
            }
            return Record::NOBODY;
        }
        if self.child(r, p) {
            return self.facts_of(p).follower;
        }
        Record::NOBODY
    }

    // who stands before `s` under `r`; nobody, if none does
    pub fn forerunner(&self, r: Record, s: Record) -> Record
        ensures { result.number ≡ (asked (lines_in self.now) (facts_in self.now)).before r.number s.number }
    {
        if s.is_end() {
            if self.list(r) {
                return self.facts_of(r).last;
            }
            return Record::NOBODY;
        }
        if self.child(r, s) {
            return self.facts_of(s).forerunner;
        }
        Record::NOBODY
    }

    // ---- one line more

    // The empty table: the top has no child. It is blank before.
    pub fn open(&mut self)
        ensures lines_same { lines_in self.new ≡ lines_in self.old }
        ensures facts_after { facts_in self.new ≡ opened (facts_in self.old) }
    {
        self.facts[0].first = Record::END;
        self.facts[0].last = Record::START;
    }

    // the facts of a new line: nothing follows it, and it has no child
    fn lay(&mut self, l: usize, n: Record, r: Record, p: Record, start: u32, long: u32)
        requires { l < room_of_memory }
        ensures lines_same { lines_in self.new ≡ lines_in self.old }
        ensures facts_after { facts_in self.new ≡ laid (facts_in self.old) l n.number r.number p.number start long }
        ensures all_facts { length (facts_in self.old) ≡ room_of_memory * WIDTH }
    {
        self.facts[l] = Facts {
            number: n,
            parent: r,
            forerunner: p,
            follower: Record::END,
            first: Record::END,
            last: Record::START,
            place: start,
            length: long,
        };
    }

    // `n` follows `p` under `r`: START's follower is told with the parent, a record's with the record
    fn follow(&mut self, n: Record, r: Record, p: Record)
        ensures lines_same { lines_in self.new ≡ lines_in self.old }
        ensures facts_after { facts_in self.new ≡ put_field (lines_in self.old) (facts_in self.old)
            (who r.number p.number) (way p.number) n.number }
    {
        if p.is_start() {
            let l = self.line_of(r);
            self.facts[l].first = n;
        } else {
            let l = self.line_of(p);
            self.facts[l].follower = n;
        }
    }

    // `n` is the last child of `r`
    fn end_with(&mut self, n: Record, r: Record)
        ensures lines_same { lines_in self.new ≡ lines_in self.old }
        ensures facts_after { facts_in self.new ≡ put_field (lines_in self.old) (facts_in self.old) r.number LAST n.number }
    {
        let l = self.line_of(r);
        self.facts[l].last = n;
    }

    // Record `n` on line `l`: the last child of `r` now, its content of `long` bytes at `start` in its text.
    pub fn add_line(&mut self, l: usize, n: Record, r: Record, start: u32, long: u32)
        requires { (l < room_of_memory) × (n.number < numbers_of_memory) }
        ensures lines_after { lines_in self.new ≡ add_line (lines_in self.old) l n.number }
        ensures facts_after { facts_in self.new ≡ add_facts (add_line (lines_in self.old) l n.number) (facts_in self.old)
            l n.number r.number (field (lines_in self.old) (facts_in self.old) r.number LAST) start long }
        ensures all_lines { length (lines_in self.old) ≡ numbers_of_memory }
        ensures all_facts { length (facts_in self.old) ≡ room_of_memory * WIDTH }
    {
        let p = self.facts_of(r).last;
        self.lines[n.number as usize] = l as u16;
        self.lay(l, n, r, p, start, long);
        self.follow(n, r, p);
        self.end_with(n, r);
    }
}
