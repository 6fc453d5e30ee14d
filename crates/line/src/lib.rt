// One line of a table: its row, with the place of its content, or its fault. Its numbers are passed over byte by byte, its content in
// groups; at most the last group is looked at again.
#![tactic(auto)]

ghost use Rattle.std.specs.Prelude.{◌≡◌, ◌-◌, ◌≤◌, length, drop};
ghost use Rattle.rules.specs.Text.{TAB as tab, LF as line_feed, before};
ghost use Rattle.text.specs.Reads.{byte_at};
ghost use Rattle.line.specs.Told.{next_line, reached_from, line_of, moved_on};
ghost use Rattle.line.specs.Parts.{short_fault, fields_from, good_after, good_from, fields_at, content_fits, parts_of};

use rules::kinds::Fault;
use rules::limits::CONTENT;
use rules::record::Record;
use text::{LF, TAB, byte_at, left_from, number_at, plain};

// A line without a fault: its number and parent, and its content's start and length in the line.
#[derive(Clone, Copy)]
pub struct Line {
    pub number: Record,
    pub parent: Record,
    pub start: usize,
    pub length: usize,
}

// A line, and the place reached by reading it: behind its LF.
#[derive(Clone, Copy)]
pub struct Reached {
    pub line: Line,
    pub at: usize,
}

// Where the fields of a content end, and whether none of them is empty. No Option: they end somewhere also where one is empty.
#[derive(Clone, Copy)]
struct Fields {
    end: usize,
    filled: bool,
}

// The parts of a line: the numbers that its first two parts write, where its content starts and ends, and whether all fields of its
// content are filled.
#[derive(Clone, Copy)]
struct Parts {
    number: Option<u32>,
    parent: Option<u32>,
    start: usize,
    end: usize,
    filled: bool,
}

// The fault of a line that the byte x ends before its second tab.
fn short_fault(x: u8) -> Fault
    ensures { result ≡ short_fault x }
{
    if x == LF {
        Fault::FewTabs
    } else {
        Fault::ByteNotAllowed
    }
}

// Whether a byte may stand behind another in fields that are filled: it is plain, or a tab behind no tab.
fn good_after(last: u8, x: u8) -> bool
    ensures { result ≡ good_after last x }
{
    ((x == TAB) & (last != TAB)) | plain(x)
}

// Whether there are N bytes from a place on, each good after the one before it. All are looked at, so that the compiler takes them
// together.
#[tactic(auto, using(crate::proofs::GoodBytes::groups))]
fn good_group<const N: usize>(s: &[u8], i: usize) -> bool
    requires { (1 ≤ i) × (i ≤ length s.now) }
    ensures { result ≡ good_from N s.now i }
{
    if s.len() - i < N {
        return false;
    }
    let mut good = true;
    for k in 0..N {
        good &= good_after(s[i + k - 1], s[i + k]);
    }
    good
}

// A place up to which the bytes from a place on are good, by groups of N. It is counted by hand, since each group looks back at the byte
// before it.
#[tactic(auto, using(crate::proofs::GoodBytes::passing))]
fn pass_good<const N: usize>(s: &[u8], from: usize) -> usize
    requires group { 1 ≤ N }
    requires place { (1 ≤ from) × (from ≤ length s.now) }
    ensures reached { (1 ≤ result) × (result ≤ length s.now) }
    ensures same { fields_at s.now result ≡ fields_at s.now from }
{
    let mut i = from;
    while good_group::<N>(s, i) {
        i += N;
    }
    i
}

// The fields from a place behind a tab on. Most bytes stand in good groups; from the first group that is not, they are gone over one by
// one.
#[tactic(auto, using(crate::proofs::Scanning::scans))]
fn read_fields(s: &[u8], start: usize) -> Fields
    requires { (1 ≤ start) × (byte_at s.now (start - 1) ≡ tab) }
    ensures { result ≡ fields_from s.now start }
{
    let from = pass_good::<8>(s, pass_good::<16>(s, start));
    let mut last = s[from - 1];
    let mut filled = true;
    let rest = &s[from..];
    for (count, x) in rest.iter().enumerate() {
        if *x == TAB {
            filled &= last != TAB;
        } else if !plain(*x) {
            return Fields {
                end: from + count,
                filled: filled && last != TAB,
            };
        }
        last = *x;
    }
    Fields {
        end: from + rest.len(),
        filled: filled && last != TAB,
    }
}

// The parts of the line that the rest of a text starts with. A byte that a line may not hold ends the part it stands in, so that no pass
// of its own looks for one; the byte that ended a part is read again.
#[tactic(auto, using(crate::proofs::Cutting::cuts))]
fn cut(rest: &[u8]) -> Result<Parts, Fault>
    ensures { result ≡ parts_of (before line_feed rest.now) }
{
    let number = number_at(rest, 0);
    let x = byte_at(rest, number.end);
    if x != TAB {
        return Err(short_fault(x));
    }
    let parent = number_at(rest, number.end + 1);
    let y = byte_at(rest, parent.end);
    if y != TAB {
        return Err(short_fault(y));
    }
    let start = parent.end + 1;
    let content = read_fields(rest, start);
    if byte_at(rest, content.end) != LF {
        return Err(Fault::ByteNotAllowed);
    }
    Ok(Parts {
        number: number.value,
        parent: parent.value,
        start,
        end: content.end,
        filled: content.filled,
    })
}

// The rule of a content, by its length and whether all its fields are filled.
fn content_fits(length: usize, filled: bool) -> bool
    ensures { result ≡ content_fits length filled }
{
    filled && (1..=CONTENT).contains(&length)
}

// The line that the rest of a text starts with, and the place behind it in that rest.
#[tactic(auto, using(crate::proofs::Judging::judges))]
pub fn read_line(rest: &[u8]) -> Result<Reached, Fault>
    ensures { result ≡ next_line rest.now }
{
    let parts = cut(rest)?;
    let number = Record::from(parts.number.ok_or(Fault::BadNumber)?);
    if !number.is_record() {
        return Err(Fault::BadNumber);
    }
    let parent = Record::from(parts.parent.ok_or(Fault::BadParent)?);
    let length = parts.end.saturating_sub(parts.start);
    if !content_fits(length, parts.filled) {
        return Err(Fault::BadContent);
    }
    let line = Line {
        number,
        parent,
        start: parts.start,
        length,
    };
    Ok(Reached {
        line,
        at: parts.end + 1,
    })
}

// The line at a place of the text, and the place behind it in the text: what is left from there goes on as a part.
#[tactic(auto, using(crate::proofs::Judging::reaches))]
pub fn read_at(text: &[u8], at: usize) -> Result<Reached, Fault>
    ensures { result ≡ reached_from text.now at }
{
    let reached = read_line(left_from(text, at))?;
    Ok(Reached {
        line: reached.line,
        at: at + reached.at,
    })
}

// A text and the place reached in it.
#[derive(Drop)]
pub struct LineReader<'a> {
    pub text: &'a [u8],
    pub at: usize,
}

impl<'a> LineReader<'a> {
    pub fn new(text: &'a [u8], at: usize) -> LineReader<'a>
        ensures { (result.text ≡ text.entry) × (result.at ≡ at) }
    {
        LineReader { text, at }
    }

    // The line at the place reached; the place moves behind it. A faulty line is not passed.
    pub fn next(&mut self) -> Result<Line, Fault>
        ensures { (result ≡ line_of self.old) × (self.new ≡ moved_on self.old) }
    {
        let reached = read_at(self.text, self.at)?;
        self.at = reached.at;
        Ok(reached.line)
    }
}

// The same with plain parameters; docs/PROOFS.md names both contracts.
pub fn line_at(text: &[u8], at: usize) -> Result<Reached, Fault>
    ensures { result ≡ reached_from text.now at }
{
    let mut reader = LineReader::new(text, at);
    let line = reader.next()?;
    Ok(Reached {
        line,
        at: reader.at,
    })
}
