// The bytes of a text, read: runs of plain bytes, decimals, ends of lines; and one of some texts.
#![tactic(auto)]

ghost use Rattle.std.specs.Prelude.{[], map, ◌≡◌, ◌<◌, ◌≤◌, length, get_or, drop};
ghost use Rattle.rules.specs.Text.{LF as line_feed, count, ended as ended_of, no_leading_zero as leads_no_zero};
ghost use Rattle.text.specs.Reads.{byte_at, plain as plain_of, plain_run, digits_of, number_at};

use rules::limits::GREATEST;

pub const TAB: u8 = 9;

pub const LF: u8 = 10;

// The byte at a place. The end of the text ends a line as an LF does.
pub fn byte_at(s: &[u8], at: usize) -> u8
    ensures { result ≡ byte_at s.now at }
{
    s.get(at).copied().unwrap_or(LF)
}

// What is left of a text from a place on: nothing, where it ends before.
pub fn left_from(s: &[u8], from: usize) -> &[u8]
    ensures { result.now ≡ drop from s.now }
{
    s.get(from..).unwrap_or_default()
}

pub fn plain(x: u8) -> bool
    ensures { result ≡ plain_of x }
{
    matches!(x, 32..=126)
}

// How many bytes from the first on are plain.
fn plain_run(s: &[u8]) -> usize
    ensures { result ≡ plain_run s.now }
{
    s.iter().take_while(|x| plain(**x)).count()
}

// The digits that a text starts with: how many, and what they write.
#[derive(Clone, Copy)]
struct Digits {
    count: usize,
    value: u32,
}

// No more are looked at once what they write is above the greatest number.
fn digits_of(s: &[u8]) -> Digits
    ensures { result ≡ digits_of s.now }
{
    let mut value = 0;
    for (count, x) in s.iter().enumerate() {
        if GREATEST < value || !x.is_ascii_digit() {
            return Digits { count, value };
        }
        value = value * 10 + u32::from(*x - b'0');
    }
    Digits {
        count: s.len(),
        value,
    }
}

// Some digits open a decimal: there are any, and 0 comes first only where it stands alone.
fn no_leading_zero(digits: &[u8]) -> bool
    ensures { result ≡ leads_no_zero digits.now }
{
    match digits {
        [] => false,
        [_] => true,
        [first, ..] => *first != b'0',
    }
}

// The plain bytes from a place on: where they end, and the number that they write, if it is one up to 65,535.
#[derive(Clone, Copy)]
pub struct Number {
    pub end: usize,
    pub value: Option<u32>,
}

// Digits that a tab ends are gone over once.
#[tactic(auto, using(crate::proofs::Decimals::numbers))]
pub fn number_at(s: &[u8], from: usize) -> Number
    ensures { result ≡ number_at s.now from }
{
    let rest = left_from(s, from);
    let digits = digits_of(rest);
    let (written, behind) = rest.split_at(digits.count);
    let end = from + digits.count;
    if plain(byte_at(behind, 0)) {
        return Number {
            end: end + plain_run(behind),
            value: None,
        };
    }
    let decimal = no_leading_zero(written) && digits.value <= GREATEST;
    Number {
        end,
        value: decimal.then_some(digits.value),
    }
}

// Whether the text is empty or its last byte is an LF.
#[tactic(auto, using(crate::proofs::Endings::endings))]
pub fn ended(s: &[u8]) -> bool
    ensures { result ≡ ended_of s.now }
{
    match s {
        [] => true,
        [.., last] => *last == LF,
    }
}

// How many lines of a short text are ended. Their number fits a byte, and is counted in one: so the compiler takes more bytes at a time.
fn few_ends(s: &[u8]) -> u8
    requires { length s.now ≤ 255 }
    ensures { result ≡ count line_feed s.now }
{
    let mut count = 0;
    for x in s {
        if *x == LF {
            count += 1;
        }
    }
    count
}

// How many lines of the text are ended, counted part by part.
pub fn ends(s: &[u8]) -> usize
    ensures { result ≡ count line_feed s.now }
{
    let mut count = 0;
    for part in s.chunks(128) {
        count += usize::from(few_ends(part));
    }
    count
}

// One of the texts.
pub fn text_of<'a>(texts: &[&'a [u8]], k: usize) -> &'a [u8]
    requires { k < length texts.now }
    ensures { result.now ≡ get_or (map (λ x. x.now) texts.now) k [] }
{
    texts[k]
}
