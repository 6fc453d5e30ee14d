// The codes, for the code, in document 01's order: the numbers that C reads. What is refused is told by kind inside (kinds).
ghost use Rattle.std.specs.Prelude.{◌≡◌};
ghost use Rattle.rules.specs.Codes.{codes as all};

pub const ACCEPTED: u32 = 0;

pub const TEXT_TOO_LONG: u32 = 1;

pub const UNENDED: u32 = 2;

pub const TOO_MANY_LINES: u32 = 3;

pub const BYTE_NOT_ALLOWED: u32 = 4;

pub const FEW_TABS: u32 = 5;

pub const BAD_NUMBER: u32 = 6;

pub const BAD_PARENT: u32 = 7;

pub const BAD_CONTENT: u32 = 8;

pub const NUMBER_TWICE: u32 = 9;

pub const PARENT_MISSING: u32 = 10;

pub const CONTENT_CLASH: u32 = 21;

pub const PARENT_CLASH: u32 = 22;

pub const NEIGHBOUR_CLASH: u32 = 23;

pub const BROKEN_LIST: u32 = 24;

pub const LOST_EDIT: u32 = 25;

pub const MERGED_TOO_LARGE: u32 = 26;

pub const TABLE_TOO_SHORT: u32 = 31;

pub const LEDGER_TOO_SHORT: u32 = 32;

pub fn codes() -> [u32; 19]
    ensures { result ≡ all }
{
    [
        ACCEPTED,
        TEXT_TOO_LONG,
        UNENDED,
        TOO_MANY_LINES,
        BYTE_NOT_ALLOWED,
        FEW_TABS,
        BAD_NUMBER,
        BAD_PARENT,
        BAD_CONTENT,
        NUMBER_TWICE,
        PARENT_MISSING,
        CONTENT_CLASH,
        PARENT_CLASH,
        NEIGHBOUR_CLASH,
        BROKEN_LIST,
        LOST_EDIT,
        MERGED_TOO_LARGE,
        TABLE_TOO_SHORT,
        LEDGER_TOO_SHORT,
    ]
}
