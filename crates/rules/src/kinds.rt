// Why a call is refused, by kind, and the code that the answer has for it.
ghost use Rattle.std.specs.Prelude.{◌≡◌};
ghost use Rattle.rules.specs.Kinds.{fault_code, clash_code, shortage_code};

use crate::codes::{
    BAD_CONTENT, BAD_NUMBER, BAD_PARENT, BROKEN_LIST, BYTE_NOT_ALLOWED, CONTENT_CLASH, FEW_TABS,
    LEDGER_TOO_SHORT, LOST_EDIT, MERGED_TOO_LARGE, NEIGHBOUR_CLASH, NUMBER_TWICE, PARENT_CLASH,
    PARENT_MISSING, TABLE_TOO_SHORT, TEXT_TOO_LONG, TOO_MANY_LINES, UNENDED,
};

// What makes a text no table: 1 to 10.
#[derive(Clone, Copy, PartialEq, Eq)]
pub enum Fault {
    TextTooLong,
    Unended,
    TooManyLines,
    ByteNotAllowed,
    FewTabs,
    BadNumber,
    BadParent,
    BadContent,
    NumberTwice,
    ParentMissing,
}

// What keeps the edits of the branches from standing in one tree: 21 to 25.
#[derive(Clone, Copy, PartialEq, Eq)]
pub enum Clash {
    Content,
    Parent,
    Neighbour,
    BrokenList,
    LostEdit,
}

// What a merged table lacks room for: 26, 31 and 32.
#[derive(Clone, Copy, PartialEq, Eq)]
pub enum Shortage {
    Limits,
    Table,
    Ledger,
}

impl From<Fault> for u32 {
    ghost from_gives = { λ fault code. code ≡ fault_code fault };

    fn from(fault: Fault) -> u32 {
        match fault {
            Fault::TextTooLong => TEXT_TOO_LONG,
            Fault::Unended => UNENDED,
            Fault::TooManyLines => TOO_MANY_LINES,
            Fault::ByteNotAllowed => BYTE_NOT_ALLOWED,
            Fault::FewTabs => FEW_TABS,
            Fault::BadNumber => BAD_NUMBER,
            Fault::BadParent => BAD_PARENT,
            Fault::BadContent => BAD_CONTENT,
            Fault::NumberTwice => NUMBER_TWICE,
            Fault::ParentMissing => PARENT_MISSING,
        }
    }
}

impl From<Clash> for u32 {
    ghost from_gives = { λ clash code. code ≡ clash_code clash };

    fn from(clash: Clash) -> u32 {
        match clash {
            Clash::Content => CONTENT_CLASH,
            Clash::Parent => PARENT_CLASH,
            Clash::Neighbour => NEIGHBOUR_CLASH,
            Clash::BrokenList => BROKEN_LIST,
            Clash::LostEdit => LOST_EDIT,
        }
    }
}

impl From<Shortage> for u32 {
    ghost from_gives = { λ shortage code. code ≡ shortage_code shortage };

    fn from(shortage: Shortage) -> u32 {
        match shortage {
            Shortage::Limits => MERGED_TOO_LARGE,
            Shortage::Table => TABLE_TOO_SHORT,
            Shortage::Ledger => LEDGER_TOO_SHORT,
        }
    }
}
