// A record's number, and the marks that are none: the top, START and END are constants of its own type.
ghost use Rattle.std.specs.Prelude.{◌≡◌, eqb};
ghost use Rattle.rules.specs.Marks.{TOP, START, END, is_record};

use crate::limits::GREATEST;

// 32 bits, since the marks stand beside 65,535 numbers.
#[derive(Clone, Copy, PartialEq, Eq, PartialOrd, Ord)]
pub struct Record {
    pub number: u32,
}

impl Record {
    pub const TOP: Record = Record { number: 0 };

    pub const START: Record = Record { number: 65536 };

    pub const END: Record = Record { number: 65537 };

    // Nobody stands there. The top is nobody's neighbour, so its number is free to say that. No Option: neighbours are compared with one
    // another, nobody and END among them, and Asked and the theorems exact and shown answer 0 there.
    pub const NOBODY: Record = Record::TOP;

    pub fn is_record(self) -> bool
        ensures { result ≡ is_record self.number }
    {
        (1..=GREATEST).contains(&self.number)
    }

    pub fn is_top(self) -> bool
        ensures { result ≡ eqb self.number TOP }
    {
        self == Record::TOP
    }

    pub fn is_start(self) -> bool
        ensures { result ≡ eqb self.number START }
    {
        self == Record::START
    }

    pub fn is_end(self) -> bool
        ensures { result ≡ eqb self.number END }
    {
        self == Record::END
    }

    pub fn is_nobody(self) -> bool
        ensures { result ≡ eqb self.number 0 }
    {
        self == Record::NOBODY
    }
}

impl From<u32> for Record {
    ghost from_gives = { λ number made. made.number ≡ number };

    fn from(number: u32) -> Record {
        Record { number }
    }
}
