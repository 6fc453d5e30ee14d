// The answers of the calls, by value, in the order of document 01. specs/Calls says what each holds. Codes, tables and places are numbers
// here, 0 for none, since C reads them.

// Check: code, line, count of records, greatest depth.
#[repr(C)]
#[derive(Clone, Copy)]
pub struct Checked {
    pub code: u32,
    pub line: u32,
    pub count: usize,
    pub depth: usize,
}

// Tidy: code, line, length.
#[repr(C)]
#[derive(Clone, Copy)]
pub struct Tidied {
    pub code: u32,
    pub line: u32,
    pub length: usize,
}

// Content: where the part of the text starts that holds it, and how long it is.
#[repr(C)]
#[derive(Clone, Copy)]
pub struct Part {
    pub start: usize,
    pub length: usize,
}

// Merge: code, table, place, table length, ledger length.
#[repr(C)]
#[derive(Clone, Copy)]
pub struct Merged {
    pub code: u32,
    pub table: u32,
    pub place: u32,
    pub table_length: usize,
    pub ledger_length: usize,
}
