// Document 01's demonstration: three files are read, their tables merged, and the answer printed. No contract can say what the system
// reads or writes; so what is printed of three texts is put into one buffer first, by `show`, whose contract says every byte of it.
#![tactic(auto)]

ghost use Rattle.std.specs.Prelude.{◌≡◌, [], ◌∷◌, ◌++◌, map, ◌+◌, ◌<◌, ◌≤◌, true, false, length, get_or, set, IfOk, IfErr};
ghost use Rattle.bytes_out.specs.Put.{Put};
ghost use Rattle.rules.specs.Calls.{five_numbers};
ghost use Rattle.demonstration.specs.Printed.{table_room, ledger_room, printed_room, numbers_length, Shows};
ghost use Rattle.demonstration.specs.Files.{files as file_count, most_read, buffers, lengths, which_read, count_read, printed_of};
ghost use Rattle.demonstration.specs.Files.{Filled, ReadTo, WereRead};

mod file;

use brooksaddle::merge;
use bytes_out::{copy, write_field};
use file::File;
use ledger::write_end;
use rules::answers::Merged;
use rules::codes::ACCEPTED;
use std::io;
use std::rt::Files;
use text::text_of;

// So many files are read: old, first and second.
const FILES: usize = 3;

// So much of a file is read: one byte more than a table may have, so that a longer one is told as such.
const MOST_READ: usize = 32769;

const TABLE_ROOM: usize = 32768;

const LEDGER_ROOM: usize = 8192;

// The line of five numbers, each of at most six digits and a byte behind it, the table and the ledger.
const PRINTED_ROOM: usize = 40995;

// Ties the constants to the definitions.
pub fn sizes() -> [usize; 5]
    ensures { result ≡ file_count ∷ most_read ∷ table_room ∷ ledger_room ∷ printed_room ∷ [] }
{
    [FILES, MOST_READ, TABLE_ROOM, LEDGER_ROOM, PRINTED_ROOM]
}

// ---- what is printed

// The line of the five numbers, by `write_field` and not by a format: `Put` and the theorem `numbers-put` are over what that puts.
fn write_numbers(answer: Merged, out: &mut [u8]) -> usize
    requires table_length_bound { (answer.table_length < 4294967296) × (answer.ledger_length < 4294967296) }
    requires answer_in_bounds { numbers_length answer ≤ length out.old }
    ensures { Put out.old out.new 0 result (five_numbers answer) }
{
    let code = write_field(answer.code, out, 0);
    let table = write_field(answer.table, out, code);
    let place = write_field(answer.place, out, table);
    write_end(
        answer.table_length as u32,
        answer.ledger_length as u32,
        out,
        place,
    )
}

// The line, the table and the ledger.
#[tactic(auto, using(crate::proofs::Lengths::lengths))]
fn write_done(answer: Merged, table: &[u8], ledger: &[u8], out: &mut [u8]) -> usize
    requires table_length_bound { (answer.table_length < 4294967296) × (answer.ledger_length < 4294967296) }
    requires ledger_in_bounds { numbers_length answer + (length table.now + length ledger.now) ≤ length out.old }
    ensures { Put out.old out.new 0 result (five_numbers answer ++ (table.now ++ ledger.now)) }
{
    let numbers = write_numbers(answer, out);
    let tabled = copy(table, out, numbers);
    copy(ledger, out, tabled)
}

// What is printed of three texts, from byte 0 of a buffer on: the line, and on acceptance the table and the ledger. A length is answered,
// and not the part, since `Shows` is of both.
fn show(old: &[u8], first: &[u8], second: &[u8], out: &mut [u8]) -> usize
    requires printed_room_in_bounds { printed_room ≤ length out.old }
    ensures { Shows old.now first.now second.now result out.new }
{
    let mut table = [0u8; TABLE_ROOM];
    let mut ledger = [0u8; LEDGER_ROOM];
    let answer = merge(old, first, second, &mut table, &mut ledger);
    if answer.code != ACCEPTED {
        return write_numbers(answer, out);
    }
    write_done(
        answer,
        &table[..answer.table_length],
        &ledger[..answer.ledger_length],
        out,
    )
}

// Hands over what is printed of three texts, and nothing else: the part must be just that.
fn hand_over<R: Print>(rt: &R, files: &[File; FILES], part: &[u8]) -> io::Result<()>
    requires { part.now ≡ printed_of (buffers files.now) (lengths files.now) }
{
    rt.write_all(part)
}

// Merges the three files, each of which must have been read.
fn print_merged<R: Print>(rt: &R, files: &[File; FILES]) -> io::Result<()>
    requires { WereRead (which_read files.now) file_count }
{
    let old = files[0].text();
    let first = files[1].text();
    let second = files[2].text();
    let mut out = [0u8; PRINTED_ROOM];
    let n = show(old, first, second, &mut out);
    hand_over(rt, files, &out[..n])
}

// Tells the file that can't be read: the name must be its own.
fn print_unread<R: Print>(rt: &R, names: &[&[u8]], t: usize, name: &[u8]) -> io::Result<()>
    requires { name.now ≡ get_or (map (λ x. x.now) names.now) t [] }
{
    rt.write_all(b"file\t")?;
    rt.write_all(name)?;
    rt.write_all(b"\n")
}

// ---- what is read

// Reads file number `t`, whose name it must be, into its own buffer; the others stay, also where it can't be read. The name is handed in
// beside its number so that the clause can ask which it is, as in `print_unread`.
fn read_named<R: Files>(
    rt: &R,
    names: &[&[u8]],
    t: usize,
    name: &[u8],
    files: &mut [File; FILES],
) -> io::Result<()>
    requires { (t < file_count) × (name.now ≡ get_or (map (λ x. x.now) names.now) t []) }
    ensures filled { Filled (buffers files.old) t (get_or (lengths files.new) t 0) (buffers files.new) }
    ensures counted { lengths files.new ≡ set (lengths files.old) t (get_or (lengths files.new) t 0) }
    ensures others { which_read files.new ≡ set (which_read files.old) t (get_or (which_read files.new) t false) }
    ensures read { IfOk result (λ _. get_or (which_read files.new) t false ≡ true) }
{
    files[t].read(rt, name)
}

// Reads the files in order, and stops at the first that can't be read, whose number is the error.
#[tactic(auto, using(crate::proofs::Filling::fillings))]
fn read_files<R: Files>(rt: &R, names: &[&[u8]], files: &mut [File; FILES]) -> Result<(), usize>
    requires { length names.now ≡ file_count }
    ensures read_to { ReadTo (buffers files.new) (lengths files.new) (count_read result) }
    ensures were_read { WereRead (which_read files.new) (count_read result) }
    ensures upper_bound { IfErr result (λ t. t < file_count) }
{
    for t in 0..FILES {
        let name = text_of(names, t);
        if read_named(rt, names, t, name, files).is_err() {
            return Err(t);
        }
    }
    Ok(())
}

// ---- the demonstration

// Over three files of these names. All are read before a table is judged; the first that can't be is all that is told.
pub fn demonstrate<'a, R: Files + Print>(
    rt: &R,
    old: &'a [u8],
    first: &'a [u8],
    second: &'a [u8],
) -> io::Result<()> {
    let names = [old, first, second];
    let mut files = [File::unread(), File::unread(), File::unread()];
    if let Err(unread) = read_files(rt, &names[..], &mut files) {
        let name = text_of(&names[..], unread);
        return print_unread(rt, &names[..], unread, name);
    }
    print_merged(rt, &files)
}
