// A file as far as it was read.
#![tactic(auto)]

ghost use Rattle.std.specs.Prelude.{◌≡◌, true, OnErr, IfOk, take, Option, None};
ghost use Rattle.std.specs.Option.{is_some};
ghost use Rattle.std.specs.Counts.{IsPrefixLen};
ghost use Rattle.demonstration.specs.Counted.{bytes_read};

use crate::MOST_READ;
use bytes_in::read_full;
use std::io::ErrorKind;
use std::rt::Files;
use std::{fs, io, str};

// The buffer of a file, and how many bytes were read into it: None, unless the file was read.
#[derive(Drop)]
pub struct File {
    bytes: [u8; MOST_READ],
    length: Option<usize>,
    pub ghost counted: { IsPrefixLen (bytes_read length) bytes },
}

impl File {
    pub fn unread() -> File
        ensures { result.length ≡ None }
    {
        File {
            bytes: [0u8; MOST_READ],
            length: None,
        }
    }

    // The text of the file: so many bytes of its buffer as were read.
    pub fn text(&self) -> &[u8]
        ensures { result.now ≡ take (bytes_read self.now.length) self.now.bytes }
    {
        &self.bytes[..self.length.unwrap_or(0)]
    }

    // Reads the file of a name into the buffer; none of its bytes count where it can't be read. A folder can be opened, and not be read.
    pub fn read<R: Files>(&mut self, rt: &R, name: &[u8]) -> io::Result<()>
        ensures read { IfOk result (λ _. is_some self.new.length ≡ true) }
        ensures unread { OnErr result (self.new.length ≡ None) }
    {
        self.length = None;
        let mut file = open_read(rt, name)?;
        self.length = Some(read_full(&mut file, &mut self.bytes)?);
        Ok(())
    }
}

// The file of a name; std opens none whose name is not UTF-8.
fn open_read<R: Files>(rt: &R, name: &[u8]) -> io::Result<R::File> {
    let path = str::from_utf8(name).map_err(|_| io::Error::from(ErrorKind::InvalidInput))?;
    fs::open(rt, path)
}
