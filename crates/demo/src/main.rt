// Document 01's demonstration over the files of its working folder. Its example is stored beside it: the files in data/, and what is
// printed.
#![tactic(auto)]

use demonstration::demonstrate;
use std::io;

fn main(rt: HostRuntime) -> io::Result<()> {
    demonstrate(&rt, b"old.txt", b"first.txt", b"second.txt")
}
