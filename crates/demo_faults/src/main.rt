// The demonstration over files that are missing, can't be read, or hold no table. They lie in data/; what is printed is stored beside it.
#![tactic(auto)]

use demonstration::demonstrate;
use std::io;

fn main(rt: HostRuntime) -> io::Result<()> {
    // The file that can't be opened is told, and nothing else.
    demonstrate(&rt, b"table.txt", b"missing.txt", b"table.txt")?;
    // It is told before any table is judged,
    demonstrate(&rt, b"damaged.txt", b"table.txt", b"missing.txt")?;
    // and the first of two is. A folder opens, and can't be read.
    demonstrate(&rt, b"folder", b"missing.txt", b"table.txt")?;
    demonstrate(&rt, b"table.txt", b"table.txt", b"folder")?;
    // On refusal the line stands alone.
    demonstrate(&rt, b"damaged.txt", b"table.txt", b"table.txt")?;
    // Of a file of 40,000 bytes no more is read than shows that it is too long.
    demonstrate(&rt, b"long.txt", b"table.txt", b"table.txt")?;
    demonstrate(&rt, b"table.txt", b"table.txt", b"long.txt")?;
    demonstrate(&rt, b"empty.txt", b"empty.txt", b"empty.txt")
}
