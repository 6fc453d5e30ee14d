// The public calls as exports to C: libbrooksaddle.a. Each is the call of its name in `brooksaddle`, and promises what that one does.
#![tactic(auto)]

ghost use Rattle.std.specs.Prelude.{◌≡◌};
ghost use Rattle.rules.specs.Calls.{content_answer};
ghost use Rattle.rules.specs.Promises.{Checks, Tidies, Merges};

use brooksaddle::{check, content_part, merge, tidy};
use rules::answers::{Checked, Merged, Part, Tidied};

#[unsafe(no_mangle)]
pub extern "C" fn brooksaddle_check(text: &[u8]) -> Checked
    ensures { Checks text.now result }
{
    check(text)
}

#[unsafe(no_mangle)]
pub extern "C" fn brooksaddle_tidy(text: &[u8], buffer: &mut [u8]) -> Tidied
    ensures { Tidies text.now buffer.old result buffer.new }
{
    tidy(text, buffer)
}

#[unsafe(no_mangle)]
pub extern "C" fn brooksaddle_merge<'a>(
    old: &'a [u8],
    first: &'a [u8],
    second: &'a [u8],
    table: &mut [u8],
    ledger: &mut [u8],
) -> Merged
    ensures { Merges old.now first.now second.now table.old ledger.old
        result table.new ledger.new }
{
    merge(old, first, second, table, ledger)
}

// An export cannot hand back a reference, so this one tells where the part lies.
#[unsafe(no_mangle)]
pub extern "C" fn brooksaddle_content(text: &[u8], number: u32) -> Part
    ensures { result ≡ content_answer text.now number }
{
    content_part(text, number)
}
