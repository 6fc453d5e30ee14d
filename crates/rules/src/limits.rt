// The limits, for the code.
ghost use Rattle.std.specs.Prelude.{◌≡◌, [], ◌∷◌};
ghost use Rattle.rules.specs.Limits.{LINES as lines, BYTES as bytes, CONTENT as content, GREATEST as greatest};

pub const LINES: usize = 512;

pub const BYTES: usize = 32768;

pub const CONTENT: usize = 120;

pub const GREATEST: u32 = 65535;

pub fn limits() -> [usize; 4]
    ensures { result ≡ lines ∷ bytes ∷ content ∷ greatest ∷ [] }
{
    [LINES, BYTES, CONTENT, GREATEST as usize]
}
