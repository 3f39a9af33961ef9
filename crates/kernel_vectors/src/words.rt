// What the words of a case are beside one float: halves of a number, all floats at once, numbers in a range.
ghost use Rattle.std.specs.Prelude.{◌≡◌, [], ◌∷◌, ◌+◌, ◌*◌, ◌%◌, ◌/◌, ◌≤◌, ◌<◌, min};

use dsl::Adsr;
use vectors::{Operands, low, single};

// The number of which the file has the low half first.
pub fn whole(l: u64, h: u64) -> u64
    ensures { result ≡ l % 4294967296 + 4294967296 * (h % 4294967296) }
{
    u64::from(low(l)) | u64::from(low(h)) << 32
}

// The low half of a number, and the high one.
pub fn halves(word: u64) -> [u64; 2]
    ensures { result ≡ word % 4294967296 ∷ word / 4294967296 ∷ [] }
{
    [u64::from(low(word)), word >> 32]
}

// All words as floats.
pub(crate) fn singles(x: Operands) -> [f32; 20] {
    x.map(|word| single(word))
}

// The file's number of a choice, of which `From<u8>` makes the enum.
pub fn choice(x: u64) -> u8
    ensures { result ≡ min x 255 }
{
    u8::try_from(x).unwrap_or(u8::MAX)
}

// A length, which is never 0.
pub fn length(x: u64) -> u64
    ensures { 0 < result }
{
    x.max(1)
}

// The number if it is below n, and else 0.
pub fn below(x: u64, n: u64) -> u64
    requires { 0 < n }
    ensures { result < n }
{
    if x < n { x } else { 0 }
}

// The envelope of the first five words.
pub(crate) fn adsr(x: Operands) -> Adsr {
    let [a, d, s, r, punch, ..] = singles(x);
    Adsr { a, d, s, r, punch }
}
