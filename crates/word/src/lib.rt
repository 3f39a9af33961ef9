#![tactic(auto)]

ghost use Rattle.std.specs.Prelude.{◌≡◌, ◌*◌, ◌/◌, ◌%◌, ◌^◌, bit_xor};

pub fn wrapping_mul(a: u64, b: u64) -> u64
    ensures { result ≡ (a * b) % 2 ^ 64 }
{
    a.wrapping_mul(b)
}

// a ^ b, bit by bit.
pub fn xor(a: u64, b: u64) -> u64
    ensures { result ≡ bit_xor a b }
{
    a ^ b
}

// a without its k lowest bits, moved down: 0 from k = 64 on.
pub fn shr(a: u64, k: u64) -> u64
    ensures { result ≡ a / 2 ^ k }
{
    if k < 64 { a >> k } else { 0 }
}
