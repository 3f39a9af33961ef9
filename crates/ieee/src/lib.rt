#![tactic(auto)]

ghost use Rattle.std.specs.Prelude.{◌≡◌, ◌^◌, ◌<◌, ◌≤◌, false, ◌⊎◌};
ghost use Rattle.std.specs.Float.Ieee as Ieee;
ghost use Rattle.std.specs.Float.{binary32};
ghost use Rattle.std.specs.Float.Ieee.Nearest.{closest};

// n / 2^k to the nearest whole number, a tie to the even one.
pub fn closest_shift(n: u64, k: u64) -> u64
    requires { (1 ≤ k) × (k < 64) }
    ensures { result ≡ closest n (2 ^ k) }
{
    let q = n >> k;
    let rest = n - (q << k);
    let half = 1u64 << (k - 1);
    if rest < half {
        q
    } else if half < rest {
        q + 1
    } else {
        q + q % 2
    }
}

// q * 2^k of the smallest f32: the bit pattern is a sum, since the leading digit of q adds one to the exponent's field.
pub fn from_units(k: u64, q: u64) -> f32
    requires { ((k ≡ 0) ⊎ (2 ^ 23 ≤ q)) × (q ≤ 2 ^ 24) × (k ≤ 253) }
    ensures { result ≡ Ieee.units binary32 false q k }
{
    f32::from_bits((k * 8388608 + q) as u32)
}
