// Size and order of floats, the remainder, and bit patterns.
#![tactic(auto)]

ghost use Rattle.std.specs.Prelude.{◌≡◌, ◌≢◌, true, false, ◌+◌, ◌-◌, ◌*◌, ◌/◌, ◌%◌, ◌^◌, ◌<◌, ◌≤◌, pos};
ghost use Rattle.std.specs.Float.Ieee as Ieee;
ghost use Rattle.std.specs.Float.{fin, binary32};
ghost use Rattle.float.specs.Order.{abs_of, is_finite, max_of, min_of, clamp_of};
ghost use Rattle.float.specs.Euclid.{rem_euclid_of};
ghost use Rattle.float.specs.Remainder.{digits_of};

// ---- size and order

pub fn is_finite(x: f32) -> bool
    ensures { result ≡ is_finite x }
{
    x.is_finite()
}

// 0.0 - x turns -0.0 into 0.0. Measured: std's abs takes 1.9 ns in place of 1.3, since it tests for a zero too.
pub fn abs(x: f32) -> f32
    ensures { result ≡ abs_of x }
{
    if x > 0.0 { x } else { 0.0 - x }
}

// Rust's max, with +0 of two zeros of unlike sign, where std's leaves the zero's sign open. The sum of two zeros is +0 unless
// both are -0.
pub fn max(x: f32, y: f32) -> f32
    ensures { result ≡ max_of x y }
{
    if x > y {
        x
    } else if x < y {
        y
    } else if x.is_nan() {
        y
    } else if y.is_nan() {
        x
    } else if x == 0.0 {
        x + y
    } else {
        x
    }
}

// Rust's min, with -0 of two zeros of unlike sign, where std's leaves the zero's sign open.
pub fn min(x: f32, y: f32) -> f32
    ensures { result ≡ min_of x y }
{
    if x < y {
        x
    } else if x > y {
        y
    } else if x.is_nan() {
        y
    } else if y.is_nan() {
        x
    } else if x == 0.0 {
        -(-x + -y)
    } else {
        x
    }
}

// max(x, 0.0), the commonest one, by one test. Measured: `max` takes 5.5 ns in place of 2.9 where signs mix, since it branches.
pub fn max0(x: f32) -> f32
    ensures { result ≡ max_of x (fin false 0 (pos 0)) }
{
    if x > 0.0 { x } else { 0.0 }
}

// Rust's clamp, which a NaN and a -0.0 pass. std's asks that lo is at most hi.
pub fn clamp(x: f32, lo: f32, hi: f32) -> f32
    ensures { result ≡ clamp_of x lo hi }
{
    if x < lo {
        lo
    } else if x > hi {
        hi
    } else {
        x
    }
}

// ---- the remainder

// The digits of a float above zero, by its bit pattern: it is these times 2 ^ `power` of the smallest f32.
fn digits(b: u64) -> u64
    ensures { result ≡ digits_of b }
{
    let low = b & 0x7f_ffff;
    if b >> 23 == 0 { low } else { low | 0x80_0000 }
}

fn power(b: u64) -> u64
    ensures { result ≡ b / 2 ^ 23 - 1 }
{
    (b >> 23).saturating_sub(1)
}

// The remainder of a * 2^n by m, forty digits at a time. That a divisor is above 0 is asked here and where other functions divide: a
// NonZero would be made for one division, and opened at it.
fn rem_shifted(a: u64, n: u64, m: u64) -> u64
    requires { (a < 2 ^ 24) × (0 < m) × (m < 2 ^ 24) }
    ensures { result ≡ a * 2 ^ n % m }
{
    let mut r = a;
    for k in 0..n / 40 {
        r = (r << 40) % m;
    }
    (r << (n % 40)) % m
}

// A float that is not below zero: `digits` times 2 ^ `power` of the smallest f32.
#[derive(Clone, Copy)]
struct Units {
    digits: u64,
    power: u64,
    ghost short: { digits < 2 ^ 24 },
    ghost finite: { power ≤ 253 },
}

impl Units {
    // Of a finite float above zero, by its bit pattern.
    fn new(b: u64) -> Units
        requires { (b < 2 ^ 31) × (b / 2 ^ 23 ≢ 255) }
        ensures { (result.digits ≡ digits_of b) × (result.power ≡ b / 2 ^ 23 - 1) }
    {
        Units {
            digits: digits(b),
            power: power(b),
        }
    }

    // The digits are doubled until they are 24, as far as the power goes.
    fn value(self) -> f32
        ensures { result ≡ Ieee.round binary32 false (self.digits * 2 ^ self.power) (2 ^ 149) }
    {
        if self.digits == 0 {
            return 0.0;
        }
        let doublings = (u64::from(self.digits.leading_zeros()) - 40).min(self.power);
        ieee::from_units(self.power - doublings, self.digits << doublings)
    }

    fn rem(self, m: Units) -> f32
        requires { 0 < m.digits }
        ensures { result ≡ Ieee.round binary32 false (self.digits * 2 ^ self.power % (m.digits * 2 ^ m.power)) (2 ^ 149) }
    {
        if m.power <= self.power {
            let digits = rem_shifted(self.digits, self.power - m.power, m.digits);
            Units {
                digits,
                power: m.power,
            }
            .value()
        } else if m.power - self.power < 24 {
            let digits = self.digits % (m.digits << (m.power - self.power));
            Units {
                digits,
                power: self.power,
            }
            .value()
        } else {
            self.value()
        }
    }
}

// Of two above zero.
fn rem_above(x: f32, y: f32) -> f32
    requires { (Ieee.lt (fin false 0 (pos 0)) x ≡ true) × (Ieee.lt (fin false 0 (pos 0)) y ≡ true) }
    ensures { result ≡ Ieee.rem binary32 x y }
{
    let a = u64::from(f32::to_bits(x));
    let b = u64::from(f32::to_bits(y));
    if a >> 23 == 255 {
        0.0 / 0.0
    } else if b >> 23 == 255 {
        x
    } else {
        Units::new(a).rem(Units::new(b))
    }
}

// Rust's `%` of two f32: x less a whole number of times y, with x's sign, and exact. It is taken by whole numbers of the
// smallest f32, since `%` on floats calls the C library.
pub fn rem(x: f32, y: f32) -> f32
    ensures { result ≡ Ieee.rem binary32 x y }
{
    let z = abs(y);
    if z > 0.0 {
        if x > 0.0 {
            rem_above(x, z)
        } else if x < 0.0 {
            -rem_above(-x, z)
        } else {
            x
        }
    } else {
        0.0 / 0.0
    }
}

// Rust's rem_euclid; std's rests on `%`, and takes 35 to 57 ns in place of 25 to 35. Within two periods of 0 one sum serves: the remainder rounds the same exact number.
pub fn rem_euclid(x: f32, y: f32) -> f32
    ensures { result ≡ rem_euclid_of binary32 x y }
{
    if x > 0.0 {
        if x < y {
            return x;
        }
        let d = x - y;
        if d < y {
            return d;
        }
    }
    if x < 0.0 && x > -y {
        return x + y;
    }
    let r = rem(x, y);
    if r < 0.0 { r + abs(y) } else { r }
}

// ---- bit patterns: every NaN pattern is NaN, and NaN is written with only the highest of its digits set

pub fn from_bits(b: u32) -> f32
    ensures { result ≡ Ieee.of_bits binary32 b }
{
    std::num::f32_from_bits_with_nan(b)
}

// Programs that write words, and `leaf_bench` for C, ensure the same of what they call it for.
pub fn to_bits(x: f32) -> u32
    ensures { result ≡ Ieee.to_bits binary32 x }
{
    std::num::f32_to_bits_with_nan(x)
}

// Whether two numbers are the same. `==` would take zeros of unlike sign for one number, which their patterns tell apart.
pub fn same(a: f32, b: f32) -> bool
    ensures { result ≡ true → a ≡ b }
{
    to_bits(a) == to_bits(b)
}
