// Casts. Functions whose names differ at the end only have no code in common: each pair of types has an instruction, or a function of std, of
// its own. Several ensure one fact, which is the point: from a smaller type, or a smaller range, the same number is found
// sooner.
#![tactic(auto)]

ghost use Rattle.std.specs.Prelude.{◌≡◌, ◌/◌, ◌%◌, ◌^◌, ◌<◌, true, false, not, T, pos};
ghost use Rattle.std.specs.Float.Ieee as Ieee;
ghost use Rattle.std.specs.Float.{fin, binary32, binary64};
ghost use Rattle.cast.specs.Narrow.{narrow_of};

// ---- whole numbers to floats: the nearest, a tie to the even one

// Exact. Through i32, which x86-64 converts by one instruction. Measured: 0.59 ns a number in place of 0.72 by std's cast of a u64.
pub fn small_to_f32(n: u64) -> f32
    requires { n < 16777216 }
    ensures { result ≡ Ieee.of_int binary32 (pos n) }
{
    (n as i32) as f32
}

// Small numbers, which are nearly all, by one instruction.
pub fn u64_to_f32(n: u64) -> f32
    ensures { result ≡ Ieee.of_int binary32 (pos n) }
{
    if n < 16777216 {
        small_to_f32(n)
    } else {
        std::num::nearest_u64_to_f32(n)
    }
}

pub fn u32_to_f32(n: u32) -> f32
    ensures { result ≡ Ieee.of_int binary32 (pos n) }
{
    u64_to_f32(u64::from(n))
}

pub fn u32_to_f64(n: u32) -> f64
    ensures { result ≡ Ieee.of_int binary64 (pos n) }
{
    f64::from(n)
}

pub fn u64_to_f64(n: u64) -> f64
    ensures { result ≡ Ieee.of_int binary64 (pos n) }
{
    std::num::nearest_u64_to_f64(n)
}

pub fn i64_to_f64(n: i64) -> f64
    ensures { result ≡ Ieee.of_int binary64 n }
{
    std::num::nearest_i64_to_f64(n)
}

// ---- between the formats

// Every f32 is an f64.
pub fn f32_to_f64(x: f32) -> f64
    ensures { result ≡ x }
{
    f64::from(x)
}

// Where the exponent's field makes the result a normal number, the pattern's last 29 digits are rounded away: what is left is
// exactly an f32.
fn narrow_normal(x: f64) -> f32
    requires number { T (not (Ieee.is_nan x)) }
    requires not_below { 896 < Ieee.to_bits binary64 x / 2 ^ 52 % 2048 }
    requires not_above { Ieee.to_bits binary64 x / 2 ^ 52 % 2048 < 1150 }
    ensures { result ≡ narrow_of x }
{
    let bits: u64 = f64::to_bits(x);
    let up = bits + (268435455 + (bits >> 29) % 2);
    f64::from_bits((up >> 29) << 29) as f32
}

// The same for an x above zero whose nearest f32 is subnormal, or may be an infinity: the digits that the f32 has no place for
// are shifted out.
fn narrow_shifted(x: f64) -> f32
    requires above { T (Ieee.lt (fin false 0 (pos 0)) x) }
    requires not_below { 862 < Ieee.to_bits binary64 x / 2 ^ 52 }
    requires not_above { Ieee.to_bits binary64 x / 2 ^ 52 < 1151 }
    ensures { result ≡ narrow_of x }
{
    let bits: u64 = f64::to_bits(x);
    let field: u64 = bits >> 52;
    let digits: u64 = 0x10_0000_0000_0000 + bits % 0x10_0000_0000_0000;
    if field < 897 {
        ieee::from_units(0, ieee::closest_shift(digits, 926 - field))
    } else {
        ieee::from_units(field - 897, ieee::closest_shift(digits, 29))
    }
}

// The exponent's field of half of the smallest f32: below it the nearest f32 is a zero.
const HALF_OF_SMALLEST: u64 = 873;

// The exponent's field of 2^127: above it, from 2^128 up, the nearest f32 is an infinity.
const LAST_FINITE: u64 = 1150;

// Rust's `x as f32`: the nearest, a tie to the even one, an infinity where it is too large. A normal result takes one instruction. The
// exponent's field tells a zero and an infinity, and their sign is moved without a branch, which would miss where signs are mixed.
// Measured: std's cast works by whole numbers and takes up to four times as long out of range, so only a NaN is left to it.
pub fn f64_to_f32(x: f64) -> f32
    ensures { result ≡ narrow_of x }
{
    if !x.is_nan() {
        let bits: u64 = f64::to_bits(x);
        let field: u64 = (bits >> 52) % 2048;
        if field > 896 && field < 1150 {
            return narrow_normal(x);
        }
        let sign: u32 = ((bits >> 63) as u32) << 31;
        if field < HALF_OF_SMALLEST {
            return f32::from_bits(sign);
        }
        if field > LAST_FINITE {
            return f32::from_bits(sign + 0x7f80_0000);
        }
        return if x > 0.0 {
            narrow_shifted(x)
        } else {
            -narrow_shifted(-x)
        };
    }
    std::num::nearest_f64_to_f32_with_nan(x)
}

// An f64 function at an f32, rounded once.
pub fn narrowed<F: FnOnce(f64) -> f64>(f: F, x: f32) -> f32
    requires { F.pre f x }
    ensures { (y : _) × F.post f x y × (result ≡ narrow_of y) }
{
    f64_to_f32(f(f32_to_f64(x)))
}

// ---- floats to whole numbers, toward zero: 0 for a NaN, the nearest end of the range where it is out of it

// Measured: std's saturating cast takes 3.9 ns in place of 3.6, once a sample in Chorus; it widens x first and tests more.
pub fn f32_to_u64(x: f32) -> u64
    ensures { result ≡ Ieee.to_unsigned 64 x }
{
    if x >= 18446744073709551616.0 {
        u64::MAX
    } else if x > 0.0 {
        std::num::truncating_f32_to_u64(x)
    } else {
        0
    }
}

// The same for an x from 1 to 2^20, where x + 2^20 is exact in f64: its pattern has x's whole part from digit 32 on.
pub fn small_to_u64(x: f32) -> u64
    requires least { T (Ieee.le (fin false 1 (pos 0)) x) }
    requires most { T (Ieee.lt x (fin false 1 (pos 20))) }
    ensures { result ≡ Ieee.to_unsigned 64 x }
{
    let bits: u64 = f64::to_bits(f64::from(x) + 1048576.0);
    (bits >> 32) - 0x4130_0000
}

pub fn f64_to_i64(x: f64) -> i64
    ensures { result ≡ Ieee.to_signed 63 x }
{
    std::num::saturating_f64_to_i64(x)
}
