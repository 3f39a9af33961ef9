// det.rs: ln, pow, log10 and tanh. f64 arithmetic alone, in one order, with fdlibm's coefficients; no call of the C library,
// so the results are the same everywhere. A constant stands as the Rust writes it. A power has one definition, which each function of a
// power ensures: what it takes besides x and y is what its caller has at hand.
#![tactic(auto)]

ghost use Rattle.std.specs.Prelude.{◌≡◌, not, pos, T};
ghost use Rattle.std.specs.Int.Signed.{lt_z};
ghost use Rattle.std.specs.Float.Ieee as Ieee;
ghost use Rattle.cast.specs.Narrow.{narrow_of};
ghost use Rattle.det.specs.Log.{exponent_of, mantissa_of, min_positive, ln_series, ln_folded, ln_of, pow_of, ten, log10_of};
ghost use Rattle.det.specs.Tanh.{tanh_above, tanh_of};

// ---- ln, pow, log10

const LG1: f64 = 6.666666666666735130e-01;

const LG2: f64 = 3.999999999940941908e-01;

const LG3: f64 = 2.857142874366239149e-01;

const LG4: f64 = 2.222219843214978396e-01;

const LG5: f64 = 1.818357216161805012e-01;

const LG6: f64 = 1.531383769920937332e-01;

const LG7: f64 = 1.479819860511658591e-01;

// fdlibm's e_log: ln of m times 2^k, the series parted into even and odd powers for its exact rounding.
#[tactic(auto, unfolding(crate::specs::Log::ln_series, double::specs::Double::horner))]
fn ln_series(m: f64, k: f64) -> f64
    ensures { result ≡ ln_series m k }
{
    let f = m - 1.0;
    let s = f / (2.0 + f);
    let z = s * s;
    let w = z * z;
    let t1 = w * (LG2 + w * (LG4 + w * LG6));
    let t2 = z * (LG1 + w * (LG3 + w * (LG5 + w * LG7)));
    let r = t2 + t1;
    let hfsq = 0.5 * f * f;
    k * exp::LN2_HI + (f - (hfsq - (s * (hfsq + r) + k * exp::LN2_LO)))
}

// The parts of x = m 2^k, 1 <= m < 2, for a normal x or an infinity: k is the exponent's field less 1023, and m has x's
// digits under the field of 1.0. Both ask that x is one, as `ln_normal` does: a type of such numbers would be made for its call alone.
fn exponent(x: f64) -> i32
    requires { T (Ieee.le min_positive x) }
    ensures { (result ≡ exponent_of x) × T (lt_z result (pos 1025)) }
{
    let field: u64 = f64::to_bits(x) >> 52;
    (field as i32) - 1023
}

fn mantissa(x: f64) -> f64
    requires { T (Ieee.le min_positive x) }
    ensures { result ≡ mantissa_of x }
{
    f64::from_bits((f64::to_bits(x) & 0x000f_ffff_ffff_ffff) | 0x3ff0_0000_0000_0000)
}

const SQRT_2: f64 = 1.41421356237309504880168872420969808;

// Folds m into [sqrt 2 / 2, sqrt 2], the range that the series is made for.
fn ln_folded(m: f64, k: i32, scale: f64) -> f64
    requires { T (lt_z k (pos 1025)) }
    ensures { result ≡ ln_folded m k scale }
{
    if m > SQRT_2 {
        ln_series(m * 0.5, f64::from(k + 1) + scale)
    } else {
        ln_series(m, f64::from(k) + scale)
    }
}

// ln of x with the scale added to its exponent.
fn ln_normal(x: f64, scale: f64) -> f64
    requires { T (Ieee.le min_positive x) }
    ensures { result ≡ ln_folded (mantissa_of x) (exponent_of x) scale }
{
    ln_folded(mantissa(x), exponent(x), scale)
}

// A subnormal x is brought into the normal range, as if by 2^64.
const MIN_POSITIVE: f64 = 2.2250738585072014e-308;

const SUBNORMAL_SCALE: f64 = 1.84467440737095e19;

const SCALE_K: f64 = -64.0;

pub fn ln(x: f64) -> f64
    ensures { result ≡ ln_of x }
{
    if x.is_nan() || x < 0.0 {
        0.0 / 0.0
    } else if x == 0.0 {
        -1.0 / 0.0
    } else if x < MIN_POSITIVE {
        ln_normal(x * SUBNORMAL_SCALE, SCALE_K)
    } else {
        ln_normal(x, 0.0)
    }
}

// x to the power y by l, the logarithm of x: a caller with one base and many exponents works it out once. The bases 0 and
// below 0 are set apart: ln is infinite or a NaN there.
pub fn powf_by(x: f64, l: f64, y: f64) -> f64
    requires { l ≡ ln_of x }
    ensures { result ≡ pow_of x y }
{
    if y == 0.0 {
        1.0
    } else if x == 0.0 {
        if y > 0.0 { 0.0 } else { 1.0 / 0.0 }
    } else if x < 0.0 {
        0.0 / 0.0
    } else {
        exp::exp(y * l)
    }
}

pub fn powf(x: f64, y: f64) -> f64
    ensures { result ≡ pow_of x y }
{
    powf_by(x, ln(x), y)
}

// ln(10.0): what `ln` answers there.
const LN_10: f64 = 2.302585092994046;

// 10^y, with ln(10.0) at hand.
pub fn pow10(y: f64) -> f64
    ensures { result ≡ pow_of ten y }
{
    if y == 0.0 { 1.0 } else { exp::exp(y * LN_10) }
}

pub fn log10(x: f64) -> f64
    ensures { result ≡ log10_of x }
{
    ln(x) / LN_10
}

// ---- tanh

// The sign times tanh x, for an x that is not below 0. Near 0 the form 1 - 2 / (e^2x + 1) would cancel.
fn tanh_above(x: f64, sign: f64) -> f64
    requires { T (not (Ieee.is_nan x)) }
    ensures { result ≡ tanh_above x sign }
{
    if x > 20.0 {
        sign
    } else if x < 0.25 {
        let e = exp::expm1_small(2.0 * x);
        sign * (e / (e + 2.0))
    } else {
        sign * (1.0 - 2.0 / (exp::exp_above(2.0 * x) + 1.0))
    }
}

// The size and the sign are taken from the pattern: a branch on the sign misses half the time on noise.
pub fn tanh(x: f64) -> f64
    ensures { result ≡ tanh_of x }
{
    if x.is_nan() {
        return 0.0 / 0.0;
    }
    let bits: u64 = f64::to_bits(x);
    let size = bits & 0x7fff_ffff_ffff_ffff;
    tanh_above(
        f64::from_bits(size),
        f64::from_bits(0x3ff0_0000_0000_0000 + (bits - size)),
    )
}

// ---- f32: the f64 function, rounded once

pub fn lnf(x: f32) -> f32
    ensures { result ≡ narrow_of (ln_of x) }
{
    cast::narrowed(ln, x)
}

pub fn powff(x: f32, y: f32) -> f32
    ensures { result ≡ narrow_of (pow_of x y) }
{
    cast::f64_to_f32(powf(cast::f32_to_f64(x), cast::f32_to_f64(y)))
}

pub fn powff_by(x: f32, l: f64, y: f32) -> f32
    requires { l ≡ ln_of x }
    ensures { result ≡ narrow_of (pow_of x y) }
{
    cast::f64_to_f32(powf_by(cast::f32_to_f64(x), l, cast::f32_to_f64(y)))
}

pub fn pow10f(y: f32) -> f32
    ensures { result ≡ narrow_of (pow_of ten y) }
{
    cast::narrowed(pow10, y)
}

pub fn tanhf(x: f32) -> f32
    ensures { result ≡ narrow_of (tanh_of x) }
{
    cast::narrowed(tanh, x)
}

pub fn log10f(x: f32) -> f32
    ensures { result ≡ narrow_of (log10_of x) }
{
    cast::narrowed(log10, x)
}
