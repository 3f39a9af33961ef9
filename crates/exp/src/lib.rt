// det.rs: exp. f64 arithmetic alone, in one order, with fdlibm's coefficients; no call of the C library, so the results are
// the same everywhere. A constant stands as the Rust writes it.
#![tactic(auto)]

ghost use Rattle.std.specs.Prelude.{◌≡◌, false, pos, negsuc, T};
ghost use Rattle.std.specs.Float.Ieee as Ieee;
ghost use Rattle.std.specs.Float.{fin};
ghost use Rattle.cast.specs.Narrow.{narrow_of};
ghost use Rattle.exp.specs.Exp.{power_of_two, exp_poly, exp_of, expm1_small};

pub const LN2_HI: f64 = 6.93147180369123816490e-01;

pub const LN2_LO: f64 = 1.90821492927058770002e-10;

const INV_LN2: f64 = 1.44269504088896340735992468100189214;

// 2^k from its bits: below -1022 a single digit, which is where the Rust loses -1023 (docs/DIFFERENCES.md).
pub fn ldexp2(k: i64) -> f64
    ensures { result ≡ power_of_two k }
{
    if k > 1023 {
        1.0 / 0.0
    } else if k < -1022 {
        if k < -1074 {
            0.0
        } else {
            f64::from_bits(1u64 << ((k + 1074) as u64))
        }
    } else {
        f64::from_bits(((k + 1023) as u64) << 52)
    }
}

const P1: f64 = 1.66666666666666019037e-01;

const P2: f64 = -2.77777777770155933842e-03;

const P3: f64 = 6.61375632143793436117e-05;

const P4: f64 = -1.65339022054652515390e-06;

const P5: f64 = 4.13813679705723846039e-08;

// fdlibm's e_exp: c = r - r^2 P(r^2), and e^r is 1 - (r c / (c - 2) - r).
#[tactic(auto, unfolding(crate::specs::Exp::exp_poly, double::specs::Double::horner))]
fn exp_poly(r: f64) -> f64
    ensures { result ≡ exp_poly r }
{
    let t = r * r;
    let c = r - t * (P1 + t * (P2 + t * (P3 + t * (P4 + t * P5))));
    1.0 - ((r * c) / (c - 2.0) - r)
}

const EXP_MAX: f64 = 7.09782712893383e+02;

const EXP_MIN: f64 = -7.45133219101941e+02;

// For every x. It and the next two ensure the one definition: they differ in the range that they are quick in.
fn exp_plain(x: f64) -> f64
    ensures { result ≡ exp_of x }
{
    if x > EXP_MAX {
        return 1.0 / 0.0;
    }
    if x < EXP_MIN {
        return 0.0;
    }
    let k = rounding::round_f64(x * INV_LN2);
    let r = (x - k * LN2_HI) - k * LN2_LO;
    exp_poly(r) * ldexp2(double::whole_to_i64(k))
}

// For x from 2^-30 to 256. Adding 2^52 rounds x / ln 2 to a whole number, k, which the sum then has as its last digits: with
// 1023 added, and what is above them shifted out, they are 2^k. A half that went down to an even k has to go up: the plain form.
pub fn exp_above(x: f64) -> f64
    requires least { T (Ieee.le (fin false 1 (negsuc 29)) x) }
    requires most { T (Ieee.le x (fin false 1 (pos 8))) }
    ensures { result ≡ exp_of x }
{
    let y = x * INV_LN2;
    let s = y + 4503599627370496.0;
    let k = s - 4503599627370496.0;
    if y - k == 0.5 {
        return exp_plain(x);
    }
    let r = (x - k * LN2_HI) - k * LN2_LO;
    exp_poly(r) * f64::from_bits((f64::to_bits(s) + 1023) << 52)
}

// e^-x likewise, with 2^-k.
fn exp_minus(x: f64) -> f64
    requires least { T (Ieee.le (fin false 1 (negsuc 29)) x) }
    requires most { T (Ieee.le x (fin false 1 (pos 8))) }
    ensures { result ≡ exp_of (Ieee.neg x) }
{
    let y = x * INV_LN2;
    let s = y + 4503599627370496.0;
    let h = s - 4503599627370496.0;
    if y - h == 0.5 {
        return exp_plain(-x);
    }
    let k = -h;
    let r = (-x - k * LN2_HI) - k * LN2_LO;
    exp_poly(r) * f64::from_bits((0x4330_0000_0000_03ff - f64::to_bits(s)) << 52)
}

const EXP_NEAR: f64 = 9.313225746154785e-10;

const EXP_FAR: f64 = 256.0;

pub fn exp(x: f64) -> f64
    ensures { result ≡ exp_of x }
{
    if x >= EXP_NEAR && x <= EXP_FAR {
        return exp_above(x);
    }
    let m = -x;
    if m >= EXP_NEAR && m <= EXP_FAR {
        return exp_minus(m);
    }
    exp_plain(x)
}

const INV_FACT_2: f64 = 1.0 / 2.0;

const INV_FACT_3: f64 = 1.0 / 6.0;

const INV_FACT_4: f64 = 1.0 / 24.0;

const INV_FACT_5: f64 = 1.0 / 120.0;

const INV_FACT_6: f64 = 1.0 / 720.0;

const INV_FACT_7: f64 = 1.0 / 5040.0;

const INV_FACT_8: f64 = 1.0 / 40320.0;

const INV_FACT_9: f64 = 1.0 / 362880.0;

const INV_FACT_10: f64 = 1.0 / 3628800.0;

const INV_FACT_11: f64 = 1.0 / 39916800.0;

// e^x - 1 near 0: the series x^1/1! + .. + x^11/11!, which does not cancel.
pub fn expm1_small(x: f64) -> f64
    ensures { result ≡ expm1_small x }
{
    let a = INV_FACT_9 + x * (INV_FACT_10 + x * INV_FACT_11);
    let b = INV_FACT_5 + x * (INV_FACT_6 + x * (INV_FACT_7 + x * (INV_FACT_8 + x * a)));
    x * (1.0 + x * (INV_FACT_2 + x * (INV_FACT_3 + x * (INV_FACT_4 + x * b))))
}

// ---- f32: the f64 function, rounded once

pub fn expf(x: f32) -> f32
    ensures { result ≡ narrow_of (exp_of x) }
{
    cast::narrowed(exp, x)
}
