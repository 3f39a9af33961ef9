// det.rs: sine and cosine. f64 arithmetic alone, in one order, with fdlibm's coefficients; no call of the C library, so the
// results are the same everywhere. A constant stands as the Rust writes it.
#![tactic(auto)]

ghost use Rattle.std.specs.Prelude.{◌≡◌};
ghost use Rattle.cast.specs.Narrow.{narrow_of};
ghost use Rattle.trig.specs.Trig.{sin_poly, cos_poly, reduce2pi, quadrant_of, turned, sin_reduced, sin_of, cos_of};

// 2 pi in three parts, for Cody and Waite's reduction: the residuals carry what the f64 nearest to 2 pi drops.
const PI2_HI: f64 = 6.28318530717958647692528676655900577;

const PI2_MID: f64 = 2.44929359829470641445e-16;

const PI2_LO: f64 = 1.74968224062658175647e-32;

const INV_PI2: f64 = 1.59154943091895335769e-01;

const FRAC_PI_2: f64 = 1.57079632679489661923132169163975144;

const S1: f64 = -1.66666666666666324348e-01;

const S2: f64 = 8.33333333332248946124e-03;

const S3: f64 = -1.98412698298579493134e-04;

const S4: f64 = 2.75573137070700676789e-06;

const S5: f64 = -2.50507602534068634195e-08;

const S6: f64 = 1.58969099521155010221e-10;

// fdlibm's sine on [-pi/4, pi/4]: x + x^3 S(x^2).
#[tactic(auto, unfolding(crate::specs::Trig::sin_poly, double::specs::Double::horner))]
pub fn sin_poly(x: f64) -> f64
    ensures { result ≡ sin_poly x }
{
    let z = x * x;
    x + x * z * (S1 + z * (S2 + z * (S3 + z * (S4 + z * (S5 + z * S6)))))
}

const C1: f64 = 4.16666666666666019037e-02;

const C2: f64 = -1.38888888888741095749e-03;

const C3: f64 = 2.48015872894767294178e-05;

const C4: f64 = -2.75573143513906633035e-07;

const C5: f64 = 2.08757232129817482790e-09;

const C6: f64 = -1.13596475577881948265e-11;

// fdlibm's cosine on [-pi/4, pi/4]: 1 - x^2 / 2 + x^4 C(x^2).
#[tactic(auto, unfolding(crate::specs::Trig::cos_poly, double::specs::Double::horner))]
pub fn cos_poly(x: f64) -> f64
    ensures { result ≡ cos_poly x }
{
    let z = x * x;
    1.0 - 0.5 * z + z * z * (C1 + z * (C2 + z * (C3 + z * (C4 + z * (C5 + z * C6)))))
}

// x less the nearest number of periods, k. The angle of a phase has k = 0 or 1, which a comparison tells sooner than the rounding.
pub fn reduce_2pi(x: f64) -> f64
    ensures { result ≡ reduce2pi x }
{
    let y = x * INV_PI2;
    if y < 0.5 {
        if y > 0.0 {
            return ((x - 0.0 * PI2_HI) - 0.0 * PI2_MID) - 0.0 * PI2_LO;
        }
    } else if y < 1.5 {
        return ((x - 1.0 * PI2_HI) - 1.0 * PI2_MID) - 1.0 * PI2_LO;
    }
    let k = rounding::round_f64(y);
    ((x - k * PI2_HI) - k * PI2_MID) - k * PI2_LO
}

// q modulo 4: its last two digits in two's complement.
fn quadrant(q: i64) -> u64
    ensures { result ≡ quadrant_of q }
{
    q.cast_unsigned() % 4
}

// The sine of a and k quarter turns. Their number is counted and no kind: an enum of four quadrants would be made by this very match.
fn turn(k: u64, a: f64) -> f64
    ensures { result ≡ turned k a }
{
    match k {
        0 => sin_poly(a),
        1 => cos_poly(a),
        2 => -sin_poly(a),
        _ => -cos_poly(a),
    }
}

// q, as an integer and as a float, counts the quarter turns that bring r near 0.
fn sin_turned(r: f64) -> f64
    ensures { result ≡ sin_reduced r }
{
    let q = rounding::round_f64(r / FRAC_PI_2);
    let a = r - double::whole_by_i64(q) * FRAC_PI_2;
    turn(quadrant(double::whole_to_i64(q)), a)
}

// The same, with q told by comparisons where it is from -2 to 2: nothing waits for the quotient.
fn sin_reduced(r: f64) -> f64
    ensures { result ≡ sin_reduced r }
{
    let z = r / FRAC_PI_2;
    if z < 0.5 {
        if z > -0.5 {
            return sin_poly(r - 0.0 * FRAC_PI_2);
        }
        if z > -1.5 {
            return -cos_poly(r - -1.0 * FRAC_PI_2);
        }
        if z > -2.5 {
            return -sin_poly(r - -2.0 * FRAC_PI_2);
        }
    } else if z < 1.5 {
        return cos_poly(r - 1.0 * FRAC_PI_2);
    } else if z < 2.5 {
        return -sin_poly(r - 2.0 * FRAC_PI_2);
    }
    sin_turned(r)
}

pub fn sin(x: f64) -> f64
    ensures { result ≡ sin_of x }
{
    sin_reduced(reduce_2pi(x))
}

pub fn cos(x: f64) -> f64
    ensures { result ≡ cos_of x }
{
    sin(x + FRAC_PI_2)
}

// ---- f32: the f64 function, rounded once

pub fn sinf(x: f32) -> f32
    ensures { result ≡ narrow_of (sin_of x) }
{
    cast::narrowed(sin, x)
}

pub fn cosf(x: f32) -> f32
    ensures { result ≡ narrow_of (cos_of x) }
{
    cast::narrowed(cos, x)
}
