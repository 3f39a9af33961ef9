// The whole numbers near a float: floor, trunc and round, and what they leave over. From 2^23 on an f32 is whole, so y + 2^23 is y
// rounded to the nearest whole number, and one comparison tells which neighbour is asked for: no call of the C library, and no cast.
// Measured: std's methods of these names take up to twice as long, since they round to the floor first, and copy the sign.
#![tactic(auto)]

ghost use Rattle.std.specs.Prelude.{◌≡◌, ℕ, false, ◌+◌, ◌-◌, ◌*◌, ◌/◌, pos, T};
ghost use Rattle.std.specs.Float.Ieee as Ieee;
ghost use Rattle.std.specs.Float.{fin, binary32, binary64};
ghost use Rattle.std.specs.Float.Ieee.Positive.{num, den};
ghost use Rattle.rounding.specs.Whole.{cut, whole_of, floor_of, trunc_of, round_of, fract_of, wrap_of};

// The whole part of a y between 0 and 2^23. The three functions of such a y state both bounds each: a type that has them would be made
// where a size is known, and opened in the next line.
fn floor_above(y: f32) -> f32
    requires above_zero { T (Ieee.lt (fin false 0 (pos 0)) y) }
    requires has_fraction { T (Ieee.lt y (fin false 1 (pos 23))) }
    ensures { result ≡ Ieee.of_int binary32 (pos (num y / den y)) }
{
    let t = (y + 8388608.0) - 8388608.0;
    if y < t { t - 1.0 } else { t }
}

// The next whole number from y up.
fn ceil_above(y: f32) -> f32
    requires above_zero { T (Ieee.lt (fin false 0 (pos 0)) y) }
    requires has_fraction { T (Ieee.lt y (fin false 1 (pos 23))) }
    ensures { result ≡ Ieee.of_int binary32 (pos ((num y + (den y - 1)) / den y)) }
{
    let t = (y + 8388608.0) - 8388608.0;
    if t < y { t + 1.0 } else { t }
}

// The nearest whole number, a half up.
fn round_above(y: f32) -> f32
    requires above_zero { T (Ieee.lt (fin false 0 (pos 0)) y) }
    requires has_fraction { T (Ieee.lt y (fin false 1 (pos 23))) }
    ensures { result ≡ Ieee.of_int binary32 (pos ((2 * num y + den y) / (2 * den y))) }
{
    let t = (y + 8388608.0) - 8388608.0;
    if y - t == 0.5 { t + 1.0 } else { t }
}

// The same for an f64. One function for both types would ask a trait with laws of five operators, which is longer than this.
fn round_above_f64(y: f64) -> f64
    requires above_zero { T (Ieee.lt (fin false 0 (pos 0)) y) }
    requires has_fraction { T (Ieee.lt y (fin false 1 (pos 52))) }
    ensures { result ≡ Ieee.of_int binary64 (pos ((2 * num y + den y) / (2 * den y))) }
{
    let t = (y + 4503599627370496.0) - 4503599627370496.0;
    if y - t == 0.5 { t + 1.0 } else { t }
}

// The largest whole number that is not above x. A NaN, an infinity and -0.0 stay as they are. `round` has the same tests: what one
// function of both would say of the two closures that it takes is longer than they are.
pub fn floor(x: f32) -> f32
    ensures { result ≡ floor_of binary32 x }
{
    if x > 0.0 {
        if x < 8388608.0 { floor_above(x) } else { x }
    } else if x < 0.0 && x > -8388608.0 {
        -ceil_above(-x)
    } else {
        x
    }
}

// x without its fraction, with its sign.
pub fn trunc(x: f32) -> f32
    ensures { result ≡ trunc_of binary32 x }
{
    if x < 0.0 { -floor(-x) } else { floor(x) }
}

// The nearest whole number, a half away from zero.
pub fn round(x: f32) -> f32
    ensures { result ≡ round_of binary32 x }
{
    if x > 0.0 {
        if x < 8388608.0 { round_above(x) } else { x }
    } else if x < 0.0 && x > -8388608.0 {
        -round_above(-x)
    } else {
        x
    }
}

// The same for an f64, apart for the reason at `round_above_f64`.
pub fn round_f64(x: f64) -> f64
    ensures { result ≡ round_of binary64 x }
{
    if x > 0.0 {
        if x < 4503599627370496.0 {
            round_above_f64(x)
        } else {
            x
        }
    } else if x < 0.0 && x > -4503599627370496.0 {
        -round_above_f64(-x)
    } else {
        x
    }
}

// x less its whole part, as `whole` tells it. A phase is nearly always between 0 and 2, where that is 0 or 1.
fn left_over<F: FnOnce(f32) -> f32>(x: f32, whole: F) -> f32
    requires { F.pre whole x }
    ensures { (n : ℕ → ℕ → ℕ) → ((w : _) → F.post whole x w → w ≡ whole_of binary32 cut n x) → result ≡ Ieee.sub binary32 x (whole_of binary32 cut n x) }
{
    if x < 1.0 {
        if x > 0.0 {
            return x;
        }
    } else if x < 2.0 {
        return x - 1.0;
    }
    x - whole(x)
}

// x - floor(x).
pub fn wrap(x: f32) -> f32
    ensures { result ≡ wrap_of binary32 x }
{
    left_over(x, floor)
}

// x - trunc(x), which has x's sign.
pub fn fract(x: f32) -> f32
    ensures { result ≡ fract_of binary32 x }
{
    left_over(x, trunc)
}
