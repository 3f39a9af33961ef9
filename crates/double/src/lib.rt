// f64: whole numbers to integers. Rattle's own cast, one instruction, takes those below 2^52 in size, once -0.0 is made
// 0.0 by adding 0.0; the saturating cast takes the rest.
#![tactic(auto)]

ghost use Rattle.std.specs.Prelude.{◌≡◌, ◌%◌};
ghost use Rattle.std.specs.Float.Ieee as Ieee;
ghost use Rattle.std.specs.Float.{binary64};
ghost use Rattle.std.specs.Float.Ieee.Positive.{num, den};

// Rust's `w as i64`, for a whole w, an infinity or a NaN.
pub fn whole_to_i64(w: f64) -> i64
    requires { num w % den w ≡ 0 }
    ensures { result ≡ Ieee.to_signed 63 w }
{
    if w < 4503599627370496.0 && w > -4503599627370496.0 {
        (w + 0.0) as i64
    } else {
        cast::f64_to_i64(w)
    }
}

// The same as a float, `w as i64 as f64`.
pub fn whole_by_i64(w: f64) -> f64
    requires { num w % den w ≡ 0 }
    ensures { result ≡ Ieee.of_int binary64 (Ieee.to_signed 63 w) }
{
    if w < 4503599627370496.0 && w > -4503599627370496.0 {
        w + 0.0
    } else {
        cast::i64_to_f64(cast::f64_to_i64(w))
    }
}
