// The leaves of `float`, `sqrt` and `word`.
ghost use Rattle.std.specs.Prelude.{◌≡◌, false, ◌*◌, ◌%◌, ◌^◌, pos};
ghost use Rattle.std.specs.Float.Ieee as Ieee;
ghost use Rattle.std.specs.Float.{fin, binary32, binary64};
ghost use Rattle.rounding.specs.Whole.{floor_of, trunc_of, round_of, fract_of, wrap_of};
ghost use Rattle.float.specs.Order.{abs_of, is_finite, max_of, min_of, clamp_of};
ghost use Rattle.float.specs.Euclid.{rem_euclid_of};
ghost use Rattle.sqrt.specs.Sqrt.{sqrt_of};

#[unsafe(no_mangle)]
pub extern "C" fn leaf_floor(x: f32) -> f32
    ensures { result ≡ floor_of binary32 x }
{
    rounding::floor(x)
}

#[unsafe(no_mangle)]
pub extern "C" fn leaf_trunc(x: f32) -> f32
    ensures { result ≡ trunc_of binary32 x }
{
    rounding::trunc(x)
}

#[unsafe(no_mangle)]
pub extern "C" fn leaf_round(x: f32) -> f32
    ensures { result ≡ round_of binary32 x }
{
    rounding::round(x)
}

#[unsafe(no_mangle)]
pub extern "C" fn leaf_fract(x: f32) -> f32
    ensures { result ≡ fract_of binary32 x }
{
    rounding::fract(x)
}

#[unsafe(no_mangle)]
pub extern "C" fn leaf_wrap(x: f32) -> f32
    ensures { result ≡ wrap_of binary32 x }
{
    rounding::wrap(x)
}

#[unsafe(no_mangle)]
pub extern "C" fn leaf_abs(x: f32) -> f32
    ensures { result ≡ abs_of x }
{
    float::abs(x)
}

#[unsafe(no_mangle)]
pub extern "C" fn leaf_max0(x: f32) -> f32
    ensures { result ≡ max_of x (fin false 0 (pos 0)) }
{
    float::max0(x)
}

#[unsafe(no_mangle)]
pub extern "C" fn leaf_max(x: f32, y: f32) -> f32
    ensures { result ≡ max_of x y }
{
    float::max(x, y)
}

#[unsafe(no_mangle)]
pub extern "C" fn leaf_min(x: f32, y: f32) -> f32
    ensures { result ≡ min_of x y }
{
    float::min(x, y)
}

#[unsafe(no_mangle)]
pub extern "C" fn leaf_clamp(x: f32, lo: f32, hi: f32) -> f32
    ensures { result ≡ clamp_of x lo hi }
{
    float::clamp(x, lo, hi)
}

#[unsafe(no_mangle)]
pub extern "C" fn leaf_rem_euclid(x: f32, y: f32) -> f32
    ensures { result ≡ rem_euclid_of binary32 x y }
{
    float::rem_euclid(x, y)
}

#[unsafe(no_mangle)]
pub extern "C" fn leaf_is_nan(x: f32) -> bool
    ensures { result ≡ Ieee.is_nan x }
{
    x.is_nan()
}

#[unsafe(no_mangle)]
pub extern "C" fn leaf_is_finite(x: f32) -> bool
    ensures { result ≡ is_finite x }
{
    float::is_finite(x)
}

#[unsafe(no_mangle)]
pub extern "C" fn leaf_from_bits(b: u32) -> f32
    ensures { result ≡ Ieee.of_bits binary32 b }
{
    float::from_bits(b)
}

#[unsafe(no_mangle)]
pub extern "C" fn leaf_to_bits(x: f32) -> u32
    ensures { result ≡ Ieee.to_bits binary32 x }
{
    float::to_bits(x)
}

#[unsafe(no_mangle)]
pub extern "C" fn leaf_round_f64(x: f64) -> f64
    ensures { result ≡ round_of binary64 x }
{
    rounding::round_f64(x)
}

#[unsafe(no_mangle)]
pub extern "C" fn leaf_is_nan_f64(x: f64) -> bool
    ensures { result ≡ Ieee.is_nan x }
{
    x.is_nan()
}

#[unsafe(no_mangle)]
pub extern "C" fn leaf_from_bits_f64(b: u64) -> f64
    ensures { result ≡ Ieee.of_bits binary64 b }
{
    std::num::f64_from_bits_with_nan(b)
}

#[unsafe(no_mangle)]
pub extern "C" fn leaf_to_bits_f64(x: f64) -> u64
    ensures { result ≡ Ieee.to_bits binary64 x }
{
    std::num::f64_to_bits_with_nan(x)
}

#[unsafe(no_mangle)]
pub extern "C" fn leaf_sqrt(x: f32) -> f32
    ensures { result ≡ sqrt_of x }
{
    sqrt::sqrt(x)
}

#[unsafe(no_mangle)]
pub extern "C" fn leaf_wrapping_mul(a: u64, b: u64) -> u64
    ensures { result ≡ (a * b) % 2 ^ 64 }
{
    word::wrapping_mul(a, b)
}
