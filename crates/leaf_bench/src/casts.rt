// The leaves of `cast`.
ghost use Rattle.std.specs.Prelude.{◌≡◌, pos};
ghost use Rattle.std.specs.Float.Ieee as Ieee;
ghost use Rattle.std.specs.Float.{binary32, binary64};
ghost use Rattle.cast.specs.Narrow.{narrow_of};

#[unsafe(no_mangle)]
pub extern "C" fn leaf_u64_to_f32(n: u64) -> f32
    ensures { result ≡ Ieee.of_int binary32 (pos n) }
{
    cast::u64_to_f32(n)
}

#[unsafe(no_mangle)]
pub extern "C" fn leaf_u32_to_f32(n: u32) -> f32
    ensures { result ≡ Ieee.of_int binary32 (pos n) }
{
    cast::u32_to_f32(n)
}

#[unsafe(no_mangle)]
pub extern "C" fn leaf_u32_to_f64(n: u32) -> f64
    ensures { result ≡ Ieee.of_int binary64 (pos n) }
{
    cast::u32_to_f64(n)
}

#[unsafe(no_mangle)]
pub extern "C" fn leaf_u64_to_f64(n: u64) -> f64
    ensures { result ≡ Ieee.of_int binary64 (pos n) }
{
    cast::u64_to_f64(n)
}

#[unsafe(no_mangle)]
pub extern "C" fn leaf_i64_to_f64(n: i64) -> f64
    ensures { result ≡ Ieee.of_int binary64 n }
{
    cast::i64_to_f64(n)
}

#[unsafe(no_mangle)]
pub extern "C" fn leaf_f64_to_f32(x: f64) -> f32
    ensures { result ≡ narrow_of x }
{
    cast::f64_to_f32(x)
}

#[unsafe(no_mangle)]
pub extern "C" fn leaf_f32_to_f64(x: f32) -> f64
    ensures { result ≡ x }
{
    cast::f32_to_f64(x)
}

#[unsafe(no_mangle)]
pub extern "C" fn leaf_f32_to_u64(x: f32) -> u64
    ensures { result ≡ Ieee.to_unsigned 64 x }
{
    cast::f32_to_u64(x)
}

#[unsafe(no_mangle)]
pub extern "C" fn leaf_f64_to_i64(x: f64) -> i64
    ensures { result ≡ Ieee.to_signed 63 x }
{
    cast::f64_to_i64(x)
}
