// The functions of det.rs.
ghost use Rattle.std.specs.Prelude.{◌≡◌};
ghost use Rattle.cast.specs.Narrow.{narrow_of};
ghost use Rattle.trig.specs.Trig.{sin_poly, cos_poly, reduce2pi, sin_of, cos_of};
ghost use Rattle.exp.specs.Exp.{power_of_two, exp_of, expm1_small};
ghost use Rattle.det.specs.Log.{ln_of, pow_of, log10_of};
ghost use Rattle.det.specs.Tanh.{tanh_of};

#[unsafe(no_mangle)]
pub extern "C" fn det_sin_poly(x: f64) -> f64
    ensures { result ≡ sin_poly x }
{
    trig::sin_poly(x)
}

#[unsafe(no_mangle)]
pub extern "C" fn det_cos_poly(x: f64) -> f64
    ensures { result ≡ cos_poly x }
{
    trig::cos_poly(x)
}

#[unsafe(no_mangle)]
pub extern "C" fn det_reduce_2pi(x: f64) -> f64
    ensures { result ≡ reduce2pi x }
{
    trig::reduce_2pi(x)
}

#[unsafe(no_mangle)]
pub extern "C" fn det_sin(x: f64) -> f64
    ensures { result ≡ sin_of x }
{
    trig::sin(x)
}

#[unsafe(no_mangle)]
pub extern "C" fn det_cos(x: f64) -> f64
    ensures { result ≡ cos_of x }
{
    trig::cos(x)
}

#[unsafe(no_mangle)]
pub extern "C" fn det_exp(x: f64) -> f64
    ensures { result ≡ exp_of x }
{
    exp::exp(x)
}

#[unsafe(no_mangle)]
pub extern "C" fn det_expm1_small(x: f64) -> f64
    ensures { result ≡ expm1_small x }
{
    exp::expm1_small(x)
}

#[unsafe(no_mangle)]
pub extern "C" fn det_ln(x: f64) -> f64
    ensures { result ≡ ln_of x }
{
    det::ln(x)
}

#[unsafe(no_mangle)]
pub extern "C" fn det_log10(x: f64) -> f64
    ensures { result ≡ log10_of x }
{
    det::log10(x)
}

#[unsafe(no_mangle)]
pub extern "C" fn det_tanh(x: f64) -> f64
    ensures { result ≡ tanh_of x }
{
    det::tanh(x)
}

#[unsafe(no_mangle)]
pub extern "C" fn det_powf(x: f64, y: f64) -> f64
    ensures { result ≡ pow_of x y }
{
    det::powf(x, y)
}

#[unsafe(no_mangle)]
pub extern "C" fn det_ldexp2(k: i64) -> f64
    ensures { result ≡ power_of_two k }
{
    exp::ldexp2(k)
}

#[unsafe(no_mangle)]
pub extern "C" fn det_sinf(x: f32) -> f32
    ensures { result ≡ narrow_of (sin_of x) }
{
    trig::sinf(x)
}

#[unsafe(no_mangle)]
pub extern "C" fn det_cosf(x: f32) -> f32
    ensures { result ≡ narrow_of (cos_of x) }
{
    trig::cosf(x)
}

#[unsafe(no_mangle)]
pub extern "C" fn det_expf(x: f32) -> f32
    ensures { result ≡ narrow_of (exp_of x) }
{
    exp::expf(x)
}

#[unsafe(no_mangle)]
pub extern "C" fn det_lnf(x: f32) -> f32
    ensures { result ≡ narrow_of (ln_of x) }
{
    det::lnf(x)
}

#[unsafe(no_mangle)]
pub extern "C" fn det_log10f(x: f32) -> f32
    ensures { result ≡ narrow_of (log10_of x) }
{
    det::log10f(x)
}

#[unsafe(no_mangle)]
pub extern "C" fn det_tanhf(x: f32) -> f32
    ensures { result ≡ narrow_of (tanh_of x) }
{
    det::tanhf(x)
}

#[unsafe(no_mangle)]
pub extern "C" fn det_powff(x: f32, y: f32) -> f32
    ensures { result ≡ narrow_of (pow_of x y) }
{
    det::powff(x, y)
}
