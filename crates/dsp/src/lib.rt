// det.rs's functions under dsp.rs's names, and the coefficients of dsp.rs.
#![tactic(auto)]

ghost use Rattle.std.specs.Prelude.{◌≡◌, map};
ghost use Rattle.std.specs.Float.Ieee as Ieee;
ghost use Rattle.std.specs.Float.{binary32};
ghost use Rattle.dsp.specs.Math.{sine, cosine, exponential, logarithm1p, wide_logarithm, power, tangent, logarithm10};
ghost use Rattle.dsp.specs.Coefficients.{one_pole_of, follower_of, modal_of, feedback_of};

// ---- det.rs's functions under dsp.rs's names

pub fn sin(x: f32) -> f32
    ensures { result ≡ sine x }
{
    trig::sinf(x)
}

// Each number's sine, in place.
pub fn sin_block(xs: &mut [f32])
    ensures { xs.new ≡ map sine xs.old }
{
    for x in xs.iter_mut() {
        *x = sin(*x);
    }
}

pub fn cos(x: f32) -> f32
    ensures { result ≡ cosine x }
{
    trig::cosf(x)
}

pub fn exp(x: f32) -> f32
    ensures { result ≡ exponential x }
{
    exp::expf(x)
}

pub fn ln_1p(x: f32) -> f32
    ensures { result ≡ logarithm1p x }
{
    det::lnf(1.0 + x)
}

pub fn powf(x: f32, y: f32) -> f32
    ensures { result ≡ power x y }
{
    det::powff(x, y)
}

// x to the power y by l, which `ln_wide` gives for x.
pub fn powf_by(x: f32, l: f64, y: f32) -> f32
    requires { l ≡ wide_logarithm x }
    ensures { result ≡ power x y }
{
    det::powff_by(x, l, y)
}

// The logarithm as det.rs works it out, before it is rounded.
pub fn ln_wide(x: f32) -> f64
    ensures { result ≡ wide_logarithm x }
{
    det::ln(cast::f32_to_f64(x))
}

pub fn pow10(y: f32) -> f32
    ensures { result ≡ power (Ieee.of_bits binary32 0x4120_0000) y }
{
    det::pow10f(y)
}

pub fn tanh(x: f32) -> f32
    ensures { result ≡ tangent x }
{
    det::tanhf(x)
}

pub fn log10(x: f32) -> f32
    ensures { result ≡ logarithm10 x }
{
    det::log10f(x)
}

// ---- coefficients

// What a decay with the time constant secs keeps in one sample.
#[tactic(auto, unfolding(crate::specs::Coefficients::one_pole_of))]
pub fn one_pole(secs: f32, sr: f32) -> f32
    ensures { result ≡ one_pole_of secs sr }
{
    exp(-1.0 / (secs * sr))
}

#[derive(Clone, Copy)]
pub struct Follower {
    pub at: f32,
    pub rt: f32,
}

// Both times are at least 0.1 ms, so that a zero never divides.
#[tactic(auto, unfolding(crate::specs::Coefficients::follower_of))]
pub fn follower_coeffs(attack: f32, release: f32, sr: f32) -> Follower
    ensures { result ≡ record { at = follower_of attack sr; rt = follower_of release sr } }
{
    let at = one_pole(float::max(attack, 1e-4), sr);
    let rt = one_pole(float::max(release, 1e-4), sr);
    Follower { at, rt }
}

const TAU: f32 = 6.28318530717958647692528676655900577;

// -ln(1000): a ring falls by 60 dB in its decay time.
const NEG_LN_1000: f32 = -6.907_755;

// A mode's resonator: y = b0 x + a1 y' + a2 y''. An array would lose these names, which are the Rust's, as are those of a filter's
// coefficients: the two share names and no formula.
#[derive(Clone, Copy)]
pub struct Resonator {
    pub a1: f32,
    pub a2: f32,
    pub b0: f32,
}

pub fn modal_coeffs(freq: f32, decay: f32, gain: f32, sr: u32) -> Resonator
    ensures { result ≡ modal_of freq decay gain sr }
{
    let srf = cast::u32_to_f32(sr);
    let nyq = srf * 0.5;
    let f0 = float::clamp(freq, 1.0, float::max(nyq - 1.0, 1.0));
    let w0 = TAU * f0 / srf;
    let r = exp(NEG_LN_1000 / (float::max(decay, 1e-3) * srf));
    let sin0 = sin(w0);
    let cos0 = cos(w0);
    Resonator {
        a1: 2.0 * r * cos0,
        a2: -r * r,
        b0: gain * sin0,
    }
}

// Freeverb's room size as the combs' feedback.
#[tactic(auto, unfolding(crate::specs::Coefficients::feedback_of))]
pub fn freeverb_feedback(room: f32) -> f32
    ensures { result ≡ feedback_of room }
{
    0.7 + 0.28 * float::clamp(room, 0.0, 1.0)
}
