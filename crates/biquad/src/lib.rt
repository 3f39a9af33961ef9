// The filters' coefficients of effects.rs, each equal to its definition in specs/, operation by operation.
#![tactic(auto)]

ghost use Rattle.std.specs.Prelude.{◌≡◌};
ghost use Rattle.biquad.specs.Biquad.{gain_of, root_of, normal, lowpass, highpass, bandpass, notched, peaking, low_shelf, high_shelf, cookbook, angle_of, alpha_of, coeffs_of, biquad_of};
ghost use Rattle.sqrt.specs.Sqrt.{sqrt_of};

const TAU: f32 = 6.2831855;

#[derive(Clone, Copy)]
pub enum FilterKind {
    Low,
    High,
    Band,
    Notch,
    // A peak and the shelves have a gain in dB.
    Peak(f32),
    LowShelf(f32),
    HighShelf(f32),
}

// A filter but for its cutoff.
#[derive(Clone, Copy)]
pub struct Response {
    pub kind: FilterKind,
    pub q: f32,
    pub sr: u32,
}

// The RBJ cookbook's amp, and its square root, which only a shelf reads. They come of the kind alone, so a block of samples with a
// moving cutoff needs them once.
#[derive(Clone, Copy)]
pub struct Amplitude {
    pub amp: f32,
    pub root: f32,
}

// What the filter kernel runs on, by the cookbook's names, which an array would lose.
#[derive(Clone, Copy)]
pub struct Coefficients {
    pub b0: f32,
    pub b1: f32,
    pub b2: f32,
    pub a1: f32,
    pub a2: f32,
}

// The cookbook's six, flat as its formulas give them: the five above and an a0 beside them would be filled in two places.
#[derive(Clone, Copy)]
pub struct Six {
    pub b0: f32,
    pub b1: f32,
    pub b2: f32,
    pub a0: f32,
    pub a1: f32,
    pub a2: f32,
}

// a0 is divided out last.
fn over_a0(k: Six) -> Coefficients
    ensures { result ≡ normal k }
{
    Coefficients {
        b0: k.b0 / k.a0,
        b1: k.b1 / k.a0,
        b2: k.b2 / k.a0,
        a1: k.a1 / k.a0,
        a2: k.a2 / k.a0,
    }
}

// The cosine and alpha stay two numbers, beside the amplitude too, as the cookbook's formulas have them: a struct would only lengthen
// each.
fn low(cos: f32, alpha: f32) -> Six
    ensures { result ≡ lowpass cos alpha }
{
    Six {
        b0: (1.0 - cos) / 2.0,
        b1: 1.0 - cos,
        b2: (1.0 - cos) / 2.0,
        a0: 1.0 + alpha,
        a1: -2.0 * cos,
        a2: 1.0 - alpha,
    }
}

fn high(cos: f32, alpha: f32) -> Six
    ensures { result ≡ highpass cos alpha }
{
    Six {
        b0: (1.0 + cos) / 2.0,
        b1: -(1.0 + cos),
        b2: (1.0 + cos) / 2.0,
        a0: 1.0 + alpha,
        a1: -2.0 * cos,
        a2: 1.0 - alpha,
    }
}

fn band(cos: f32, alpha: f32) -> Six
    ensures { result ≡ bandpass cos alpha }
{
    Six {
        b0: alpha,
        b1: 0.0,
        b2: -alpha,
        a0: 1.0 + alpha,
        a1: -2.0 * cos,
        a2: 1.0 - alpha,
    }
}

fn notch(cos: f32, alpha: f32) -> Six
    ensures { result ≡ notched cos alpha }
{
    Six {
        b0: 1.0,
        b1: -2.0 * cos,
        b2: 1.0,
        a0: 1.0 + alpha,
        a1: -2.0 * cos,
        a2: 1.0 - alpha,
    }
}

fn peak(cos: f32, alpha: f32, amp: f32) -> Six
    ensures { result ≡ peaking cos alpha amp }
{
    Six {
        b0: 1.0 + alpha * amp,
        b1: -2.0 * cos,
        b2: 1.0 - alpha * amp,
        a0: 1.0 + alpha / amp,
        a1: -2.0 * cos,
        a2: 1.0 - alpha / amp,
    }
}

fn low_shelf(cos: f32, alpha: f32, a: Amplitude) -> Six
    ensures { result ≡ low_shelf cos alpha a }
{
    let amp = a.amp;
    let s = 2.0 * a.root * alpha;
    let ap1 = amp + 1.0;
    let am1 = amp - 1.0;
    Six {
        b0: amp * (ap1 - am1 * cos + s),
        b1: 2.0 * amp * (am1 - ap1 * cos),
        b2: amp * (ap1 - am1 * cos - s),
        a0: ap1 + am1 * cos + s,
        a1: -2.0 * (am1 + ap1 * cos),
        a2: ap1 + am1 * cos - s,
    }
}

fn high_shelf(cos: f32, alpha: f32, a: Amplitude) -> Six
    ensures { result ≡ high_shelf cos alpha a }
{
    let amp = a.amp;
    let s = 2.0 * a.root * alpha;
    let ap1 = amp + 1.0;
    let am1 = amp - 1.0;
    Six {
        b0: amp * (ap1 + am1 * cos + s),
        b1: -2.0 * amp * (am1 + ap1 * cos),
        b2: amp * (ap1 + am1 * cos - s),
        a0: ap1 - am1 * cos + s,
        a1: 2.0 * (am1 - ap1 * cos),
        a2: ap1 - am1 * cos - s,
    }
}

// The amp of a kind.
#[tactic(auto, unfolding(crate::specs::Biquad::gain_of))]
pub fn gain(kind: FilterKind) -> f32
    ensures { result ≡ gain_of kind }
{
    match kind {
        FilterKind::Peak(g) | FilterKind::LowShelf(g) | FilterKind::HighShelf(g) => {
            dsp::powf(10.0, g / 40.0)
        }
        _ => 1.0,
    }
}

// Its square root: the kinds that read none have the amp in its place.
#[tactic(auto, unfolding(crate::specs::Biquad::root_of))]
pub fn root(kind: FilterKind, amp: f32) -> f32
    ensures { result ≡ root_of kind amp }
{
    match kind {
        FilterKind::LowShelf(_) | FilterKind::HighShelf(_) => sqrt::sqrt(amp),
        _ => amp,
    }
}

// The coefficients of a cosine and an alpha, with the amp and its root at hand.
#[tactic(auto, unfolding(crate::specs::Biquad::cookbook))]
pub fn coeffs_at(kind: FilterKind, cos: f32, alpha: f32, a: Amplitude) -> Coefficients
    ensures { result ≡ normal (cookbook kind cos alpha a) }
{
    over_a0(match kind {
        FilterKind::Low => low(cos, alpha),
        FilterKind::High => high(cos, alpha),
        FilterKind::Band => band(cos, alpha),
        FilterKind::Notch => notch(cos, alpha),
        FilterKind::Peak(_) => peak(cos, alpha, a.amp),
        FilterKind::LowShelf(_) => low_shelf(cos, alpha, a),
        FilterKind::HighShelf(_) => high_shelf(cos, alpha, a),
    })
}

// w0, of the cutoff and the sample rate. The larger of the two bounds keeps them in order at a rate below 240.
#[tactic(auto, unfolding(crate::specs::Biquad::angle_of))]
pub fn angle(fc: f32, srf: f32) -> f32
    ensures { result ≡ angle_of fc srf }
{
    let nyq = srf / 2.0;
    let f = float::clamp(fc, 20.0, float::max(nyq - 100.0, 20.0));
    TAU * f / srf
}

// q is kept off 0, by which it would divide.
pub fn alpha(sin: f32, q: f32) -> f32
    ensures { result ≡ alpha_of sin q }
{
    sin / (2.0 * float::max(q, 0.05))
}

// The coefficients for a cutoff, with the amp and its root at hand.
#[tactic(auto, unfolding(crate::specs::Biquad::coeffs_of))]
pub fn coeffs_rooted(r: Response, a: Amplitude, fc: f32) -> Coefficients
    ensures { result ≡ coeffs_of r a fc }
{
    let w0 = angle(fc, cast::u32_to_f32(r.sr));
    coeffs_at(r.kind, dsp::cos(w0), alpha(dsp::sin(w0), r.q), a)
}

// The same, with the amp at hand.
#[tactic(auto, using(crate::proofs::Hoisted::rooted))]
pub fn coeffs_with(r: Response, amp: f32, fc: f32) -> Coefficients
    ensures { result ≡ coeffs_of r (record { amp = amp; root = sqrt_of amp }) fc }
{
    let root = root(r.kind, amp);
    coeffs_rooted(r, Amplitude { amp, root }, fc)
}

// The RBJ cookbook's coefficients for a cutoff, in its order of operations as the Rust has it.
#[tactic(auto, unfolding(crate::specs::Biquad::biquad_of))]
pub fn biquad_coeffs(r: Response, fc: f32) -> Coefficients
    ensures { result ≡ biquad_of r fc }
{
    coeffs_with(r, gain(r.kind), fc)
}
