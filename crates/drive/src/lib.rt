// The waveshapers of effects.rs, each equal to its definition in specs/, operation by operation.
#![tactic(auto)]

ghost use Rattle.std.specs.Prelude.{◌≡◌, true, cond};
ghost use Rattle.std.specs.Float.Ieee.{lt};
ghost use Rattle.float.specs.Order.{is_finite};
ghost use Rattle.float.specs.Single.{◌⊖◌, one, two};
ghost use Rattle.drive.specs.Drive.{minus_one, minus_two, fold_of, drive_of, decay_of, ln_cosh, antiderivative_of};

use dsl::DriveShape;

const LN_2: f32 = 0.6931472;

// Reflects a finite x that is outside [-1, 1] back inward. From far out it would take long: after 1,025 folds the sample is
// clamped.
fn fold_on(x: f32) -> f32
    requires { is_finite x ≡ true }
    ensures { result ≡ fold_of x }
{
    let mut y = x;
    for _folds in 0..1025u32 {
        if y > 1.0 {
            y = 2.0 - y;
        } else if y < -1.0 {
            y = -2.0 - y;
        } else {
            return y;
        }
    }
    float::clamp(y, -1.0, 1.0)
}

fn raised(x: f32) -> f32
    ensures { result ≡ cond (lt x minus_one) (minus_two ⊖ x) x }
{
    if x < -1.0 { -2.0 - x } else { x }
}

fn reflected(x: f32) -> f32
    ensures { result ≡ cond (lt one x) (two ⊖ x) (cond (lt x minus_one) (minus_two ⊖ x) x) }
{
    let y = raised(x);
    if x > 1.0 { 2.0 - x } else { y }
}

// One fold at most is usual, and made by selections: on noise a branch would miss. An infinity or a NaN would never come in.
fn fold(x: f32) -> f32
    ensures { result ≡ fold_of x }
{
    if !float::is_finite(x) {
        return 0.0;
    }
    let z = reflected(x);
    if z > 1.0 || z < -1.0 {
        return fold_on(x);
    }
    z
}

// The waveshaper's curve at one sample.
#[tactic(auto, unfolding(crate::specs::Drive::drive_of))]
pub fn drive_curve(x: f32, shape: DriveShape) -> f32
    ensures { result ≡ drive_of shape x }
{
    match shape {
        DriveShape::Tanh => dsp::tanh(x),
        DriveShape::Hard => float::clamp(x, -1.0, 1.0),
        DriveShape::Fold => fold(x),
    }
}

// e^(-2 |x|), for ln cosh x.
pub fn decay(x: f32) -> f32
    ensures { result ≡ decay_of x }
{
    dsp::exp(-2.0 * float::abs(x))
}

// ln cosh x from d, the decay of x, in a form that does not overflow where cosh would.
pub fn ln_cosh(x: f32, d: f32) -> f32
    ensures { result ≡ ln_cosh x d }
{
    float::abs(x) + dsp::ln_1p(d) - LN_2
}

// The curve's antiderivative F, which anti-aliasing uses as F(x1) - F(x0).
#[tactic(auto, unfolding(crate::specs::Drive::antiderivative_of))]
pub fn drive_antideriv(x: f32, shape: DriveShape) -> f32
    ensures { result ≡ antiderivative_of shape x }
{
    match shape {
        DriveShape::Tanh => ln_cosh(x, decay(x)),
        DriveShape::Hard => {
            let a = float::abs(x);
            if a <= 1.0 { 0.5 * x * x } else { a - 0.5 }
        }
        // the fold is a triangle wave of period 4
        DriveShape::Fold => {
            let p = float::rem_euclid(x + 1.0, 4.0);
            if p <= 2.0 {
                0.5 * (p - 1.0) * (p - 1.0)
            } else {
                1.0 - 0.5 * (p - 3.0) * (p - 3.0)
            }
        }
    }
}
