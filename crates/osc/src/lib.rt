// The kernels of osc.rs, each equal to its definition in specs/, operation by operation.
#![tactic(auto)]

ghost use Rattle.std.specs.Prelude.{◌≡◌};
ghost use Rattle.osc.specs.Osc.{poly_blep, osc_of};

use dsl::Shape;

const TAU: f32 = 6.2831855;

// PolyBLEP residual: what suppresses the aliasing of a step at a phase edge. t is the phase, dt its increment per sample.
#[tactic(auto, unfolding(crate::specs::Osc::poly_blep))]
pub fn poly_blep(t: f32, dt: f32) -> f32
    ensures { result ≡ poly_blep t dt }
{
    if dt <= 0.0 {
        return 0.0;
    }
    if t < dt {
        let u = t / dt;
        return u + u - u * u - 1.0;
    }
    if t > 1.0 - dt {
        let v = (t - 1.0) / dt;
        return v * v + v + v + 1.0;
    }
    0.0
}

// The shape's value, in [-1, 1] for a phase in [0, 1).
#[tactic(auto, unfolding(crate::specs::Osc::osc_of))]
pub fn osc(shape: Shape, phase: f32) -> f32
    ensures { result ≡ osc_of shape phase }
{
    match shape {
        Shape::Sine => dsp::sin(TAU * phase),
        Shape::Square => { if phase < 0.5 { 1.0 } else { -1.0 } }
        Shape::Triangle => {
            if phase < 0.5 {
                4.0 * phase - 1.0
            } else {
                3.0 - 4.0 * phase
            }
        }
        Shape::Saw => 2.0 * phase - 1.0,
    }
}
