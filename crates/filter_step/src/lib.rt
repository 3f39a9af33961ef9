// The filter for one sample.
#![tactic(auto)]

ghost use Rattle.std.specs.Prelude.{◌≡◌};
ghost use Rattle.filter_step.specs.Filter.{tuned, biquad_step, filter_of};

use biquad::Response;

// A filter's eleven cells, in the sheet's order and by the cookbook's names. Its coefficients in a struct of their own would save `tune`
// five lines, and be taken apart wherever the cells are loaded or stored.
#[derive(Clone, Copy)]
pub struct Filter {
    pub scale: f32,
    pub prev_f: f32,
    pub b0: f32,
    pub b1: f32,
    pub b2: f32,
    pub a1: f32,
    pub a2: f32,
    pub x1: f32,
    pub x2: f32,
    pub y1: f32,
    pub y2: f32,
}

impl Filter {
    // The coefficients are worked out anew exactly where the cutoff moved; a NaN always counts as moved.
    #[tactic(auto, unfolding(crate::specs::Filter::tuned))]
    pub fn tune(&mut self, r: Response, f: f32)
        ensures { self.new ≡ tuned r f self.old }
    {
        if f != self.prev_f {
            let k = biquad::biquad_coeffs(r, f);
            *self = Filter {
                prev_f: f,
                b0: k.b0,
                b1: k.b1,
                b2: k.b2,
                a1: k.a1,
                a2: k.a2,
                ..*self
            };
        }
    }

    // Direct form I.
    #[tactic(auto, unfolding(crate::specs::Filter::biquad_step))]
    pub fn biquad(&mut self, x: f32) -> f32
        ensures { (result, self.new) ≡ biquad_step self.old x }
    {
        let s = *self;
        let y = s.b0 * x + s.b1 * s.x1 + s.b2 * s.x2 - s.a1 * s.y1 - s.a2 * s.y2;
        *self = Filter {
            x1: x,
            x2: s.x1,
            y1: y,
            y2: s.y1,
            ..s
        };
        y
    }

    // The sample through the filter at a cutoff.
    #[tactic(auto, unfolding(crate::specs::Filter::filter_of))]
    pub fn step(&mut self, r: Response, cutoff: f32, x: f32) -> f32
        ensures { (result, self.new) ≡ filter_of r cutoff self.old x }
    {
        self.tune(r, cutoff * self.scale);
        self.biquad(x)
    }
}
