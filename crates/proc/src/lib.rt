// Gain, Tremolo, Compress, a mode of Modal and the sine of an LFO for one sample.
#![tactic(auto)]

ghost use Rattle.std.specs.Prelude.{◌≡◌};
ghost use Rattle.proc.specs.Effects.{gain_of, mode_of, lfo_angle, lfo_at, tremolo_by, tremolo_of, followed, reduction_of, compress_level, compress_gain, compress_of};

// A mode's five cells, in the sheet's order and by the Rust's names. A resonator of its own in it would be taken apart wherever the cells
// are loaded or stored. It shares three names with a filter's coefficients, and no formula.
#[derive(Clone, Copy)]
pub struct Mode {
    pub a1: f32,
    pub a2: f32,
    pub b0: f32,
    pub y1: f32,
    pub y2: f32,
}

impl Mode {
    #[tactic(auto, unfolding(crate::specs::Effects::mode_of))]
    pub fn step(&mut self, x: f32) -> f32
        ensures { (result, self.new) ≡ mode_of self.old x }
    {
        let y = self.b0 * x + self.a1 * self.y1 + self.a2 * self.y2;
        *self = Mode {
            y1: y,
            y2: self.y1,
            ..*self
        };
        y
    }
}

pub fn gain(amount: f32, x: f32) -> f32
    ensures { result ≡ gain_of amount x }
{
    x * amount
}

// The angle of the LFO at a position; its sine is `dsp::sin`, by a block in a loop of its own. The three numbers stay apart: one is the
// record's, one the sheet's and one the controls', and a struct would be made anew at each call.
pub fn lfo_angle(rate: f32, srf: f32, t: u64) -> f32
    ensures { result ≡ lfo_angle rate srf t }
{
    6.2831855 * rate * cast::u64_to_f32(t) / srf
}

pub fn lfo_at(rate: f32, srf: f32, t: u64) -> f32
    ensures { result ≡ lfo_at rate srf t }
{
    dsp::sin(lfo_angle(rate, srf, t))
}

pub fn tremolo_by(depth: f32, sine: f32, x: f32) -> f32
    ensures { result ≡ tremolo_by depth sine x }
{
    x * (1.0 - depth * (0.5 + 0.5 * sine))
}

#[tactic(auto, unfolding(crate::specs::Effects::tremolo_of))]
pub fn tremolo(rate: f32, depth: f32, srf: f32, t: u64, x: f32) -> f32
    ensures { result ≡ tremolo_of rate depth srf t x }
{
    tremolo_by(depth, lfo_at(rate, srf, t), x)
}

// What a Compress keeps to: its follower's attack and release, and its curve.
#[derive(Clone, Copy)]
pub struct Compressor {
    pub at: f32,
    pub rt: f32,
    pub threshold: f32,
    pub ratio: f32,
    pub makeup: f32,
}

impl Compressor {
    // The level above the threshold, turned down by the ratio, in dB.
    #[tactic(auto, unfolding(crate::specs::Effects::reduction_of))]
    fn reduction(self, db: f32) -> f32
        ensures { result ≡ reduction_of self db }
    {
        if db > self.threshold {
            return -(db - self.threshold) * (1.0 - 1.0 / self.ratio);
        }
        0.0
    }

    #[tactic(auto, unfolding(crate::specs::Effects::followed))]
    fn follow(self, env: f32, rect: f32) -> f32
        ensures { result ≡ followed self env rect }
    {
        if rect > env {
            return rect + self.at * (env - rect);
        }
        rect + self.rt * (env - rect)
    }

    // The power of 10 that the gain is, and the follower.
    pub fn level(self, env: f32, x: f32) -> (f32, f32)
        ensures { result ≡ compress_level self env x }
    {
        let e = self.follow(env, float::abs(x));
        let db = 20.0 * dsp::log10(float::max(e, 1e-9));
        (self.reduction(db) / 20.0, e)
    }

    pub fn gain(self, level: f32, x: f32) -> f32
        ensures { result ≡ compress_gain self level x }
    {
        x * dsp::pow10(level) * self.makeup
    }

    // The sample, and the follower.
    #[tactic(auto, unfolding(crate::specs::Effects::compress_of))]
    pub fn step(self, env: f32, x: f32) -> (f32, f32)
        ensures { result ≡ compress_of self env x }
    {
        let (level, e) = self.level(env, x);
        (self.gain(level, x), e)
    }
}
