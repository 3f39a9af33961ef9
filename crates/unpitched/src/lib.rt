// The sources for one sample that have no pitch: Impact, Env, the noises, Dust.
#![tactic(auto)]

ghost use Rattle.std.specs.Prelude.{◌≡◌};
ghost use Rattle.unpitched.specs.Others.{impact_width, impact_norm, impact_by, impact_of, env_of, white_of, pink_of, brown_of, dust_chance, dust_decay, dust_of};

use rng::Rng;

// ---- Impact

#[tactic(auto, unfolding(crate::specs::Others::impact_width))]
pub fn impact_width(hardness: f32, srf: f32) -> u64
    ensures { result ≡ impact_width hardness srf }
{
    let h = float::clamp(hardness, 0.0, 1.0);
    cast::f32_to_u64(rounding::round((0.008 * (1.0 - h) + 0.0003 * h) * srf)).max(1)
}

#[tactic(auto, unfolding(crate::specs::Others::impact_norm))]
pub fn impact_norm(velocity: f32, w: u64) -> f32
    ensures { result ≡ impact_norm velocity w }
{
    float::clamp(velocity, 0.0, 1.0) / (0.5 * cast::u64_to_f32(w))
}

// A mallet's strike: a Hann lobe of w samples, of the area norm * w / 2.
#[derive(Clone, Copy)]
pub struct Impact {
    pub w: u64,
    pub norm: f32,
}

impl Impact {
    pub fn new(hardness: f32, velocity: f32, srf: f32) -> Impact
        ensures { result ≡ impact_by hardness velocity srf }
    {
        let w = impact_width(hardness, srf);
        Impact {
            w,
            norm: impact_norm(velocity, w),
        }
    }

    // Sample t.
    #[tactic(auto, unfolding(crate::specs::Others::impact_of))]
    pub fn at(self, t: u64) -> f32
        ensures { result ≡ impact_of self.w self.norm t }
    {
        if t < self.w {
            let phase = (cast::u64_to_f32(t) + 0.5) / cast::u64_to_f32(self.w);
            return self.norm * 0.5 * (1.0 - dsp::cos(6.2831855 * phase));
        }
        0.0
    }
}

// ---- Env

#[tactic(auto, unfolding(crate::specs::Others::env_of))]
pub fn env(env: dsl::Adsr, srf: f32, rel_start: f32, t: u64) -> f32
    ensures { result ≡ env_of env srf rel_start t }
{
    envelope::adsr_env(env, value::seconds(t, srf), rel_start)
}

// ---- noises

// The generator's word in, the sample and the next word out.
#[tactic(auto, unfolding(crate::specs::Others::white_of))]
pub fn white(word: u64) -> (f32, u64)
    ensures { result ≡ white_of word }
{
    let mut rng = Rng { state: word };
    (rng.bi(), rng.state)
}

// White noise through Paul Kellet's filter. Each noise has its generator, and by its own name what its recurrence reads: one type of a
// generator and any state would lose these names.
#[derive(Clone, Copy)]
pub struct Pink {
    pub rng: Rng,
    pub poles: [f32; 7],
}

impl Pink {
    #[tactic(auto, unfolding(crate::specs::Others::pink_of))]
    pub fn step(&mut self) -> f32
        ensures { (result, self.new) ≡ pink_of self.old }
    {
        let w = self.rng.bi();
        let b = self.poles;
        let b0 = 0.99886 * b[0] + w * 0.0555179;
        let b1 = 0.99332 * b[1] + w * 0.0750759;
        let b2 = 0.96900 * b[2] + w * 0.153852;
        let b3 = 0.86650 * b[3] + w * 0.3104856;
        let b4 = 0.55000 * b[4] + w * 0.5329522;
        let b5 = -0.7616 * b[5] - w * 0.0168980;
        let v = b0 + b1 + b2 + b3 + b4 + b5 + b[6] + w * 0.5362;
        self.poles = [b0, b1, b2, b3, b4, b5, w * 0.115926];
        v * 0.11
    }
}

// White noise integrated with a leak; last is the integral.
#[derive(Clone, Copy)]
pub struct Brown {
    pub rng: Rng,
    pub last: f32,
}

impl Brown {
    #[tactic(auto, unfolding(crate::specs::Others::brown_of))]
    pub fn step(&mut self) -> f32
        ensures { (result, self.new) ≡ brown_of self.old }
    {
        self.last = (self.last + 0.02 * self.rng.bi()) * 0.998;
        float::clamp(self.last * 8.0, -1.0, 1.0)
    }
}

// ---- Dust

#[tactic(auto, unfolding(crate::specs::Others::dust_chance))]
pub fn dust_chance(density: f32, srf: f32) -> f32
    ensures { result ≡ dust_chance density srf }
{
    float::clamp(density / srf, 0.0, 1.0)
}

#[tactic(auto, unfolding(crate::specs::Others::dust_decay))]
pub fn dust_decay(decay: f32, srf: f32) -> f32
    ensures { result ≡ dust_decay decay srf }
{
    if decay > 0.0 {
        return dsp::one_pole(decay, srf);
    }
    0.0
}

// y is what is left of the last impulses.
#[derive(Clone, Copy)]
pub struct Dust {
    pub rng: Rng,
    pub y: f32,
}

impl Dust {
    // p is the chance of an impulse, g the decay: two numbers, since a struct of them would be made at one call and taken apart in this.
    #[tactic(auto, unfolding(crate::specs::Others::dust_of))]
    pub fn step(&mut self, p: f32, g: f32) -> f32
        ensures { (result, self.new) ≡ dust_of p g self.old }
    {
        let impulse = if self.rng.unit() < p {
            self.rng.bi()
        } else {
            0.0
        };
        self.y = impulse + g * self.y;
        self.y
    }
}
