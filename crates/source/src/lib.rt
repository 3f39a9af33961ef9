// The sources for one sample: values and the state in, the sample and the next state out.
#![tactic(auto)]

ghost use Rattle.std.specs.Prelude.{◌≡◌, ◌<◌, length};
ghost use Rattle.std.specs.Float.Ieee as Ieee;
ghost use Rattle.block.specs.Iterate.{at};
ghost use Rattle.float.specs.Single.{◌⊗◌, ◌⊘◌};
ghost use Rattle.source.specs.Oscillators.{increment, hertz, advance, sine_of, pulse_level, pulse, square_of, saw_at, saw_of, half_pulse, triangle_of, fm_of, super_voice};

// ---- what an oscillator runs at

// The frequency's value, the live multiplier of the pitch and the bend, and the rate.
#[derive(Clone, Copy)]
pub struct Frequency {
    pub value: f32,
    pub pitch: f32,
    pub srf: f32,
}

impl Frequency {
    // A value below 0, or a NaN, counts as 0.
    pub fn hertz(self) -> f32
        ensures { result ≡ hertz self.value self.pitch }
    {
        float::max0(self.value) * self.pitch
    }

    // How far a phase goes in a sample.
    fn increment(self) -> f32
        ensures { result ≡ increment self.value self.pitch self.srf }
    {
        self.hertz() / self.srf
    }

    // The phase a sample on.
    pub fn next(self, phase: f32) -> f32
        ensures { result ≡ advance phase (increment self.value self.pitch self.srf) }
    {
        rounding::wrap(phase + self.increment())
    }

    // The same for a modulator at ratio times the frequency.
    pub fn next_modulator(self, ratio: f32, mph: f32) -> f32
        ensures { result ≡ advance mph (hertz self.value self.pitch ⊗ ratio ⊘ self.srf) }
    {
        rounding::wrap(mph + self.hertz() * ratio / self.srf)
    }
}

// That of each sample of a block.
#[derive(Clone, Copy)]
pub struct Frequencies<'a> {
    pub values: &'a [f32],
    pub pitch: &'a [f32],
    pub srf: f32,
}

impl Frequencies<'_> {
    pub fn at(self, k: usize) -> Frequency
        requires { (k < length self.values.now) × (k < length self.pitch.now) }
        ensures { result ≡ record { value = at self.entry.values.now k; pitch = at self.entry.pitch.now k; srf = self.entry.srf } }
    {
        Frequency {
            value: self.values[k],
            pitch: self.pitch[k],
            srf: self.srf,
        }
    }
}

// ---- oscillators whose state is a phase

#[tactic(auto, unfolding(crate::specs::Oscillators::sine_of))]
pub fn sine(w: Frequency, phase: f32) -> (f32, f32)
    ensures { result ≡ sine_of w.value w.pitch w.srf phase }
{
    (osc::osc(dsl::Shape::Sine, phase), w.next(phase))
}

// 1 up to the duty and -1 from there.
fn level_at(phase: f32, duty: f32) -> f32
    ensures { result ≡ pulse_level phase duty }
{
    if phase < duty { 1.0 } else { -1.0 }
}

#[tactic(auto, unfolding(crate::specs::Oscillators::pulse))]
fn pulse_at(phase: f32, duty: f32, dt: f32) -> f32
    ensures { result ≡ pulse phase duty dt }
{
    level_at(phase, duty) + osc::poly_blep(phase, dt)
        - osc::poly_blep(rounding::fract(phase - duty + 1.0), dt)
}

#[tactic(auto, unfolding(crate::specs::Oscillators::square_of))]
pub fn square(w: Frequency, duty: f32, phase: f32) -> (f32, f32)
    ensures { result ≡ square_of w.value duty w.pitch w.srf phase }
{
    let dt = w.increment();
    let out = pulse_at(phase, float::clamp(duty, 0.01, 0.99), dt);
    (out, rounding::wrap(phase + dt))
}

#[tactic(auto, unfolding(crate::specs::Oscillators::saw_at))]
fn saw_at(phase: f32, dt: f32) -> f32
    ensures { result ≡ saw_at phase dt }
{
    (2.0 * phase - 1.0) - osc::poly_blep(phase, dt)
}

#[tactic(auto, unfolding(crate::specs::Oscillators::saw_of))]
pub fn saw(w: Frequency, phase: f32) -> (f32, f32)
    ensures { result ≡ saw_of w.value w.pitch w.srf phase }
{
    let dt = w.increment();
    (saw_at(phase, dt), rounding::wrap(phase + dt))
}

#[tactic(auto, unfolding(crate::specs::Oscillators::half_pulse))]
fn half_pulse(phase: f32, dt: f32) -> f32
    ensures { result ≡ half_pulse phase dt }
{
    level_at(phase, 0.5) + osc::poly_blep(phase, dt)
        - osc::poly_blep(rounding::fract(phase + 0.5), dt)
}

// One voice: f is the frequency times the pitch already.
#[tactic(auto, unfolding(crate::specs::Oscillators::super_voice))]
pub fn super_voice(wave: dsl::SuperWave, f: f32, ratio: f32, srf: f32, phase: f32) -> (f32, f32)
    ensures { result ≡ super_voice wave f ratio srf phase }
{
    let dt = f * ratio / srf;
    let next = rounding::wrap(phase + dt);
    match wave {
        dsl::SuperWave::Sawtooth => (saw_at(phase, dt), next),
        dsl::SuperWave::Square => (half_pulse(phase, dt), next),
    }
}

// ---- oscillators of two numbers

// tri is the integral of the square.
#[derive(Clone, Copy)]
pub struct Triangle {
    pub phase: f32,
    pub tri: f32,
}

impl Triangle {
    #[tactic(auto, unfolding(crate::specs::Oscillators::triangle_of))]
    pub fn step(&mut self, w: Frequency) -> f32
        ensures { (result, self.new) ≡ triangle_of w.value w.pitch w.srf self.old }
    {
        let dt = w.increment();
        self.tri = self.tri * 0.9995 + 4.0 * dt * half_pulse(self.phase, dt);
        self.phase = rounding::wrap(self.phase + dt);
        self.tri
    }
}

// The phases of the carrier and of the modulator.
#[derive(Clone, Copy)]
pub struct Fm {
    pub cph: f32,
    pub mph: f32,
}

impl Fm {
    #[tactic(auto, unfolding(crate::specs::Oscillators::fm_of))]
    pub fn step(&mut self, w: Frequency, index: f32, ratio: f32) -> f32
        ensures { (result, self.new) ≡ fm_of w.value index ratio w.pitch w.srf self.old }
    {
        let m = index * dsp::sin(6.2831855 * self.mph);
        let out = dsp::sin(6.2831855 * self.cph + m);
        self.cph = w.next(self.cph);
        self.mph = w.next_modulator(ratio, self.mph);
        out
    }
}
