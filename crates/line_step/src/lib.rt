// Delay, Chorus and the combs and allpasses of Reverb for one sample: what the line held goes in, what is written to it comes out.
#![tactic(auto)]

ghost use Rattle.std.specs.Prelude.{◌≡◌, ◌%◌, ◌<◌};
ghost use Rattle.line_step.specs.Line.{delay_of, next_place, comb_of, allpass_of, reverb_mix, chorus_place, chorus_read, chorus_of};

// Two places of the line and how far between them. An array of the two would be read by index, and say no more.
#[derive(Clone, Copy)]
pub struct ChorusRead {
    pub i0: u64,
    pub i1: u64,
    pub frac: f32,
}

pub fn delay(feedback: f32, x: f32, delayed: f32) -> f32
    ensures { result ≡ delay_of feedback x delayed }
{
    x + feedback * delayed
}

// The next place of a line, without a division.
pub fn next_place(w: u64, len: u64) -> u64
    requires { w < len }
    ensures { (result ≡ next_place w len) × (result < len) }
{
    let next = w + 1;
    if next < len { next } else { 0 }
}

// What it gives, the next store, and what goes into its line.
#[tactic(auto, unfolding(crate::specs::Line::comb_of))]
pub fn comb(feedback: f32, store: f32, x: f32, y: f32) -> (f32, f32, f32)
    ensures { result ≡ comb_of feedback store x y }
{
    let fs = y * (1.0 - 0.2) + store * 0.2;
    (y, fs, x + fs * feedback)
}

// What it gives, and what goes into its line.
#[tactic(auto, unfolding(crate::specs::Line::allpass_of))]
pub fn allpass(wet: f32, buffered: f32) -> (f32, f32)
    ensures { result ≡ allpass_of wet buffered }
{
    (-wet + buffered, wet + buffered * 0.5)
}

#[tactic(auto, unfolding(crate::specs::Line::reverb_mix))]
pub fn reverb_mix(mix: f32, x: f32, wet: f32) -> f32
    ensures { result ≡ reverb_mix mix x wet }
{
    x * (1.0 - mix) + (wet * 0.16666667) * mix
}

// i % len, without a division where i is below len already.
fn within(i: u64, len: u64) -> u64
    requires { 0 < len }
    ensures { (result ≡ i % len) × (result < len) }
{
    if i < len { i } else { i % len }
}

// A remainder that rounds up to the line's length is taken at 0 by the last remainder.
#[tactic(auto, unfolding(crate::specs::Line::chorus_place))]
pub fn chorus_place(base: f32, swing: f32, sine: f32, len: u64, w: u64) -> ChorusRead
    requires { 0 < len }
    ensures { (result ≡ chorus_place base swing sine len w) × (result.i0 < len) × (result.i1 < len) }
{
    let delay = base + swing * sine;
    let read = float::rem_euclid(cast::u64_to_f32(w) - delay, cast::u64_to_f32(len));
    let whole = rounding::floor(read);
    let i0 = within(cast::f32_to_u64(whole), len);
    ChorusRead {
        i0,
        i1: next_place(i0, len),
        frac: read - whole,
    }
}

#[tactic(auto, unfolding(crate::specs::Line::chorus_read))]
pub fn chorus_read(
    base: f32,
    swing: f32,
    rate: f32,
    srf: f32,
    len: u64,
    w: u64,
    t: u64,
) -> ChorusRead
    requires { 0 < len }
    ensures { (result ≡ chorus_read base swing rate srf len w t) × (result.i0 < len) × (result.i1 < len) }
{
    chorus_place(base, swing, proc::lfo_at(rate, srf, t), len, w)
}

#[tactic(auto, unfolding(crate::specs::Line::chorus_of))]
pub fn chorus(mix: f32, frac: f32, x: f32, a: f32, b: f32) -> f32
    ensures { result ≡ chorus_of mix frac x a b }
{
    let wet = a * (1.0 - frac) + b * frac;
    x * (1.0 - mix) + wet * mix
}
