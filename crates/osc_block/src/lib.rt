// The oscillators over a block: what the one-sample kernel gives, sample after sample. Output, frequencies and state stay three
// parameters, and `Covers`, that each sample has a frequency, a clause of each: a struct of them would be made for one call and taken
// apart in it. An index or a duty is a buffer of its own, as long as the block, so these are slices side by side.
#![tactic(auto)]

ghost use Rattle.std.specs.Prelude.{◌≡◌, ◌≤◌, length};
ghost use Rattle.block.specs.Iterate.{given, after};
ghost use Rattle.source.specs.Oscillators.{Covers};
ghost use Rattle.osc_block.specs.Steps.{sine_step, square_step, saw_step, triangle_step, fm_step};

use source::{Fm, Frequencies, Triangle};

const TAU: f32 = 6.2831855;

// ---- Sine and Fm, in passes: the arguments of a block's sines first, apart from the sines, which are independent of each other.

pub fn sine_block(out: &mut [f32], w: Frequencies, phase: f32) -> f32
    requires { Covers (length out.old) w }
    ensures { (out.new ≡ given (sine_step w.entry) phase (length out.old)) × (result ≡ after (sine_step w.entry) phase (length out.old)) }
{
    let next = block::run_block(out, phase, |k, p, _| (TAU * p, w.at(k).next(p)));
    dsp::sin_block(out);
    next
}

// The carrier's arguments are of the modulator's sines, m.
pub fn fm_block(out: &mut [f32], w: Frequencies, index: &[f32], ratio: f32, s: Fm) -> Fm
    requires { Covers (length out.old) w × (length out.old ≤ length index.now) }
    ensures { (out.new ≡ given (fm_step w.entry index.now ratio) s (length out.old)) × (result ≡ after (fm_step w.entry index.now ratio) s (length out.old)) }
{
    let mph = block::run_block(
        out,
        s.mph,
        |k, p, _| (TAU * p, w.at(k).next_modulator(ratio, p)),
    );
    dsp::sin_block(out);
    let cph = block::run_block(
        out,
        s.cph,
        |k, p, m| (TAU * p + index[k] * m, w.at(k).next(p)),
    );
    dsp::sin_block(out);
    Fm { cph, mph }
}

// ---- the others, in one pass

pub fn square_block(out: &mut [f32], w: Frequencies, duty: &[f32], phase: f32) -> f32
    requires { Covers (length out.old) w × (length out.old ≤ length duty.now) }
    ensures { (out.new ≡ given (square_step w.entry duty.now) phase (length out.old)) × (result ≡ after (square_step w.entry duty.now) phase (length out.old)) }
{
    block::run_block(out, phase, |k, p, _| source::square(w.at(k), duty[k], p))
}

pub fn saw_block(out: &mut [f32], w: Frequencies, phase: f32) -> f32
    requires { Covers (length out.old) w }
    ensures { (out.new ≡ given (saw_step w.entry) phase (length out.old)) × (result ≡ after (saw_step w.entry) phase (length out.old)) }
{
    block::run_block(out, phase, |k, p, _| source::saw(w.at(k), p))
}

pub fn triangle_block(out: &mut [f32], w: Frequencies, s: Triangle) -> Triangle
    requires { Covers (length out.old) w }
    ensures { (out.new ≡ given (triangle_step w.entry) s (length out.old)) × (result ≡ after (triangle_step w.entry) s (length out.old)) }
{
    block::run_block(out, s, |k, mut s, _| (s.step(w.at(k)), s))
}
