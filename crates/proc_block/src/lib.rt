// The processors over a block, in place: what the one-sample kernel gives, sample after sample.
// Those that play in passes are lent a buffer, whose numbers before and after have no meaning. What comes in beside the samples, as
// an amount or a cutoff, is a buffer of its own, as long as the block, so these are slices side by side.
#![tactic(auto)]

mod last;

ghost use Rattle.std.specs.Prelude.{◌≡◌, ◌+◌, ◌^◌, ◌≤◌, ◌<◌, length};
ghost use Rattle.dsl.specs.declared.DriveShape.TheVariants.{Tanh};
ghost use Rattle.block.specs.Iterate.{given, after};
ghost use Rattle.proc_block.specs.Steps.{gain_step, filter_step, decay_step, ln_cosh_step, drive_by_step, drive_step_at, drive_plain_step, lfo_step, angle_step, tremolo_step, tremolo_by_step, compress_step, level_step, level_gain_step};

use biquad::Response;
use drive_step::{Drive, Held};
use dsl::DriveShape;
use filter_step::Filter;
use last::{Decay, LnCosh};
use proc::Compressor;

pub fn gain_block(out: &mut [f32], amount: &[f32])
    requires { length out.old ≤ length amount.now }
    ensures { out.new ≡ given (gain_step out.old amount.now) tt (length out.old) }
{
    block::run_block(out, (), |k, s, x| (proc::gain(amount[k], x), s));
}

// The coefficients follow the cutoff where it moved, as in the one-sample kernel.
pub fn filter_block(out: &mut [f32], cutoff: &[f32], r: Response, s: Filter) -> Filter
    requires { length out.old ≤ length cutoff.now }
    ensures { (out.new ≡ given (filter_step out.old cutoff.now r) s (length out.old)) × (result ≡ after (filter_step out.old cutoff.now r) s (length out.old)) }
{
    block::run_block(out, s, |k, mut s, x| (s.step(r, cutoff[k], x), s))
}

// ---- Drive, anti-aliased. The antiderivative of tanh is an exponential and then a logarithm, each a long chain: in loops of
// their own, apart from the recurrence, more of them overlap. They are not inlined, or else the compiler keeps the recurrence's state
// in registers and loads it again after each call: measured, 11 instructions a sample.

#[tactic(auto, using(crate::proofs::Whole::loops), unfolding(crate::specs::Steps::decay_step))]
#[inline(never)]
fn drive_decays(fs: &mut [f32], xs: &[f32])
    requires { length fs.old ≤ length xs.now }
    ensures { fs.new ≡ given (decay_step xs.now) tt (length fs.old) }
{
    let mut last = Decay { x: 0.0, d: 1.0 };
    for k in 0..fs.len() {
        fs[k] = last.at(xs[k]);
    }
}

#[tactic(auto, using(crate::proofs::Whole::loops), unfolding(crate::specs::Steps::ln_cosh_step))]
#[inline(never)]
fn drive_ln_coshes(fs: &mut [f32], xs: &[f32])
    requires { length fs.old ≤ length xs.now }
    ensures { fs.new ≡ given (ln_cosh_step xs.now fs.old) tt (length fs.old) }
{
    let mut last = LnCosh {
        x: 0.0,
        d: 1.0,
        f: 0.0,
    };
    for k in 0..fs.len() {
        fs[k] = last.at(xs[k], fs[k]);
    }
}

// From the amplified samples, in out, and their antiderivatives. tanh is 0 at 0.
#[tactic(auto, using(crate::proofs::Whole::loops))]
fn drive_averages(out: &mut [f32], fs: &[f32], s: Drive) -> Drive
    requires { length out.old ≤ length fs.now }
    ensures { (out.new ≡ given (drive_by_step out.old fs.now Tanh) s (length out.old)) × (result ≡ after (drive_by_step out.old fs.now Tanh) s (length out.old)) }
{
    let mut state = s;
    let mut held = Held {
        shape: DriveShape::Tanh,
        x: 0.0,
        y: 0.0,
    };
    for k in 0..out.len() {
        out[k] = state.step_after(&mut held, out[k], fs[k]);
    }
    state
}

pub fn drive_block(
    out: &mut [f32],
    buf: &mut [f32],
    amount: &[f32],
    shape: DriveShape,
    s: Drive,
) -> Drive
    requires { (length out.old ≤ length amount.now) × (length out.old ≤ length buf.old) }
    ensures { (out.new ≡ given (drive_step_at out.old amount.now shape) s (length out.old)) × (result ≡ after (drive_step_at out.old amount.now shape) s (length out.old)) }
{
    match shape {
        DriveShape::Tanh => {
            let fs = &mut buf[..out.len()];
            block::run_block(out, (), |k, s, x| (drive_step::amplified(amount[k], x), s));
            drive_decays(fs, out);
            drive_ln_coshes(fs, out);
            drive_averages(out, fs, s)
        }
        _ => block::run_block(out, s, |k, mut s, x| (s.step(shape, amount[k], x), s)),
    }
}

pub fn drive_plain_block(out: &mut [f32], amount: &[f32], shape: DriveShape)
    requires { length out.old ≤ length amount.now }
    ensures { out.new ≡ given (drive_plain_step out.old amount.now shape) tt (length out.old) }
{
    block::run_block(
        out,
        (),
        |k, s, x| (drive_step::drive_plain(shape, amount[k], x), s),
    );
}

// ---- The LFO of Tremolo and Chorus, and Tremolo. A sine is a long chain: in a loop of nothing else, more of them overlap. As in
// `value_block`, a clause says that the positions fit.

fn lfo_angles(buf: &mut [f32], rate: f32, srf: f32, t: u64)
    requires { t + length buf.old < 2 ^ 64 }
    ensures { buf.new ≡ given (angle_step rate srf t) tt (length buf.old) }
{
    block::run_block(
        buf,
        (),
        |k, s, _| (proc::lfo_angle(rate, srf, t + (k as u64)), s),
    );
}

// t is the position of the first sample.
pub fn lfo_block(buf: &mut [f32], rate: f32, srf: f32, t: u64)
    requires { t + length buf.old < 2 ^ 64 }
    ensures { buf.new ≡ given (lfo_step rate srf t) tt (length buf.old) }
{
    lfo_angles(buf, rate, srf, t);
    dsp::sin_block(buf);
}

fn tremolo_products(out: &mut [f32], sines: &[f32], depth: f32)
    requires { length out.old ≤ length sines.now }
    ensures { out.new ≡ given (tremolo_by_step out.old sines.now depth) tt (length out.old) }
{
    block::run_block(out, (), |k, s, x| (proc::tremolo_by(depth, sines[k], x), s));
}

pub fn tremolo_block(out: &mut [f32], buf: &mut [f32], rate: f32, depth: f32, srf: f32, t: u64)
    requires { (t + length out.old < 2 ^ 64) × (length out.old ≤ length buf.old) }
    ensures { out.new ≡ given (tremolo_step out.old rate depth srf t) tt (length out.old) }
{
    let sines = &mut buf[..out.len()];
    lfo_block(sines, rate, srf, t);
    tremolo_products(out, sines, depth);
}

// ---- Compress, in two passes: a sample's logarithm and its power are a long chain each, and in a loop of its own more of them
// overlap.

fn compress_levels(levels: &mut [f32], xs: &[f32], c: Compressor, env: f32) -> f32
    requires { length levels.old ≤ length xs.now }
    ensures { (levels.new ≡ given (level_step xs.now c) env (length levels.old)) × (result ≡ after (level_step xs.now c) env (length levels.old)) }
{
    block::run_block(levels, env, |k, s, _| c.level(s, xs[k]))
}

fn compress_gains(out: &mut [f32], levels: &[f32], c: Compressor)
    requires { length out.old ≤ length levels.now }
    ensures { out.new ≡ given (level_gain_step out.old levels.now c) tt (length out.old) }
{
    block::run_block(out, (), |k, s, x| (c.gain(levels[k], x), s));
}

pub fn compress_block(out: &mut [f32], buf: &mut [f32], c: Compressor, env: f32) -> f32
    requires { length out.old ≤ length buf.old }
    ensures { (out.new ≡ given (compress_step out.old c) env (length out.old)) × (result ≡ after (compress_step out.old c) env (length out.old)) }
{
    let levels = &mut buf[..out.len()];
    let e = compress_levels(levels, out, c, env);
    compress_gains(out, levels, c);
    e
}
