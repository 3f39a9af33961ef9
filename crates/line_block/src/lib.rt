// The processors that read and write a line, over a block, in place. The line's place stays below its length. The two are no struct:
// behind a reference to one its slice may be replaced, and each contract would say that it was not. The buffers are as long as the
// block and stay apart from it: the samples, the LFO's sines and the line are three slices in the caller's memory. As
// in `value_block`, a clause says that the positions fit.
#![tactic(auto)]

ghost use Rattle.std.specs.Prelude.{◌≡◌, ◌+◌, ◌^◌, ◌≤◌, ◌<◌, length};
ghost use Rattle.block.specs.Iterate.{given, after};
ghost use Rattle.line_block.specs.Steps.{delay_step, chorus_step, chorus_by_step};

#[tactic(auto, using(proc_block::proofs::Whole::loops))]
pub fn delay_block(out: &mut [f32], line: &mut [f32], feedback: f32, place: u64) -> u64
    requires { place < length line.old }
    ensures { (out.new ≡ given (delay_step out.old feedback (length line.old)) (line.old, place) (length out.old)) × ((line.new, result) ≡ after (delay_step out.old feedback (length line.old)) (line.old, place) (length out.old)) × (result < length line.new) }
{
    let mut w = place;
    for k in 0..out.len() {
        let y = line_step::delay(feedback, out[k], line[w as usize]);
        line[w as usize] = y;
        out[k] = y;
        w = line_step::next_place(w, line.len() as u64);
    }
    w
}

// ---- Chorus, from the sines of its LFO, which are worked out first: a loop over the line would hold up each sine.

// base and swing are `chorus_base` and `chorus_swing` of the sheet, worked out once.
#[derive(Clone, Copy)]
pub struct Chorus {
    pub base: f32,
    pub swing: f32,
    pub rate: f32,
    pub mix: f32,
}

#[tactic(auto, using(proc_block::proofs::Whole::loops))]
fn chorus_by(out: &mut [f32], sines: &[f32], line: &mut [f32], c: Chorus, place: u64) -> u64
    requires { (place < length line.old) × (length out.old ≤ length sines.now) }
    ensures { (out.new ≡ given (chorus_by_step out.old sines.now c.base c.swing c.mix (length line.old)) (line.old, place) (length out.old)) × ((line.new, result) ≡ after (chorus_by_step out.old sines.now c.base c.swing c.mix (length line.old)) (line.old, place) (length out.old)) × (result < length line.new) }
{
    let len = line.len() as u64;
    let mut w = place;
    for k in 0..out.len() {
        let x = out[k];
        line[w as usize] = x;
        let r = line_step::chorus_place(c.base, c.swing, sines[k], len, w);
        out[k] = line_step::chorus(c.mix, r.frac, x, line[r.i0 as usize], line[r.i1 as usize]);
        w = line_step::next_place(w, len);
    }
    w
}

// srf is the sample rate, and t the position of the first sample.
pub fn chorus_block(
    out: &mut [f32],
    buf: &mut [f32],
    line: &mut [f32],
    c: Chorus,
    srf: f32,
    t: u64,
    place: u64,
) -> u64
    requires { (place < length line.old) × (t + length out.old < 2 ^ 64) × (length out.old ≤ length buf.old) }
    ensures { (out.new ≡ given (chorus_step out.old c.base c.swing c.rate srf c.mix (length line.old) t) (line.old, place) (length out.old)) × ((line.new, result) ≡ after (chorus_step out.old c.base c.swing c.rate srf c.mix (length line.old) t) (line.old, place) (length out.old)) × (result < length line.new) }
{
    let sines = &mut buf[..out.len()];
    proc_block::lfo_block(sines, c.rate, srf, t);
    chorus_by(out, sines, line, c, place)
}
