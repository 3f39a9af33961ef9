// The effects.
use crate::of_filters;
use crate::words::{below, choice, length, singles, whole};
use drive_step::Drive;
use dsl::DriveShape;
use proc::{Compressor, Mode};
use std::io;
use std::io::{Read, Write};
use vectors::{AnswerFile, Operands, of_single, single};

// ---- the lines

fn delay(x: Operands) -> f32 {
    line_step::delay(single(x[0]), single(x[1]), single(x[2]))
}

fn next_place(x: Operands) -> u64 {
    let len = length(x[1]);
    line_step::next_place(below(x[0], len), len)
}

// What a comb gives is what its line held, and is not on file.
fn comb(x: Operands) -> [f32; 2] {
    let [feedback, store, x, y, ..] = singles(x);
    let (_, next, line) = line_step::comb(feedback, store, x, y);
    [next, line]
}

fn allpass(x: Operands) -> [f32; 2] {
    let (y, line) = line_step::allpass(single(x[0]), single(x[1]));
    [y, line]
}

fn chorus_read(x: Operands) -> [u64; 3] {
    let [base, swing, rate, srf, ..] = singles(x);
    let t = whole(x[6], x[7]);
    let r = line_step::chorus_read(base, swing, rate, srf, length(x[4]), x[5], t);
    [r.i0, r.i1, of_single(r.frac)]
}

fn chorus(x: Operands) -> f32 {
    let [mix, frac, x, a, b, ..] = singles(x);
    line_step::chorus(mix, frac, x, a, b)
}

// ---- what has no line

fn mode_step(x: Operands) -> [f32; 6] {
    let [a1, a2, b0, y1, y2, x, ..] = singles(x);
    let mut m = Mode { a1, a2, b0, y1, y2 };
    let y = m.step(x);
    [y, m.a1, m.a2, m.b0, m.y1, m.y2]
}

fn drive_shape(x: Operands) -> DriveShape {
    DriveShape::from(choice(x[0]))
}

fn drive_step(words: Operands) -> [f32; 5] {
    let [_, amount, x_prev, f_prev, dc_x, dc_y, x, ..] = singles(words);
    let mut s = Drive {
        x_prev,
        f_prev,
        dc_x,
        dc_y,
    };
    let y = s.step(drive_shape(words), amount, x);
    [y, s.x_prev, s.f_prev, s.dc_x, s.dc_y]
}

fn tremolo(words: Operands) -> f32 {
    let [rate, depth, srf, _, _, x, ..] = singles(words);
    proc::tremolo(rate, depth, srf, whole(words[3], words[4]), x)
}

fn compress(x: Operands) -> [f32; 2] {
    let [at, rt, threshold, ratio, makeup, env, x, ..] = singles(x);
    let c = Compressor {
        at,
        rt,
        threshold,
        ratio,
        makeup,
    };
    let (y, next) = c.step(env, x);
    [y, next]
}

// ---- in the order of the file

pub(crate) fn effects<R: Read, W: Write>(file: &mut AnswerFile<R, W>) -> io::Result<()> {
    file.section(|x| proc::gain(single(x[0]), single(x[1])))?;
    file.section(of_filters::step)?;
    file.section(delay)?;
    file.section(next_place)?;
    file.section(comb)?;
    file.section(allpass)?;
    file.section(|x| line_step::reverb_mix(single(x[0]), single(x[1]), single(x[2])))
}

pub(crate) fn dynamics<R: Read, W: Write>(file: &mut AnswerFile<R, W>) -> io::Result<()> {
    file.section(mode_step)?;
    file.section(drive_step)?;
    file.section(|x| { drive_step::drive_plain(drive_shape(x), single(x[1]), single(x[2])) })?;
    file.section(tremolo)?;
    file.section(chorus_read)?;
    file.section(chorus)?;
    file.section(compress)
}
