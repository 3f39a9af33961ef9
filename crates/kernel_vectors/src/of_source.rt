// The sources.
use crate::words::{adsr, choice, halves, singles, whole};
use dsl::SuperWave;
use rng::Rng;
use source::{Fm, Frequency, Triangle};
use std::io;
use std::io::{Read, Write};
use unpitched::{Brown, Dust, Impact, Pink};
use vectors::{AnswerFile, Answers, Operands, of_single, single};

// ---- the oscillators: a sample, and then the state after it

fn phased<F: Fn(Frequency, f32) -> (f32, f32)>(x: Operands, step: F) -> [f32; 2]
    requires { F.IsAlwaysCallable step }
{
    let [value, pitch, srf, phase, ..] = singles(x);
    let (y, next) = step(Frequency { value, pitch, srf }, phase);
    [y, next]
}

fn square(x: Operands) -> [f32; 2] {
    let [value, duty, pitch, srf, phase, ..] = singles(x);
    let (y, next) = source::square(Frequency { value, pitch, srf }, duty, phase);
    [y, next]
}

fn triangle(x: Operands) -> [f32; 3] {
    let [value, pitch, srf, phase, tri, ..] = singles(x);
    let mut s = Triangle { phase, tri };
    let y = s.step(Frequency { value, pitch, srf });
    [y, s.phase, s.tri]
}

fn fm(x: Operands) -> [f32; 3] {
    let [value, index, ratio, pitch, srf, cph, mph, ..] = singles(x);
    let mut s = Fm { cph, mph };
    let y = s.step(Frequency { value, pitch, srf }, index, ratio);
    [y, s.cph, s.mph]
}

fn super_voice(x: Operands) -> [f32; 2] {
    let [_, f, ratio, srf, phase, ..] = singles(x);
    let wave = SuperWave::from(choice(x[0]));
    let (y, next) = source::super_voice(wave, f, ratio, srf, phase);
    [y, next]
}

pub(crate) fn oscillators<R: Read, W: Write>(file: &mut AnswerFile<R, W>) -> io::Result<()> {
    file.section(|x| phased(x, source::sine))?;
    file.section(square)?;
    file.section(|x| phased(x, source::saw))?;
    file.section(triangle)?;
    file.section(fm)?;
    file.section(super_voice)
}

// ---- what has no pitch: a sample, the generator's state, and what else is left after it

fn drawn(out: f32, state: u64, left: &[f32]) -> Answers {
    let [low, high] = halves(state);
    let mut words = [0; 20];
    words[0] = of_single(out);
    words[1] = low;
    words[2] = high;
    for (word, x) in words[3..].iter_mut().zip(left) {
        *word = of_single(*x);
    }
    Answers {
        words,
        count: 3 + left.len().min(17),
    }
}

fn rng_of(x: Operands) -> Rng {
    Rng {
        state: whole(x[0], x[1]),
    }
}

fn white(x: Operands) -> Answers {
    let (out, state) = unpitched::white(whole(x[0], x[1]));
    drawn(out, state, &[out])
}

fn pink(x: Operands) -> Answers {
    let [_, _, p0, p1, p2, p3, p4, p5, p6, ..] = singles(x);
    let mut s = Pink {
        rng: rng_of(x),
        poles: [p0, p1, p2, p3, p4, p5, p6],
    };
    let out = s.step();
    drawn(out, s.rng.state, &s.poles)
}

fn brown(x: Operands) -> Answers {
    let mut s = Brown {
        rng: rng_of(x),
        last: single(x[2]),
    };
    let out = s.step();
    drawn(out, s.rng.state, &[s.last])
}

fn dust(x: Operands) -> Answers {
    let [_, _, chance, decay, y, ..] = singles(x);
    let mut s = Dust { rng: rng_of(x), y };
    let out = s.step(chance, decay);
    drawn(out, s.rng.state, &[s.y])
}

fn impact(x: Operands) -> f32 {
    let [w, norm, t, ..] = x;
    let norm = single(norm);
    Impact { w, norm }.at(t)
}

fn env(x: Operands) -> f32 {
    unpitched::env(adsr(x), single(x[5]), single(x[6]), whole(x[7], x[8]))
}

pub(crate) fn noises<R: Read, W: Write>(file: &mut AnswerFile<R, W>) -> io::Result<()> {
    file.section(|x| unpitched::impact_width(single(x[0]), single(x[1])))?;
    file.section(|x| unpitched::impact_norm(single(x[0]), x[1]))?;
    file.section(impact)?;
    file.section(white)?;
    file.section(pink)?;
    file.section(brown)?;
    file.section(|x| unpitched::dust_chance(single(x[0]), single(x[1])))?;
    file.section(|x| unpitched::dust_decay(single(x[0]), single(x[1])))?;
    file.section(dust)?;
    file.section(env)
}
